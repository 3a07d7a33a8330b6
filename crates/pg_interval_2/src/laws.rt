//! Laws of the definitions, each the contract of a function with an empty body.
ghost use Rattle.std.specs.Prelude.{◌≡◌, ◌↔◌, true, false, ℕ, List, IsTrue};
ghost use Rattle.std.specs.List.{list_all};
ghost use Rattle.scan_core.specs.Count.{Count};
ghost use Rattle.pg_interval_2.specs.declared.error.ParseError.{ParseError};
ghost use Rattle.pg_interval_2.specs.declared.interval.Interval.{Interval};
ghost use Rattle.pg_interval_2.specs.declared.style.Style.{Style};
ghost use Rattle.pg_interval_2.specs.declared.style.Style.TheVariants.{Iso, IsoStrict};
ghost use Rattle.pg_interval_2.specs.Alphabet.{is_in_alphabet, is_no_feed};
ghost use Rattle.pg_interval_2.specs.Cell.{cell};
ghost use Rattle.pg_interval_2.specs.Denotes.{Denotes, HasNoShape};
ghost use Rattle.pg_interval_2.specs.ErrorText.{SayTheSame};
ghost use Rattle.pg_interval_2.specs.IsoWithoutWeeks.{IsIsoWithoutWeeks, has_week};
ghost use Rattle.pg_interval_2.specs.Ranges.{IsInRange};
ghost use Rattle.pg_interval_2.specs.Styles.{Shape, style_text};
ghost use Rattle.pg_interval_2.specs.Sums.{plus, less};

use crate::{error, interval, style};

/// No text spells two lists of counts in one style, so none denotes two intervals.
pub fn text_has_one_list_of_counts()
    ensures { (style : Style) (text : List ℕ) (a b : List Count) → Shape style text a
        → Shape style text b → a ≡ b }
{}

/// The written text of an interval, read in its own style, denotes this interval and no other.
pub fn written_text_is_read_back()
    ensures denotes { (style : Style) (t : Interval) → IsInRange t
        → Denotes (Shape style) (style_text style t) t }
    ensures alone { (style : Style) (t u : Interval) → IsInRange t
        → Denotes (Shape style) (style_text style t) u → u ≡ t }
{}

/// What weeks changed of the ISO style: a text without a `W` spells the counts that it spelled before they were read, and a
/// text with one spelled none. So every older text has its value, and the new texts are those with a `W`.
pub fn only_texts_with_weeks_are_new()
    ensures old { (text : List ℕ) (counts : List Count) → has_week text ≡ false
        → (Shape Iso text counts ↔ IsIsoWithoutWeeks text counts) }
    ensures new { (text : List ℕ) → has_week text ≡ true → HasNoShape IsIsoWithoutWeeks text }
{}

/// A text in strict ISO style is in ISO style with the same counts, so it denotes the same interval.
pub fn strict_texts_are_iso_texts()
    ensures counts { (text : List ℕ) (counts : List Count) → Shape IsoStrict text counts
        → Shape Iso text counts }
    ensures denotes { (text : List ℕ) (t : Interval) → Denotes (Shape IsoStrict) text t
        → Denotes (Shape Iso) text t }
{}

/// What is written in ISO style is in the strict style too, and denotes the interval by it.
pub fn written_iso_texts_are_strict()
    ensures { (t : Interval) → IsInRange t → Denotes (Shape IsoStrict) (style_text Iso t) t }
{}

/// What a text denotes is within the types of the parts, in every style.
pub fn denoted_interval_is_in_range()
    ensures { (style : Style) (text : List ℕ) (t : Interval)
        → Denotes (Shape style) text t → IsInRange t }
{}

/// A text in one of the styles is blanks, digits, signs, points, colons, `@`, designators and letters of names. So it has no byte
/// beyond ASCII, and no other letter: with an `x` behind it, a text is in no style.
pub fn texts_are_of_one_alphabet()
    ensures { (style : Style) (text : List ℕ) (counts : List Count) → Shape style text counts
        → IsTrue (list_all is_in_alphabet text) }
{}

/// The written text of an interval is one line: it has no line feed.
pub fn written_text_is_one_line()
    ensures { (style : Style) (t : Interval) → IsInRange t
        → IsTrue (list_all is_no_feed (style_text style t)) }
{}

/// Sums don't hang on the order, and a sum and a difference undo each other. So where `a.checked_add(b)` is `Some(c)`,
/// `b.checked_add(a)` is `Some(c)` and `c.checked_sub(b)` is `Some(a)`.
pub fn sums_are_undone()
    ensures swapped { (a b : Interval) → plus a b ≡ plus b a }
    ensures undone { (a b : Interval) → less (plus a b) b ≡ a }
    ensures restored { (a b : Interval) → plus (less a b) b ≡ a }
{}

/// Two intervals have different cells. As `from_cell` gives an interval for all 16 bytes, cells and intervals are one to
/// one: `Interval::from_cell(t.to_cell())` is `t`, and `Interval::from_cell(bytes).to_cell()` is `bytes`.
pub fn cells_are_one_to_one()
    ensures { (t u : Interval) → IsInRange t → IsInRange u → cell t ≡ cell u → t ≡ u }
{}

/// Styles are equal where they are one, intervals where all three numbers are: `1 mon` isn't `30 days`. Refusals are equal where they
/// are of one part with one message, or of one word at one place.
pub fn equality_is_that_of_the_fields()
    ensures styles { (a b : Style) → IsTrue (⟦<style::Style as PartialEq>⟧.eq a b) ↔ (a ≡ b) }
    ensures intervals { (a b : Interval)
        → IsTrue (⟦<interval::Interval as PartialEq>⟧.eq a b) ↔ (a ≡ b) }
    ensures refusals { (a b : ParseError)
        → IsTrue (⟦<error::ParseError as PartialEq>⟧.eq a b) ↔ SayTheSame a b }
{}
