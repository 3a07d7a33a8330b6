//! What follows from the definitions that the contracts of this crate cite. Each function is a law, and does nothing.

ghost use Rattle.std.specs.Prelude.{◌≡◌, ◌≢◌, ℕ, ◌*◌, ◌<◌, ◌^◌, ◌↔◌, List, IsTrue};
ghost use Rattle.std.specs.Duration.{as_nanos};
ghost use Rattle.std.specs.Ordering.{nat_cmp};
ghost use Rattle.std.specs.Str.{IsAscii};
ghost use Rattle.std.specs.declared.time.Duration.{Duration};
ghost use Rattle.fancy_duration.specs.declared.error.FancyError.{FancyError as AnyError};
ghost use Rattle.fancy_duration.specs.declared.fancy.FancyDuration.{FancyDuration as Wrapped};
ghost use Rattle.fancy_duration.specs.declared.part.DurationPart.{DurationPart as AnyPart};
ghost use Rattle.fancy_duration.specs.Parts.{rank_of};
ghost use Rattle.fancy_duration.specs.Items.{Item, HasItems};
ghost use Rattle.fancy_duration.specs.Times.{nanos_of, times_of};
ghost use Rattle.fancy_duration.specs.Sums.{SumsTo};
ghost use Rattle.fancy_duration.specs.Meanings.{Denotes};
ghost use Rattle.fancy_duration.specs.Breakdown.{kept_length, front_length};
ghost use Rattle.fancy_duration.specs.Written.{length_text};
ghost use Rattle.fancy_duration.specs.Strict.{IsStrict};
ghost use Rattle.fancy_duration.specs.Spelled.{SpellsLength};
ghost use Rattle.fancy_duration.specs.Collisions.{MonthsStandAlone, Collide};
ghost use Rattle.fancy_duration.specs.Durations.{duration_times};

use crate::{AsTimes, DurationPart, FancyDuration, FancyError};

/// Parts are equal where they are one, and ordered from the greatest to the least: years come first.
pub fn parts_are_ordered_from_the_greatest()
    ensures equal { (a b : AnyPart) → IsTrue (⟦<DurationPart as PartialEq>⟧.eq a b) ↔ (a ≡ b) }
    ensures order { (a b : AnyPart) → ⟦<DurationPart as Ord>⟧.cmp a b
        ≡ nat_cmp (rank_of a) (rank_of b) }
{}

/// Each text has a list of items, and no other.
pub fn texts_have_one_list_of_items()
    ensures some { (text : List ℕ) → (items : List Item) × HasItems text items }
    ensures one { (text : List ℕ) (a b : List Item) → HasItems text a → HasItems text b → a ≡ b }
{}

/// Each text has a sum, and no other.
pub fn texts_have_one_sum()
    ensures some { (text : List ℕ) → (nanos : ℕ) × SumsTo text nanos }
    ensures one { (text : List ℕ) (a b : ℕ) → SumsTo text a → SumsTo text b → a ≡ b }
{}

/// A text denotes at most one pair of seconds and nanoseconds.
pub fn texts_denote_one_length()
    ensures { (text : List ℕ) (s t : ℕ × ℕ) → Denotes text s → Denotes text t → s ≡ t }
{}

/// The written text of a length denotes this length, exactly unless its months stand alone: `1m` for 30 days is read
/// as a minute.
pub fn written_texts_are_read_back()
    ensures { (times : ℕ × ℕ) → times.0 < 2 ^ 64 → times.1 < 1_000_000_000
        → Denotes (length_text (nanos_of times)) times ↔ (¬ (MonthsStandAlone (nanos_of times))) }
{}

/// The same for std's `Duration`.
pub fn texts_of_durations_are_read_back()
    ensures { (d : Duration) → as_nanos d < 2 ^ 64 * 1_000_000_000
        → Denotes (length_text (nanos_of (duration_times d))) (duration_times d)
        ↔ (¬ (MonthsStandAlone (as_nanos d))) }
{}

/// The written text of a length is a strict text.
pub fn written_texts_are_strict()
    ensures { (nanos : ℕ) → nanos < 2 ^ 64 * 1_000_000_000 → IsStrict (length_text nanos) }
{}

/// Two different lengths have one written text exactly where one has k months in place of the other's k minutes, with
/// no weeks, days or hours, and all else is equal.
pub fn shared_texts_differ_by_months_and_minutes()
    ensures { (s t : ℕ × ℕ) → s.0 < 2 ^ 64 → t.0 < 2 ^ 64 → s.1 < 1_000_000_000
        → t.1 < 1_000_000_000 → s ≢ t
        → ((length_text (nanos_of s) ≡ length_text (nanos_of t))
        ↔ Collide (nanos_of s) (nanos_of t)) }
{}

/// To filter twice by one list is to filter once.
pub fn filtering_twice_is_filtering_once()
    ensures { (kept : List AnyPart) (times : ℕ × ℕ)
        → let once = times_of (kept_length kept (nanos_of times)) in
        times_of (kept_length kept (nanos_of once)) ≡ once }
{}

/// To truncate twice to one limit is to truncate once.
pub fn truncating_twice_is_truncating_once()
    ensures { (limit : ℕ) (times : ℕ × ℕ)
        → let once = times_of (front_length limit (nanos_of times)) in
        times_of (front_length limit (nanos_of once)) ≡ once }
{}

/// What a strict text spells is the sum of its items: of a text of nothing but counts the original's rule, by which all else is
/// passed over, and this grammar say the same.
pub fn strict_texts_spell_their_sums()
    ensures { (text : List ℕ) (nanos : ℕ)
        → SpellsLength text nanos ↔ IsStrict text × SumsTo text nanos }
{}

/// Refusals are equal where they are one.
pub fn equal_refusals_say_the_same()
    ensures { (a b : AnyError) → IsTrue (⟦<FancyError as PartialEq>⟧.eq a b) ↔ (a ≡ b) }
{}

/// Short durations are equal where the wrapped ones are.
pub fn equality_is_that_of_the_wrapped<D: AsTimes + Copy + PartialEq>()
    ensures { (a b : Wrapped D) → ⟦<FancyDuration<D> as PartialEq>⟧.eq a b ≡ D.eq a.0 b.0 }
{}

/// A text that spells a length is ASCII: a reader of strict texts needs no test whether they are UTF-8.
pub fn texts_are_ascii()
    ensures { (text : List ℕ) (nanos : ℕ) → SpellsLength text nanos → IsAscii text }
{}
