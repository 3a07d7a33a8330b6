//! What the words of a command line ask for.
ghost use Rattle.std.specs.Prelude.{◌≡◌, ◌≢◌, ◌⊎◌, ◌↔◌, ◌+◌, ◌^◌, ◌<◌, ◌≤◌, ◌++◌, List, ℕ, Option, codes, decimal, drop, length, IfSome, IfNone, IsSomeAnd, Some, IsTrue};
ghost use Rattle.std.specs.Option.{option_copied};
ghost use Rattle.whole_input.specs.Parts.{HasNo};
ghost use Rattle.forms.specs.declared.form.Form.{Form as AnyForm};
ghost use Rattle.text_lines.specs.declared.place.Place.{Place as AnyPlace};
ghost use Rattle.text_lines.specs.Asked.{AskLines, AskNothing, AskText, BeginsPlace};
ghost use Rattle.text_lines.specs.inside.Words.{AreForms, BeginsWord, IsForm, IsPlaceText};

use crate::place::Place;
use forms::{Form, number_in_decimal};
use whole_input::split_text;

/// What words ask for.
#[derive(Clone, Copy, Debug, PartialEq, Eq)]
pub enum Asked {
    /// The lines of the input, with a text at a place of each.
    Lines(Form, Form, Place),
    /// One text, which stands in the words from this byte on.
    Text(Form, Form, usize),
    /// Neither.
    Nothing,
}

/// What words ask for.
pub fn what_is_asked(words: &str) -> Asked
    ensures lines { (from to : AnyForm) (place : AnyPlace)
        → (result ≡ Asked.Lines from to place) ↔ AskLines words.now from to place }
    ensures text { (from to : AnyForm) (start : ℕ) → result ≡ Asked.Text from to start
        → (start ≤ length words.now) × AskText words.now from to (drop start words.now) }
    ensures text_only { (from to : AnyForm) (text : List ℕ) → AskText words.now from to text
        → (start : ℕ) × (result ≡ Asked.Text from to start) × (text ≡ drop start words.now) }
    ensures nothing { (result ≡ Asked.Nothing) ↔ AskNothing words.now }
{
    match two_forms(words) {
        Some((from, to, Some(text))) => behind_forms(from, to, words, text),
        Some((from, to, None)) => Asked::Lines(from, to, Place::Whole),
        None => Asked::Nothing,
    }
}

/// The forms that the first two words name, and what follows the space behind them.
fn two_forms(words: &str) -> Option<(Form, Form, Option<&str>)>
    ensures found { IfSome result (λ r. AreForms words.now r.0 r.1 (option_copied r.2)) }
    ensures only { (from to : AnyForm) (rest : Option (List ℕ)) → AreForms words.now from to rest
        → IsSomeAnd result (λ r. (r.0 ≡ from) × (r.1 ≡ to) × (option_copied r.2 ≡ rest)) }
{
    let (from, rest) = first_form(words)?;
    let (to, text) = first_form(rest?)?;
    Some((from, to, text))
}

/// The form that the first word names, and what follows the space behind it.
fn first_form(words: &str) -> Option<(Form, Option<&str>)>
    ensures found { IfSome result (λ r. IsForm words.now r.0 (option_copied r.1)) }
    ensures only { (form : AnyForm) (rest : Option (List ℕ)) → IsForm words.now form rest
        → IsSomeAnd result (λ r. (r.0 ≡ form) × (option_copied r.1 ≡ rest)) }
{
    match split_text(b' ', words) {
        Some((name, rest)) => Some((Form::by_name(name)?, Some(rest))),
        None => Some((Form::by_name(words)?, None)),
    }
}

/// What is asked for behind the names: a place, or a text, which stands at the end of the words.
fn behind_forms(from: Form, to: Form, words: &str, text: &str) -> Asked
    requires { AreForms words.now from to (Some text.now) }
    ensures lines { (f t : AnyForm) (place : AnyPlace) → (result ≡ Asked.Lines f t place)
        ↔ ((f ≡ from) × (t ≡ to) × IsPlaceText text.now place) }
    ensures text { (f t : AnyForm) (start : ℕ) → result ≡ Asked.Text f t start
        → (f ≡ from) × (t ≡ to) × (start ≤ length words.now)
        × (text.now ≡ drop start words.now) × ¬ (BeginsPlace text.now) }
    ensures text_only { ¬ (BeginsPlace text.now) → (start : ℕ)
        × (result ≡ Asked.Text from to start) × (text.now ≡ drop start words.now) }
    ensures nothing { (result ≡ Asked.Nothing)
        ↔ (BeginsPlace text.now × ((place : AnyPlace) → ¬ (IsPlaceText text.now place))) }
{
    if !begins_place(text) {
        return Asked::Text(from, to, words.len() - text.len());
    }
    match place_of(text) {
        Some(place) => Asked::Lines(from, to, place),
        None => Asked::Nothing,
    }
}

/// Whether a text begins with a word that stands for a place.
fn begins_place(text: &str) -> bool
    ensures { IsTrue result ↔ BeginsPlace text.now }
{
    begins_word(text, "field") || begins_word(text, "word")
}

/// Whether a text is a word without spaces, or begins with it and a space.
fn begins_word(text: &str, word: &str) -> bool
    requires { HasNo 32 word.now }
    ensures { IsTrue result ↔ BeginsWord text.now word.now }
{
    match split_text(b' ', text) {
        Some((first, _)) => is_same(first, word),
        None => is_same(text, word),
    }
}

/// Whether two texts are the same.
fn is_same(a: &str, b: &str) -> bool
    ensures { IsTrue result ↔ (a.now ≡ b.now) }
{
    a == b
}

/// The place that a text names, `field` or `word` and a number from 1 on, or None exactly where it names none.
fn place_of(text: &str) -> Option<Place>
    ensures found { IfSome result (λ place. IsPlaceText text.now place) }
    ensures none { IfNone result ((place : AnyPlace) → ¬ (IsPlaceText text.now place)) }
{
    match text.strip_prefix("field ") {
        Some(digits) => Some(Place::Field(place_number(digits)?)),
        None => Some(Place::Word(place_number(text.strip_prefix("word ")?)?)),
    }
}

/// The number of a place, counted from 0 on, from its decimal, which counts from 1 on, or None exactly where the text is no such number.
fn place_number(digits: &str) -> Option<u64>
    ensures found { IfSome result (λ n. (n + 1 < 2 ^ 64) × (digits.now ≡ decimal (n + 1))) }
    ensures none { IfNone result ((n : ℕ) → n + 1 < 2 ^ 64 → digits.now ≢ decimal (n + 1)) }
{
    number_in_decimal(digits)?.checked_sub(1)
}
