//! Laws of texts, lines and words.
ghost use Rattle.std.specs.Prelude.{◌≡◌, ◌++◌, List, ℕ, Bool, true, ◌↔◌, IsTrue, codes};
ghost use Rattle.forms.specs.declared.form.Form.{Form as AnyForm};
ghost use Rattle.forms.specs.Replies.{IsReply};
ghost use Rattle.text_lines.specs.declared.place.Place.{Place as AnyPlace};
ghost use Rattle.text_lines.specs.Asked.{AskLines, AskText, BeginsCapital, names};
ghost use Rattle.forms.specs.TextReplies.{IsTextReply};
ghost use Rattle.text_lines.specs.Outputs.{IsOutput};
ghost use Rattle.text_lines.specs.Ends.{AreJudged};

use crate::asked::what_is_asked;
use crate::place::Place;

/// The reply to a text is that of a line with the two forms' names and the text.
pub fn text_replies_are_line_replies()
    ensures { (from to : AnyForm) (text out : List ℕ) (refused : Bool)
        → IsTextReply from to text out refused
        → IsReply (names from to ++ (codes " " ++ text)) out }
{
    forms::laws::lines_of_two_names_ask_for_their_text();
}

/// A text has one reply at most, which is a refusal or isn't.
pub fn texts_have_one_reply()
    ensures { (from to : AnyForm) (text a b : List ℕ) (r s : Bool)
        → IsTextReply from to text a r → IsTextReply from to text b s → (a ≡ b) × (r ≡ s) }
{
    forms::laws::texts_have_one_answer();
}

/// A line has one output at most, with a refusal or without one.
pub fn lines_have_one_output()
    ensures { (from to : AnyForm) (place : AnyPlace) (first : Bool) (line a b : List ℕ) (r s : Bool)
        → IsOutput from to place first line a r → IsOutput from to place first line b s
        → (a ≡ b) × (r ≡ s) }
{
    forms::laws::texts_have_one_answer();
}

/// Lines have one list of outputs at most, with a refusal among them or without one.
pub fn inputs_have_one_output()
    ensures { (from to : AnyForm) (place : AnyPlace) (lines : List (List ℕ)) (a b : List ℕ)
        (r s : Bool)
        → AreJudged (IsOutput from to place) true lines a r
        → AreJudged (IsOutput from to place) true lines b s
        → (a ≡ b) × (r ≡ s) }
{
    forms::laws::texts_have_one_answer();
}

/// Words ask for one thing at most: for lines, with one place, or for one text.
pub fn words_ask_for_one_thing(words: &str)
    ensures lines { (f t g u : AnyForm) (p q : AnyPlace)
        → AskLines words.now f t p → AskLines words.now g u q → (f ≡ g) × (t ≡ u) × (p ≡ q) }
    ensures text { (f t g u : AnyForm) (a b : List ℕ)
        → AskText words.now f t a → AskText words.now g u b → (f ≡ g) × (t ≡ u) × (a ≡ b) }
    ensures apart { (f t g u : AnyForm) (place : AnyPlace) (text : List ℕ)
        → AskLines words.now f t place → ¬ (AskText words.now g u text) }
{
    let _ = what_is_asked(words);
}

/// Words that ask for something begin with a letter that is no small one, as forms' names do. So no other command's words ask for lines
/// or a text.
pub fn asked_words_begin_with_a_capital()
    ensures lines { (words : List ℕ) (from to : AnyForm) (place : AnyPlace)
        → AskLines words from to place → BeginsCapital words }
    ensures text { (words : List ℕ) (from to : AnyForm) (text : List ℕ)
        → AskText words from to text → BeginsCapital words }
{}

/// Places are equal where they are of one kind and number: the first field isn't the first word.
pub fn equality_is_that_of_the_fields()
    ensures { (a b : AnyPlace) → IsTrue (⟦<Place as PartialEq>⟧.eq a b) ↔ (a ≡ b) }
{}
