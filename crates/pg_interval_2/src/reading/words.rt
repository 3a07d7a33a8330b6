//! Where words end, and the names that they are.
ghost use Rattle.std.specs.Prelude.{◌≡◌, ◌+◌, ◌<◌, ◌≤◌, true, false, IfSome, IfNone, length};
ghost use Rattle.scan_core.specs.Runs.{IsWord, letters_of};
ghost use Rattle.scan_core.specs.Scanning.{ahead, unseen};
ghost use Rattle.pg_interval_2.specs.inside.ItemReading.{after_blanks, after_letters, ends_word, front_letters, has_name};

use scan_core::{Scan, Steps, Word, is_blank};
use std::sync::ledger::Ledger;

/// Whether a word ends here: with the text, or before a blank.
#[inline(always)]
pub(crate) fn ends_word(scan: &Scan<'_>) -> bool
    ensures { result ≡ ends_word (ahead scan.now) }
{
    match scan.peek() {
        None => true,
        Some(first) => is_blank(first),
    }
}

/// The letters in front, behind blanks or none, which are passed; None exactly where there are none or no word ends behind them.
#[inline(always)]
pub(crate) fn name<L: Ledger>(scan: &mut Scan<'_>, steps: &mut Steps<L>) -> Option<Word>
    ensures some { IfSome result (λ _. has_name (after_blanks (ahead scan.old)) ≡ true) }
    ensures none { IfNone result (has_name (after_blanks (ahead scan.old)) ≡ false) }
    ensures word { IfSome result (IsWord scan.new.text) }
    ensures letters { IfSome result (λ word. letters_of scan.new.text word
        ≡ front_letters (after_blanks (ahead scan.old))) }
    ensures rest { IfSome result (λ _. ahead scan.new
        ≡ after_letters (after_blanks (ahead scan.old))) }
    ensures end { IfSome result (λ word. word.end + length (ahead scan.new)
        ≡ length scan.new.text) }
    ensures shorter { IfSome result (λ _. length (ahead scan.new) < length (ahead scan.old)) }
    ensures same { scan.new.text ≡ scan.old.text }
    ensures onward { length (ahead scan.new) ≤ length (ahead scan.old) }
    ensures ticks { steps.new + unseen (ahead scan.new) ≡ steps.old + unseen (ahead scan.old) }
{
    scan.blanks(steps);
    let letters = scan.letters(steps);
    if letters.start == letters.end || !ends_word(scan) {
        return None;
    }
    Some(letters)
}
