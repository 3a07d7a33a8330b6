//! The runs of digits, letters and blanks that a scan passes, as many as stand in front.
ghost use Rattle.std.specs.Prelude.{◌≡◌, ◌+◌, ◌-◌, ◌*◌, ◌%◌, ◌^◌, ◌<◌, ◌==◌, ℕ, true};
ghost use Rattle.std.specs.Char.{is_ascii_digit};
ghost use Rattle.scan_core.specs.Runs.{Knows};

use crate::scan::{Class, Scan};
use crate::steps::Steps;
use std::sync::ledger::Ledger;

/// Digits that a scan passed: where they stand in its text, from `start` up to `end`, and their number. From 10^18 on
/// the value is no longer the number, but it is at least 10^18 then.
#[derive(Clone, Copy, Debug)]
pub struct Run {
    pub start: usize,
    pub end: usize,
    pub value: u64,
}

/// Letters that a scan passed: where they stand in its text, from `start` up to `end`, and, of at most seven, the letters
/// packed into a number of eight bits each, the last the lowest. Of more letters the value is at least 2^56.
#[derive(Clone, Copy, Debug)]
pub struct Word {
    pub start: usize,
    pub end: usize,
    pub value: u64,
}

impl Run {
    /// Whether no digit stands there.
    #[inline(always)]
    pub fn is_empty(self) -> bool
        ensures { result ≡ (self.start == self.end) }
    {
        self.start == self.end
    }
}

/// The number with one more digit.
#[inline(always)]
pub(crate) fn with_digit(value: u64, digit: u8) -> u64
    requires { is_ascii_digit digit ≡ true }
    ensures { (n : ℕ) → Knows (10 ^ 18) value n → Knows (10 ^ 18) result (n * 10 + (digit - 48)) }
{
    if value < 1_000_000_000_000_000_000 {
        value * 10 + u64::from(digit - b'0')
    } else {
        value
    }
}

/// The packed letters with one more, modulo 2^64: of eight letters or more the last eight, which are 2^56 at least.
#[inline(always)]
fn with_letter(value: u64, letter: u8) -> u64
    ensures { (n : ℕ) → value ≡ n % 2 ^ 64 → result ≡ (n * 256 + letter) % 2 ^ 64 }
{
    value.wrapping_mul(256).wrapping_add(u64::from(letter))
}

impl<'a> Scan<'a> {
    ghost use Rattle.std.specs.Prelude.{◌≡◌, ◌⊎◌, ◌+◌, ◌<◌, ◌≤◌, ◌%◌, ◌^◌, List, ℕ, [], ◌∷◌, length, take, true, Some, IfSome, IfNone};
    ghost use Rattle.std.specs.Char.{is_ascii_digit, is_ascii_alphabetic};
    ghost use Rattle.scan_core.specs.Blanks.{is_blank};
    ghost use Rattle.scan_core.specs.Fronts.{leading, behind, front_digits, after_digits};
    ghost use Rattle.std.specs.List.{list_all};
    ghost use Rattle.scan_core.specs.Digits.{number_of};
    ghost use Rattle.scan_core.specs.Runs.{IsRun, IsWord, Knows, digits_of, letters_of, packed};
    ghost use Rattle.scan_core.specs.Scanning.{Passes, ahead, front_byte, unseen};

    /// Some of the digits in front, at most this many, which are passed. Behind them the text goes on.
    #[inline(always)]
    fn digits_inside<L: Ledger>(&mut self, most: usize, steps: &mut Steps<L>) -> u64
        requires room { most < length (ahead self.old) }
        ensures passed { (bytes : List ℕ) × (length bytes ≤ most)
            × (list_all is_ascii_digit bytes ≡ true) × Passes bytes self.old self.new
            × Knows (10 ^ 18) result (number_of bytes) }
        ensures ticks { steps.new + unseen (ahead self.new) ≡ steps.old + unseen (ahead self.old) }
    {
        let mut value = 0;
        let mut left = most;
        while let Some(digit) = self.peek_few(Class::Digit, left) {
            value = with_digit(value, digit);
            left -= 1;
            self.next_inside(steps);
        }
        value
    }

    /// The number of some of the digits in front, at most this many, which are passed with one test of the text's end; of
    /// none of them where the text ends there.
    #[inline(always)]
    fn first_digits<L: Ledger>(&mut self, most: usize, steps: &mut Steps<L>) -> u64
        ensures passed { (bytes : List ℕ) × (length bytes ≤ most)
            × (list_all is_ascii_digit bytes ≡ true) × Passes bytes self.old self.new
            × Knows (10 ^ 18) result (number_of bytes) }
        ensures ticks { steps.new + unseen (ahead self.new) ≡ steps.old + unseen (ahead self.old) }
    {
        if most < self.left() {
            self.digits_inside(most, steps)
        } else {
            0
        }
    }

    /// What `first_digits` passes, and where the text has just so many bytes left, digits of all but the last of them.
    #[inline(always)]
    fn digits_to_end<L: Ledger>(&mut self, most: usize, steps: &mut Steps<L>) -> u64
        ensures passed { (bytes : List ℕ) × (length bytes ≤ most)
            × (list_all is_ascii_digit bytes ≡ true) × Passes bytes self.old self.new
            × Knows (10 ^ 18) result (number_of bytes) }
        ensures ticks { steps.new + unseen (ahead self.new) ≡ steps.old + unseen (ahead self.old) }
    {
        // a clock's fraction of six digits often ends its text
        if 0 < most && most == self.left() {
            self.digits_inside(most - 1, steps)
        } else {
            self.first_digits(most, steps)
        }
    }

    /// The digits in front, perhaps none, which are passed; of a whole number four at most are likely.
    #[inline(always)]
    pub fn digits<L: Ledger>(&mut self, steps: &mut Steps<L>) -> Run
        ensures run { IsRun self.new.text result }
        ensures front { digits_of self.new.text result ≡ front_digits (ahead self.old) }
        ensures rest { ahead self.new ≡ after_digits (ahead self.old) }
        ensures passed { Passes (front_digits (ahead self.old)) self.old self.new }
        ensures start { result.start ≡ self.old.at }
        ensures end { result.end ≡ self.new.at }
        ensures ticks { steps.new + unseen (ahead self.new) ≡ steps.old + unseen (ahead self.old) }
    {
        self.likely_digits(4, steps)
    }

    /// The digits in front, as `digits` passes them; of a fraction six at most are likely.
    #[inline(always)]
    pub fn fraction_digits<L: Ledger>(&mut self, steps: &mut Steps<L>) -> Run
        ensures run { IsRun self.new.text result }
        ensures front { digits_of self.new.text result ≡ front_digits (ahead self.old) }
        ensures rest { ahead self.new ≡ after_digits (ahead self.old) }
        ensures passed { Passes (front_digits (ahead self.old)) self.old self.new }
        ensures start { result.start ≡ self.old.at }
        ensures end { result.end ≡ self.new.at }
        ensures ticks { steps.new + unseen (ahead self.new) ≡ steps.old + unseen (ahead self.old) }
    {
        self.likely_digits(6, steps)
    }

    /// The digits in front, perhaps none, which are passed; the text's end is looked for once for the likely number of them.
    #[inline(always)]
    fn likely_digits<L: Ledger>(&mut self, likely: usize, steps: &mut Steps<L>) -> Run
        ensures run { IsRun self.new.text result }
        ensures front { digits_of self.new.text result ≡ front_digits (ahead self.old) }
        ensures rest { ahead self.new ≡ after_digits (ahead self.old) }
        ensures passed { Passes (front_digits (ahead self.old)) self.old self.new }
        ensures start { result.start ≡ self.old.at }
        ensures end { result.end ≡ self.new.at }
        ensures ticks { steps.new + unseen (ahead self.new) ≡ steps.old + unseen (ahead self.old) }
    {
        let start = self.at();
        let mut value = self.first_digits(likely, steps);
        while let Some(digit) = self.peek_in(Class::Digit) {
            value = with_digit(value, digit);
            self.next(steps);
        }
        Run {
            start,
            end: self.at(),
            value,
        }
    }

    /// At most this many of the digits in front, perhaps none, which are passed.
    #[inline(always)]
    pub fn digits_up_to<L: Ledger>(&mut self, most: usize, steps: &mut Steps<L>) -> Run
        ensures run { IsRun self.new.text result }
        ensures front { digits_of self.new.text result ≡ take most (front_digits (ahead self.old)) }
        ensures passed { Passes (take most (front_digits (ahead self.old))) self.old self.new }
        ensures start { result.start ≡ self.old.at }
        ensures end { result.end ≡ self.new.at }
        ensures ticks { steps.new + unseen (ahead self.new) ≡ steps.old + unseen (ahead self.old) }
    {
        let start = self.at();
        let mut value = self.digits_to_end(most, steps);
        let mut left = most - (self.at() - start);
        while let Some(digit) = self.peek_few(Class::Digit, left) {
            value = with_digit(value, digit);
            left -= 1;
            self.next(steps);
        }
        let end = self.at();
        Run { start, end, value }
    }

    /// Passes the blanks in front.
    #[inline(always)]
    pub fn blanks<L: Ledger>(&mut self, steps: &mut Steps<L>)
        ensures rest { ahead self.new ≡ behind is_blank (ahead self.old) }
        ensures passed { Passes (leading is_blank (ahead self.old)) self.old self.new }
        ensures ticks { steps.new + unseen (ahead self.new) ≡ steps.old + unseen (ahead self.old) }
    {
        // nearly all blanks are one space
        self.next_if(b' ', steps);
        self.more_blanks(steps);
    }

    /// The same, blank by blank.
    #[inline(always)]
    fn more_blanks<L: Ledger>(&mut self, steps: &mut Steps<L>)
        ensures rest { ahead self.new ≡ behind is_blank (ahead self.old) }
        ensures passed { Passes (leading is_blank (ahead self.old)) self.old self.new }
        ensures ticks { steps.new + unseen (ahead self.new) ≡ steps.old + unseen (ahead self.old) }
    {
        while let Some(_) = self.peek_in(Class::Blank) {
            self.next(steps);
        }
    }

    /// Some of the letters in front, at most this many, which are passed. Behind them the text goes on.
    #[inline(always)]
    fn letters_inside<L: Ledger>(&mut self, most: usize, steps: &mut Steps<L>) -> u64
        requires room { most < length (ahead self.old) }
        ensures passed { (bytes : List ℕ) × (length bytes ≤ most)
            × (list_all is_ascii_alphabetic bytes ≡ true) × Passes bytes self.old self.new
            × (result ≡ packed bytes % 2 ^ 64) }
        ensures ticks { steps.new + unseen (ahead self.new) ≡ steps.old + unseen (ahead self.old) }
    {
        let mut value = 0;
        let mut left = most;
        while let Some(letter) = self.peek_few(Class::Letter, left) {
            value = with_letter(value, letter);
            left -= 1;
            self.next_inside(steps);
        }
        value
    }

    /// Some of the letters in front, at most this many, which are passed with one test of the text's end, and packed; none
    /// of them where the text ends there.
    #[inline(always)]
    fn first_letters<L: Ledger>(&mut self, most: usize, steps: &mut Steps<L>) -> u64
        ensures passed { (bytes : List ℕ) × (length bytes ≤ most)
            × (list_all is_ascii_alphabetic bytes ≡ true) × Passes bytes self.old self.new
            × (result ≡ packed bytes % 2 ^ 64) }
        ensures ticks { steps.new + unseen (ahead self.new) ≡ steps.old + unseen (ahead self.old) }
    {
        if most < self.left() {
            self.letters_inside(most, steps)
        } else {
            0
        }
    }

    /// The letters in front, perhaps none, which are passed.
    #[inline(always)]
    pub fn letters<L: Ledger>(&mut self, steps: &mut Steps<L>) -> Word
        ensures word { IsWord self.new.text result }
        ensures front { letters_of self.new.text result
            ≡ leading is_ascii_alphabetic (ahead self.old) }
        ensures rest { ahead self.new ≡ behind is_ascii_alphabetic (ahead self.old) }
        ensures passed { Passes (leading is_ascii_alphabetic (ahead self.old)) self.old self.new }
        ensures start { result.start ≡ self.old.at }
        ensures end { result.end ≡ self.new.at }
        ensures ticks { steps.new + unseen (ahead self.new) ≡ steps.old + unseen (ahead self.old) }
    {
        let start = self.at();
        let mut value = self.first_letters(7, steps);
        while let Some(letter) = self.peek_in(Class::Letter) {
            value = with_letter(value, letter);
            self.next(steps);
        }
        Word {
            start,
            end: self.at(),
            value,
        }
    }
}
