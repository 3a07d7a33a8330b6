//! Written texts in `postgres` style.
ghost use Rattle.std.specs.Prelude.{◌≡◌, ◌+◌, ◌≤◌, ◌++◌, ◌||◌, length};
ghost use Rattle.std.specs.List.{join_with_byte};
ghost use Rattle.arrayvec.specs.ArrayString.{array_string_len};
ghost use Rattle.pg_interval_2.specs.inside.PostgresSteps.{counted_name, named_words, clock_words, postgres_words, postgres_steps};
ghost use Rattle.pg_interval_2.specs.inside.Writing.{has_words, space_behind, words_behind};

use crate::writing::clock::push_clock;
use crate::writing::parts::{months_of, push_digits, push_minus, years_of};
use arrayvec::ArrayString;
use scan_core::push_text;

/// Appends a space where words stand before.
#[inline(always)]
fn push_space<const CAP: usize>(out: &mut ArrayString<CAP>, words: bool)
    requires { array_string_len out.old + 1 ≤ CAP }
    ensures bytes { out.new.bytes ≡ out.old.bytes ++ space_behind words }
    ensures len { array_string_len out.new ≤ array_string_len out.old + 1 }
{
    if words {
        push_text(out, " ");
    }
}

/// Appends the name that stands behind a number: singular at 1 alone.
#[tactic(auto, unfolding(crate::specs::inside::PostgresSteps::counted_name))]
#[inline(always)]
pub fn push_name<const CAP: usize>(
    out: &mut ArrayString<CAP>,
    negative: bool,
    value: u32,
    name: &str,
)
    requires name { length name.now ≤ 4 }
    requires room { array_string_len out.old + 5 ≤ CAP }
    ensures bytes { out.new.bytes ≡ out.old.bytes ++ counted_name negative value name.now }
    ensures len { array_string_len out.new ≤ array_string_len out.old + 5 }
{
    push_text(out, name);
    if negative || value != 1 {
        push_text(out, "s");
    }
}

/// Appends a number with its minus and its name, or nothing where it is 0, and answers whether words stand there now.
#[tactic(auto, unfolding(crate::specs::inside::PostgresSteps::number_words))]
#[inline(always)]
fn push_part<const CAP: usize>(
    out: &mut ArrayString<CAP>,
    words: bool,
    negative: bool,
    value: u32,
    name: &str,
) -> bool
    requires name { length name.now ≤ 4 }
    requires room { array_string_len out.old + 18 ≤ CAP }
    ensures bytes { out.new.bytes
        ≡ out.old.bytes ++ words_behind words (named_words negative value name.now) }
    ensures words { result ≡ (words || has_words (named_words negative value name.now)) }
    ensures len { array_string_len out.new ≤ array_string_len out.old + 18 }
{
    if value == 0 {
        return words;
    }
    push_space(out, words);
    push_minus(out, negative);
    push_digits(out, value);
    push_text(out, " ");
    push_name(out, negative, value, name);
    true
}

/// Appends the time with its minus, or nothing where it is 0.
#[tactic(auto, unfolding(crate::specs::inside::PostgresSteps::clock_words))]
#[inline(always)]
fn push_time<const CAP: usize>(out: &mut ArrayString<CAP>, words: bool, micros: i64)
    requires { array_string_len out.old + 25 ≤ CAP }
    ensures bytes { out.new.bytes ≡ out.old.bytes ++ words_behind words (clock_words micros) }
    ensures len { array_string_len out.new ≤ array_string_len out.old + 25 }
{
    if micros != 0 {
        push_space(out, words);
        push_minus(out, micros.is_negative());
        push_clock(out, 2, micros);
    }
}

/// Appends the words of an interval.
#[inline(always)]
fn push_words<const CAP: usize>(out: &mut ArrayString<CAP>, months: i32, days: i32, micros: i64)
    requires { array_string_len out.old + 96 ≤ CAP }
    ensures bytes { out.new.bytes
        ≡ out.old.bytes ++ join_with_byte 32 (postgres_words months days micros) }
    ensures len { array_string_len out.new ≤ array_string_len out.old + 96 }
{
    let negative = months.is_negative();
    let words = push_part(out, false, negative, years_of(months), "year");
    let words = push_part(out, words, negative, months_of(months), "mon");
    let words = push_part(out, words, days.is_negative(), days.unsigned_abs(), "day");
    push_time(out, words, micros);
}

/// Appends the text of an interval of these parts: `1 year 1 mon 1 day 01:00:00` of 13, 1 and 3_600_000_000.
#[tactic(auto, unfolding(crate::specs::inside::PostgresSteps::postgres_steps))]
pub fn push_postgres<const CAP: usize>(
    out: &mut ArrayString<CAP>,
    months: i32,
    days: i32,
    micros: i64,
)
    requires { array_string_len out.old + 96 ≤ CAP }
    ensures bytes { out.new.bytes ≡ out.old.bytes ++ postgres_steps months days micros }
    ensures len { array_string_len out.new ≤ array_string_len out.old + 96 }
{
    if months == 0 && days == 0 && micros == 0 {
        push_text(out, "00:00:00");
    } else {
        push_words(out, months, days, micros);
    }
}
