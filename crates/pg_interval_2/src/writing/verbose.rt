//! Texts in `postgres_verbose` style: `@ 1 year 2 mons -3 days 4 hours 5 mins 6.5 secs ago`.
ghost use Rattle.std.specs.Prelude.{◌≡◌, ◌+◌, ◌<◌, ◌≤◌, ◌++◌, length};
ghost use Rattle.arrayvec.specs.ArrayString.{array_string_len};
ghost use Rattle.pg_interval_2.specs.inside.VerboseSteps.{behind_spaces, has_ago, unit_words, second_digits, second_words, verbose_date, verbose_time, parts_text, verbose_steps};

use crate::writing::parts::{
    has_negative, hours_of, minutes_of, months_of, push_digits, push_minus, seconds_of,
    subsecond_of, turn, years_of,
};
use crate::writing::postgres::push_name;
use arrayvec::ArrayString;
use scan_core::{push_text, push_trimmed};

/// Whether ` ago` ends the text, and the sign of each part is turned.
#[tactic(auto, unfolding(crate::specs::inside::VerboseSteps::has_ago))]
fn has_ago(months: i32, days: i32, micros: i64) -> bool
    ensures { result ≡ has_ago months days micros }
{
    micros <= 0 && has_negative(months, days, micros)
}

/// Appends a part's number and its name, each behind a space, or nothing where it is 0.
#[tactic(auto, unfolding(crate::specs::inside::PostgresSteps::number_words))]
#[inline(always)]
fn push_unit<const CAP: usize>(out: &mut ArrayString<CAP>, negative: bool, value: u32, name: &str)
    requires name { length name.now ≤ 4 }
    requires room { array_string_len out.old + 18 ≤ CAP }
    ensures bytes { out.new.bytes
        ≡ out.old.bytes ++ behind_spaces (unit_words negative value name.now) }
    ensures len { array_string_len out.new ≤ array_string_len out.old + 18 }
    ensures two { value < 100 → array_string_len out.new ≤ array_string_len out.old + 10 }
{
    if value != 0 {
        push_text(out, " ");
        push_minus(out, negative);
        push_digits(out, value);
        push_text(out, " ");
        push_name(out, false, value, name);
    }
}

/// Appends seconds with microseconds as one exact decimal.
#[tactic(auto, using(crate::proofs::Widths::length_decimal_micros), unfolding(crate::specs::inside::VerboseSteps::second_digits))]
#[inline(always)]
fn push_decimal<const CAP: usize>(out: &mut ArrayString<CAP>, seconds: u32, micros: u32)
    requires seconds { seconds < 60 }
    requires micros { micros < 1_000_000 }
    requires room { array_string_len out.old + 17 ≤ CAP }
    ensures bytes { out.new.bytes ≡ out.old.bytes ++ second_digits seconds micros }
    ensures len { array_string_len out.new ≤ array_string_len out.old + 9 }
{
    push_digits(out, seconds);
    push_text(out, ".");
    push_trimmed(out, u64::from(micros), 6);
}

/// Appends the seconds with their microseconds, or nothing where they are 0.
#[tactic(auto, unfolding(crate::specs::inside::VerboseSteps::second_words))]
#[inline(always)]
fn push_seconds<const CAP: usize>(
    out: &mut ArrayString<CAP>,
    negative: bool,
    seconds: u32,
    micros: u32,
)
    requires seconds { seconds < 60 }
    requires micros { micros < 1_000_000 }
    requires room { array_string_len out.old + 19 ≤ CAP }
    ensures bytes { out.new.bytes
        ≡ out.old.bytes ++ behind_spaces (second_words negative seconds micros) }
    ensures len { array_string_len out.new ≤ array_string_len out.old + 16 }
{
    if micros == 0 {
        push_unit(out, negative, seconds, "sec");
    } else {
        push_text(out, " ");
        push_minus(out, negative);
        push_decimal(out, seconds, micros);
        push_text(out, " secs");
    }
}

/// Appends the years, months and days, each with its sign, turned or not.
#[inline(always)]
fn push_date<const CAP: usize>(out: &mut ArrayString<CAP>, ago: bool, months: i32, days: i32)
    requires { array_string_len out.old + 46 ≤ CAP }
    ensures bytes { out.new.bytes ≡ out.old.bytes ++ verbose_date ago months days }
    ensures len { array_string_len out.new ≤ array_string_len out.old + 46 }
{
    let sign = turn(ago, months.is_negative());
    push_unit(out, sign, years_of(months), "year");
    push_unit(out, sign, months_of(months), "mon");
    push_unit(
        out,
        turn(ago, days.is_negative()),
        days.unsigned_abs(),
        "day",
    );
}

/// Appends the hours, minutes and seconds, with their sign, turned or not.
#[tactic(auto, unfolding(crate::specs::inside::VerboseSteps::verbose_time))]
#[inline(always)]
fn push_time<const CAP: usize>(out: &mut ArrayString<CAP>, ago: bool, micros: i64)
    requires { array_string_len out.old + 47 ≤ CAP }
    ensures bytes { out.new.bytes ≡ out.old.bytes ++ verbose_time ago micros }
    ensures len { array_string_len out.new ≤ array_string_len out.old + 44 }
{
    let sign = turn(ago, micros.is_negative());
    push_unit(out, sign, hours_of(micros), "hour");
    push_unit(out, sign, minutes_of(micros), "min");
    push_seconds(out, sign, seconds_of(micros), subsecond_of(micros));
}

/// Appends the text of an interval that isn't zero.
#[tactic(auto, unfolding(crate::specs::inside::VerboseSteps::parts_text))]
#[inline(always)]
fn push_parts<const CAP: usize>(
    out: &mut ArrayString<CAP>,
    ago: bool,
    months: i32,
    days: i32,
    micros: i64,
)
    requires { array_string_len out.old + 96 ≤ CAP }
    ensures bytes { out.new.bytes ≡ out.old.bytes ++ parts_text ago months days micros }
    ensures len { array_string_len out.new ≤ array_string_len out.old + 96 }
{
    push_text(out, "@");
    push_date(out, ago, months, days);
    push_time(out, ago, micros);
    if ago {
        push_text(out, " ago");
    }
}

/// Appends the text of an interval of these parts: `@ 1 year 1 mon 1 day 1 hour` of 13, 1 and 3_600_000_000.
#[tactic(auto, unfolding(crate::specs::inside::VerboseSteps::verbose_steps))]
pub fn push_verbose<const CAP: usize>(
    out: &mut ArrayString<CAP>,
    months: i32,
    days: i32,
    micros: i64,
)
    requires { array_string_len out.old + 96 ≤ CAP }
    ensures bytes { out.new.bytes ≡ out.old.bytes ++ verbose_steps months days micros }
    ensures len { array_string_len out.new ≤ array_string_len out.old + 96 }
{
    if months == 0 && days == 0 && micros == 0 {
        push_text(out, "@ 0");
    } else {
        push_parts(out, has_ago(months, days, micros), months, days, micros);
    }
}
