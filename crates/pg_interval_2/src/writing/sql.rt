//! Texts in `sql_standard` style: `+1-2 -3 +4:05:06`.
ghost use Rattle.std.specs.Prelude.{◌≡◌, ◌+◌, ◌≤◌, ◌++◌, codes, unsigned_abs};
ghost use Rattle.std.specs.Int.{is_negative};
ghost use Rattle.arrayvec.specs.ArrayString.{array_string_len};
ghost use Rattle.scan_core.specs.Number.{sign_text};
ghost use Rattle.pg_interval_2.specs.inside.SqlSteps.{has_positive, has_all_signs, year_month_text, signed_text, months_text, days_text, time_text, plain_text, sql_steps};

use crate::writing::clock::push_clock;
use crate::writing::parts::{has_negative, months_of, push_digits, push_minus, years_of};
use arrayvec::ArrayString;
use scan_core::push_text;

/// Appends the sign of a number, a plus also of 0.
#[inline(always)]
fn push_sign<const CAP: usize>(out: &mut ArrayString<CAP>, negative: bool)
    requires { array_string_len out.old + 1 ≤ CAP }
    ensures bytes { out.new.bytes ≡ out.old.bytes ++ sign_text negative }
    ensures len { array_string_len out.new ≤ array_string_len out.old + 1 }
{
    if negative {
        push_text(out, "-");
    } else {
        push_text(out, "+");
    }
}

/// Appends years, a minus and months, by magnitude.
#[tactic(auto, unfolding(crate::specs::inside::SqlSteps::year_month_text))]
#[inline(always)]
fn push_year_month<const CAP: usize>(out: &mut ArrayString<CAP>, months: i32)
    requires { array_string_len out.old + 21 ≤ CAP }
    ensures bytes { out.new.bytes ≡ out.old.bytes ++ year_month_text months }
    ensures len { array_string_len out.new ≤ array_string_len out.old + 21 }
{
    push_digits(out, years_of(months));
    push_text(out, "-");
    push_digits(out, months_of(months));
}

/// Whether one of the numbers is positive.
fn has_positive(months: i32, days: i32, micros: i64) -> bool
    ensures { result ≡ has_positive months days micros }
{
    months > 0 || days > 0 || micros > 0
}

/// Whether each number has a sign of its own in the text: two of them have opposite signs, or months stand beside days or
/// time.
#[tactic(auto, unfolding(crate::specs::inside::SqlSteps::has_all_signs))]
fn has_all_signs(months: i32, days: i32, micros: i64) -> bool
    ensures { result ≡ has_all_signs months days micros }
{
    if has_negative(months, days, micros) && has_positive(months, days, micros) {
        return true;
    }
    months != 0 && (days != 0 || micros != 0)
}

/// Appends each of the three numbers with its sign.
#[inline(always)]
fn push_signed<const CAP: usize>(out: &mut ArrayString<CAP>, months: i32, days: i32, micros: i64)
    requires { array_string_len out.old + 96 ≤ CAP }
    ensures bytes { out.new.bytes ≡ out.old.bytes ++ signed_text months days micros }
    ensures len { array_string_len out.new ≤ array_string_len out.old + 96 }
{
    push_sign(out, months.is_negative());
    push_year_month(out, months);
    push_text(out, " ");
    push_sign(out, days.is_negative());
    push_digits(out, days.unsigned_abs());
    push_text(out, " ");
    push_sign(out, micros.is_negative());
    push_clock(out, 1, micros);
}

/// Appends months alone.
#[tactic(auto, unfolding(crate::specs::inside::SqlSteps::months_text))]
#[inline(always)]
fn push_months<const CAP: usize>(out: &mut ArrayString<CAP>, months: i32)
    requires { array_string_len out.old + 96 ≤ CAP }
    ensures bytes { out.new.bytes ≡ out.old.bytes ++ months_text months }
    ensures len { array_string_len out.new ≤ array_string_len out.old + 96 }
{
    push_minus(out, months.is_negative());
    push_year_month(out, months);
}

/// Appends days and the time, whose sign is that of the days.
#[tactic(auto, unfolding(crate::specs::inside::SqlSteps::days_text))]
#[inline(always)]
fn push_days<const CAP: usize>(out: &mut ArrayString<CAP>, days: i32, micros: i64)
    requires { array_string_len out.old + 96 ≤ CAP }
    ensures bytes { out.new.bytes ≡ out.old.bytes ++ days_text days micros }
    ensures len { array_string_len out.new ≤ array_string_len out.old + 96 }
{
    push_minus(out, days.is_negative());
    push_digits(out, days.unsigned_abs());
    push_text(out, " ");
    push_clock(out, 1, micros);
}

/// Appends the time alone.
#[tactic(auto, unfolding(crate::specs::inside::SqlSteps::time_text))]
#[inline(always)]
fn push_time<const CAP: usize>(out: &mut ArrayString<CAP>, micros: i64)
    requires { array_string_len out.old + 96 ≤ CAP }
    ensures bytes { out.new.bytes ≡ out.old.bytes ++ time_text micros }
    ensures len { array_string_len out.new ≤ array_string_len out.old + 96 }
{
    push_minus(out, micros.is_negative());
    push_clock(out, 1, micros);
}

/// Appends the text in which one sign serves all.
#[tactic(auto, unfolding(crate::specs::inside::SqlSteps::plain_text))]
#[inline(always)]
fn push_plain<const CAP: usize>(out: &mut ArrayString<CAP>, months: i32, days: i32, micros: i64)
    requires { array_string_len out.old + 96 ≤ CAP }
    ensures bytes { out.new.bytes ≡ out.old.bytes ++ plain_text months days micros }
    ensures len { array_string_len out.new ≤ array_string_len out.old + 96 }
{
    if months != 0 {
        push_months(out, months);
    } else if days != 0 {
        push_days(out, days, micros);
    } else {
        push_time(out, micros);
    }
}

/// Appends the text of an interval of these parts: `+1-1 +1 +1:00:00` of 13, 1 and 3_600_000_000.
#[tactic(auto, unfolding(crate::specs::inside::SqlSteps::sql_steps))]
pub fn push_sql<const CAP: usize>(out: &mut ArrayString<CAP>, months: i32, days: i32, micros: i64)
    requires { array_string_len out.old + 96 ≤ CAP }
    ensures bytes { out.new.bytes ≡ out.old.bytes ++ sql_steps months days micros }
    ensures len { array_string_len out.new ≤ array_string_len out.old + 96 }
{
    if months == 0 && days == 0 && micros == 0 {
        push_text(out, "0");
    } else if has_all_signs(months, days, micros) {
        push_signed(out, months, days, micros);
    } else {
        push_plain(out, months, days, micros);
    }
}
