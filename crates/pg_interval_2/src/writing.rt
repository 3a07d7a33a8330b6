//! The written text of an interval, by style.
mod clock;
mod iso;
pub(crate) mod parts;
mod postgres;
mod sql;
mod verbose;

use crate::interval::Interval;
use crate::style::Style;
use crate::writing::iso::push_iso;
use crate::writing::postgres::push_postgres;
use crate::writing::sql::push_sql;
use crate::writing::verbose::push_verbose;
use arrayvec::ArrayString;
use scan_core::Short;

impl Interval {
    ghost use Rattle.std.specs.Prelude.{◌≡◌, ◌+◌, ◌≤◌, ◌++◌};
    ghost use Rattle.arrayvec.specs.ArrayString.{array_string_len};
    ghost use Rattle.pg_interval_2.specs.Styles.{style_text};

    /// The interval's written text in the style, at most 96 bytes: `P1Y1M1DT1H` or `1 year 1 mon 1 day 01:00:00` of a
    /// year, a month, a day and an hour. Every interval has one, the least values of its parts included. Read in the same
    /// style, it denotes this interval and no other.
    pub fn text(&self, style: Style) -> Short
        ensures bytes { result.bytes ≡ style_text style self.now }
        ensures len { array_string_len result ≤ 96 }
    {
        let mut out = Short::new();
        self.push_text(style, &mut out);
        out
    }

    /// Appends what [`Interval::text`] answers to a text that has room for 96 bytes more.
    pub fn push_text<const CAP: usize>(&self, style: Style, out: &mut ArrayString<CAP>)
        requires room { array_string_len out.old + 96 ≤ CAP }
        ensures bytes { out.new.bytes ≡ out.old.bytes ++ style_text style self.now }
        ensures len { array_string_len out.new ≤ array_string_len out.old + 96 }
    {
        match style {
            Style::Iso | Style::IsoStrict => push_iso(
                out,
                self.months,
                self.days,
                self.microseconds,
            ),
            Style::Postgres => push_postgres(out, self.months, self.days, self.microseconds),
            Style::Verbose => push_verbose(out, self.months, self.days, self.microseconds),
            Style::Sql => push_sql(out, self.months, self.days, self.microseconds),
        }
    }
}
