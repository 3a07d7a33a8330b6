//! The styles of intervals.
/// A style of intervals: an output style of PostgreSQL, as its setting `IntervalStyle` names it, or the strict form of its ISO style.
#[derive(Clone, Copy, Debug, PartialEq, Eq)]
pub enum Style {
    /// `iso_8601`: `P1Y2M3DT4H5M6S`.
    Iso,
    /// `postgres`, the server's own default: `1 year 2 mons 3 days 04:05:06`.
    Postgres,
    /// `postgres_verbose`: `@ 1 year 2 mons 3 days 4 hours 5 mins 6 secs`.
    Verbose,
    /// `sql_standard`: `+1-2 +3 +4:05:06`.
    Sql,
    /// `iso_8601` with the units in one order, each once at most: `P1Y2M3W4DT5H6M7S`. It is written as `Style::Iso` is.
    IsoStrict,
}
