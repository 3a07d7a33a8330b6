//! The names of units: a word's letters, packed into one number, are compared with the names packed alike.
ghost use Rattle.std.specs.Prelude.{◌≡◌, ◌^◌, List, ℕ, IsTrue};
ghost use Rattle.std.specs.Char.{is_ascii_alphabetic};
ghost use Rattle.std.specs.List.{list_all};
ghost use Rattle.scan_core.specs.Runs.{Knows, packed};
ghost use Rattle.pg_interval_2.specs.inside.NamedUnits.{unit_named};
ghost use Rattle.pg_interval_2.specs.inside.NameSets.{is_packed, names_in, unit_packed};
ghost use Rattle.scan_core.specs.declared.share.Unit.TheVariants.{Minute, Second};

use scan_core::{Unit, Word};

/// A set of names, a style's.
#[derive(Clone, Copy, PartialEq, Eq)]
pub(crate) enum NameSet {
    /// Those of `postgres`.
    Postgres,
    /// Those of `postgres_verbose`, which has short ones too.
    Verbose,
}

/// A number, and letters behind it, packed as a scan packs those of a word: a byte each, the last the lowest.
macro_rules! packed {
    ($before:expr;) => { $before };
    ($before:expr; $letter:literal $($more:literal)*) => {
        packed!($before << 8 | $letter as u64; $($more)*)
    };
}

const YEARS: u64 = packed!(0; b'y' b'e' b'a' b'r' b's');

const YEAR: u64 = packed!(0; b'y' b'e' b'a' b'r');

const MONTHS: u64 = packed!(0; b'm' b'o' b'n' b't' b'h' b's');

const MONS: u64 = packed!(0; b'm' b'o' b'n' b's');

const MON: u64 = packed!(0; b'm' b'o' b'n');

const DAYS: u64 = packed!(0; b'd' b'a' b'y' b's');

const DAY: u64 = packed!(0; b'd' b'a' b'y');

const HOURS: u64 = packed!(0; b'h' b'o' b'u' b'r' b's');

const HOUR: u64 = packed!(0; b'h' b'o' b'u' b'r');

const MINUTES: u64 = packed!(0; b'm' b'i' b'n' b'u' b't' b'e' b's');

const MINUTE: u64 = packed!(0; b'm' b'i' b'n' b'u' b't' b'e');

const MINS: u64 = packed!(0; b'm' b'i' b'n' b's');

const MIN: u64 = packed!(0; b'm' b'i' b'n');

const SECONDS: u64 = packed!(0; b's' b'e' b'c' b'o' b'n' b'd' b's');

const SECOND: u64 = packed!(0; b's' b'e' b'c' b'o' b'n' b'd');

const SECS: u64 = packed!(0; b's' b'e' b'c' b's');

const SEC: u64 = packed!(0; b's' b'e' b'c');

/// The unit that a word names.
#[inline(always)]
pub(crate) fn unit_named(names: NameSet, word: Word) -> Option<Unit>
    ensures { (letters : List ℕ) → IsTrue (list_all is_ascii_alphabetic letters)
        → Knows (2 ^ 56) word.value (packed letters)
        → result ≡ unit_named (names_in names) letters }
{
    unit_packed(names, word.value)
}

/// Whether these packed letters name the minute.
#[inline(always)]
fn is_minute(names: NameSet, letters: u64) -> bool
    ensures { result ≡ is_packed letters (names_in names Minute) }
{
    match names {
        NameSet::Postgres => letters == MINUTES || letters == MINUTE,
        NameSet::Verbose => {
            letters == MINUTES || letters == MINUTE || letters == MINS || letters == MIN
        }
    }
}

/// Whether these packed letters name the second.
#[inline(always)]
fn is_second(names: NameSet, letters: u64) -> bool
    ensures { result ≡ is_packed letters (names_in names Second) }
{
    match names {
        NameSet::Postgres => letters == SECONDS || letters == SECOND,
        NameSet::Verbose => {
            letters == SECONDS || letters == SECOND || letters == SECS || letters == SEC
        }
    }
}

/// The unit that packed letters name.
#[inline(always)]
#[tactic(auto, unfolding(crate::specs::inside::NameSets::unit_packed))]
fn unit_packed(names: NameSet, letters: u64) -> Option<Unit>
    ensures { result ≡ unit_packed (names_in names) letters }
{
    if letters == YEARS || letters == YEAR {
        Some(Unit::Year)
    } else if letters == MONTHS || letters == MONS || letters == MON {
        Some(Unit::Month)
    } else if letters == DAYS || letters == DAY {
        Some(Unit::Day)
    } else if letters == HOURS || letters == HOUR {
        Some(Unit::Hour)
    } else if is_minute(names, letters) {
        Some(Unit::Minute)
    } else if is_second(names, letters) {
        Some(Unit::Second)
    } else {
        None
    }
}
