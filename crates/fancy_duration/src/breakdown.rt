//! Lengths of which some parts are kept.
ghost use Rattle.std.specs.Prelude.{◌≡◌, ℕ, ◌<◌, ◌≤◌, ◌↔◌, IsTrue};
ghost use Rattle.std.specs.List.{list_any};
ghost use Rattle.fancy_duration.specs.Parts.{is_part, all_parts};
ghost use Rattle.fancy_duration.specs.Collisions.{MonthsStandAlone};
ghost use Rattle.fancy_duration.specs.Breakdown.{kept_length, front_length, counts_of, from_first};
ghost use Rattle.fancy_duration.specs.Times.{nanos_of};
ghost use Rattle.fancy_duration.specs.inside.Writing.{left_after};

use crate::DurationPart;

/// The nanoseconds of the parts that a list holds.
pub(crate) fn kept_nanos(nanos: u128, kept: &[DurationPart]) -> u128
    ensures value { result ≡ kept_length kept.now nanos }
    ensures within { result ≤ nanos }
{
    let mut left = nanos;
    let mut sum = 0;
    for part in DurationPart::ALL {
        let below = left % u128::from(part.nanos());
        if is_among(part, kept) {
            sum += left - below;
        }
        left = below;
    }
    sum
}

/// True exactly where a list holds the part.
fn is_among(part: DurationPart, parts: &[DurationPart]) -> bool
    ensures { result ≡ list_any (λ other. is_part other part) parts.now }
{
    parts.contains(&part)
}

/// The nanoseconds of the first `limit` parts from the first one above 0 on.
pub(crate) fn leading_nanos(nanos: u128, limit: usize) -> u128
    ensures value { result ≡ front_length limit nanos }
    ensures within { result ≤ nanos }
{
    let parts = parts_from_first(nanos);
    nanos - left_after(nanos, &parts[..limit.min(parts.len())])
}

/// The parts from the first one above 0 on.
fn parts_from_first(nanos: u128) -> &'static [DurationPart]
    ensures { counts_of result.now nanos ≡ from_first (counts_of all_parts nanos) }
{
    let mut parts: &'static [DurationPart] = &DurationPart::ALL;
    while let Some((first, later)) = parts.split_first() {
        if u128::from(first.nanos()) <= nanos {
            break;
        }
        parts = later;
    }
    parts
}

/// What is left of a length without these parts.
fn left_after(nanos: u128, parts: &[DurationPart]) -> u128
    ensures value { result ≡ left_after parts.now nanos }
    ensures within { result ≤ nanos }
{
    let mut left = nanos;
    for part in parts {
        left %= u128::from(part.nanos());
    }
    left
}

/// Whether a length of so many whole seconds has months, and no weeks, days, hours or minutes beside them.
pub(crate) fn have_months_alone(seconds: u64) -> bool
    ensures { (nanos : ℕ) → nanos < 1_000_000_000
        → IsTrue result ↔ MonthsStandAlone (nanos_of (seconds, nanos)) }
{
    let month = DurationPart::Months.seconds();
    let below_years = seconds % DurationPart::Years.seconds();
    below_years >= month && below_years % month < DurationPart::Minutes.seconds()
}
