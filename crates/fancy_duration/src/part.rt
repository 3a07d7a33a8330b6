//! The ten parts of a written length.
ghost use Rattle.std.specs.Prelude.{◌≡◌, ◌≢◌, IfSome, IfNone};
ghost use Rattle.fancy_duration.specs.inside.Writing.{seconds_of};
ghost use Rattle.fancy_duration.specs.Parts.{unit_of, weight_of};

/// One of the ten parts of a written duration, from the greatest to the least.
#[derive(Clone, Copy, Debug, PartialEq, Eq, PartialOrd, Ord)]
pub enum DurationPart {
    /// 360 days, `y`.
    Years,
    /// 30 days, `m`.
    Months,
    /// 7 days, `w`.
    Weeks,
    /// 24 hours, `d`.
    Days,
    /// 60 minutes, `h`.
    Hours,
    /// 60 seconds, `m`.
    Minutes,
    /// `s`.
    Seconds,
    /// `ms`.
    Milliseconds,
    /// `us`.
    Microseconds,
    /// `ns`.
    Nanoseconds,
}

impl DurationPart {
    /// All parts, from the greatest to the least.
    pub(crate) const ALL: [DurationPart; 10] = [
        DurationPart::Years,
        DurationPart::Months,
        DurationPart::Weeks,
        DurationPart::Days,
        DurationPart::Hours,
        DurationPart::Minutes,
        DurationPart::Seconds,
        DurationPart::Milliseconds,
        DurationPart::Microseconds,
        DurationPart::Nanoseconds,
    ];

    /// Nanoseconds in one of the part.
    pub(crate) fn nanos(self) -> u64
        ensures { result ≡ weight_of self }
    {
        match self {
            DurationPart::Years => 31_104_000_000_000_000,
            DurationPart::Months => 2_592_000_000_000_000,
            DurationPart::Weeks => 604_800_000_000_000,
            DurationPart::Days => 86_400_000_000_000,
            DurationPart::Hours => 3_600_000_000_000,
            DurationPart::Minutes => 60_000_000_000,
            DurationPart::Seconds => 1_000_000_000,
            DurationPart::Milliseconds => 1_000_000,
            DurationPart::Microseconds => 1_000,
            DurationPart::Nanoseconds => 1,
        }
    }

    /// Whole seconds in one of the part, which are none below a second.
    #[inline(always)] // so that a part's weight is a constant where the part is one
    pub(crate) fn seconds(self) -> u64
        ensures { result ≡ seconds_of self }
    {
        self.nanos() / 1_000_000_000
    }

    /// The letters that stand behind a count of the part.
    pub(crate) fn unit(self) -> &'static str
        ensures { result.now ≡ unit_of self }
    {
        match self {
            DurationPart::Years => "y",
            DurationPart::Months | DurationPart::Minutes => "m",
            DurationPart::Weeks => "w",
            DurationPart::Days => "d",
            DurationPart::Hours => "h",
            DurationPart::Seconds => "s",
            DurationPart::Milliseconds => "ms",
            DurationPart::Microseconds => "us",
            DurationPart::Nanoseconds => "ns",
        }
    }

    /// The part that a unit names, where `m` is read as minutes.
    pub(crate) fn named(unit: &[u8]) -> Option<DurationPart>
        ensures found { IfSome result (λ part. unit.now ≡ unit_of part) }
        ensures minutes { result ≢ Some DurationPart.Months }
        ensures none { IfNone result ((part : _) → unit.now ≢ unit_of part) }
    {
        match unit {
            b"y" => Some(DurationPart::Years),
            b"w" => Some(DurationPart::Weeks),
            b"d" => Some(DurationPart::Days),
            b"h" => Some(DurationPart::Hours),
            b"m" => Some(DurationPart::Minutes),
            b"s" => Some(DurationPart::Seconds),
            b"ms" => Some(DurationPart::Milliseconds),
            b"us" => Some(DurationPart::Microseconds),
            b"ns" => Some(DurationPart::Nanoseconds),
            _ => None,
        }
    }
}
