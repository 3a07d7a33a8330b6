//! Laws of durations, each for every text or interval: functions that do nothing.
ghost use Rattle.std.specs.Prelude.{◌≡◌, ℕ, List, IsTrue};
ghost use Rattle.std.specs.Str.{IsAscii};
ghost use Rattle.scan_core.specs.Count.{Count};
ghost use Rattle.pg_interval_2.specs.Denotes.{Denotes};
ghost use Rattle.pg_interval_2.specs.Ranges.{IsInRange};
ghost use Rattle.pg_interval_2.specs.declared.interval.Interval.{Interval};
ghost use Rattle.xsd_duration.specs.Durations.{SpellsDuration};
ghost use Rattle.xsd_duration.specs.Readings.{IsRefused};
ghost use Rattle.xsd_duration.specs.Written.{xml_duration_text, has_one_sign};
ghost use Rattle.xsd_duration.specs.declared.error.DurationError.{DurationError};

/// A text spells one list of counts at most, so it denotes one interval at most.
pub fn a_text_has_one_reading()
    ensures counts { (text : List ℕ) (a b : List Count) → SpellsDuration text a
        → SpellsDuration text b → a ≡ b }
    ensures interval { (text : List ℕ) (a b : Interval) → Denotes SpellsDuration text a
        → Denotes SpellsDuration text b → a ≡ b }
{}

/// A text is refused for one reason at most, and for none where it denotes an interval.
pub fn a_text_has_one_refusal()
    ensures one { (text : List ℕ) (a b : DurationError) → IsRefused text a → IsRefused text b
        → a ≡ b }
    ensures none { (text : List ℕ) (t : Interval) (e : DurationError)
        → Denotes SpellsDuration text t → ¬ (IsRefused text e) }
{}

/// The interval that a text denotes is in the range of its types.
pub fn a_denoted_interval_is_in_range()
    ensures { (text : List ℕ) (t : Interval) → Denotes SpellsDuration text t → IsInRange t }
{}

/// The interval that a text denotes has one sign, so it can be written.
pub fn a_denoted_interval_has_one_sign()
    ensures { (text : List ℕ) (t : Interval) → Denotes SpellsDuration text t
        → IsTrue (has_one_sign t) }
{}

/// The written text of an interval of one sign denotes this interval.
pub fn a_written_text_is_read_back()
    ensures { (t : Interval) → IsInRange t → IsTrue (has_one_sign t)
        → Denotes SpellsDuration (xml_duration_text t) t }
{}

/// A text that is a duration is ASCII: the reader needs no test whether it is UTF-8.
pub fn texts_are_ascii()
    ensures { (text : List ℕ) (counts : List Count) → SpellsDuration text counts → IsAscii text }
{}
