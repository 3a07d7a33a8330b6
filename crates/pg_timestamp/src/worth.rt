//! The value of a timestamp, or why it has none.

use crate::timestamp::Timestamp;
use crate::value::{NoValue, Value, day_number, is_real_time, value_at};

impl Timestamp {
    ghost use Rattle.std.specs.Prelude.{◌≡◌, IfOk, IfErr};
    ghost use Rattle.pg_timestamp.specs.Values.{IsInRange, IsRealTimestamp, IsRefusedBy, IsWithinBounds, value_of};

    /// What the timestamp is worth: `2026-12-01` is day 20,788, `1969-12-31 23:59:59.999999+00` the moment -1.
    ///
    /// `NoSuchMoment` exactly where there is no such day or time, and else `Range` exactly where the value isn't within the bounds or the
    /// written day is past 9999-12-31.
    pub fn value(&self) -> Result<Value, NoValue>
        ensures real { IfOk result (λ value. IsRealTimestamp self.now) }
        ensures range { IfOk result (λ value. IsInRange self.now) }
        ensures bounds { IfOk result (λ value. IsWithinBounds value) }
        ensures value { IfOk result (λ value. value ≡ value_of self.now) }
        ensures refusal { IfErr result (IsRefusedBy self.now) }
    {
        if !is_real_time(&self.time) {
            return Err(NoValue::NoSuchMoment);
        }
        iso8601::laws::years_and_weeks_follow_each_other();
        let day = match day_number(&self.date) {
            Ok(day) => day,
            Err(cause) => return Err(cause),
        };
        let value = value_at(day, &self.time);
        if !value.is_within_bounds() {
            return Err(NoValue::Range);
        }
        Ok(value)
    }
}
