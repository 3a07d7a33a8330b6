//! The binary form of an interval, as a `COPY BINARY` or a driver hands it over.
ghost use Rattle.std.specs.Prelude.{◌≡◌};
ghost use Rattle.std.specs.Int.{w32, w64};
ghost use Rattle.pg_interval_2.specs.Cell.{cell, big_endian};

use crate::interval::Interval;

impl Interval {
    /// The 16 bytes of PostgreSQL's binary form: microseconds, days and months, each in two's complement with the highest
    /// byte first.
    ///
    /// The bytes of a year, a month, a day and an hour are `00000000d693a400`, `00000001` and `0000000d`.
    pub fn to_cell(&self) -> [u8; 16]
        ensures { result ≡ cell self.now }
    {
        let [m0, m1, m2, m3, m4, m5, m6, m7] = self.microseconds.to_be_bytes();
        let [d0, d1, d2, d3] = self.days.to_be_bytes();
        let [n0, n1, n2, n3] = self.months.to_be_bytes();
        [
            m0, m1, m2, m3, m4, m5, m6, m7, d0, d1, d2, d3, n0, n1, n2, n3,
        ]
    }

    /// The interval of which these are the bytes. Any 16 bytes are those of one interval.
    pub fn from_cell(bytes: [u8; 16]) -> Interval
        ensures { cell result ≡ bytes }
    {
        let [
            m0,
            m1,
            m2,
            m3,
            m4,
            m5,
            m6,
            m7,
            d0,
            d1,
            d2,
            d3,
            n0,
            n1,
            n2,
            n3,
        ] = bytes;
        Interval::new(
            number_of_4([n0, n1, n2, n3]),
            number_of_4([d0, d1, d2, d3]),
            number_of_8([m0, m1, m2, m3, m4, m5, m6, m7]),
        )
    }
}

/// The number of which these are the bytes.
fn number_of_4(bytes: [u8; 4]) -> i32
    ensures { big_endian w32 result ≡ bytes }
{
    i32::from_be_bytes(bytes)
}

/// The number of which these are the bytes.
fn number_of_8(bytes: [u8; 8]) -> i64
    ensures { big_endian w64 result ≡ bytes }
{
    i64::from_be_bytes(bytes)
}
