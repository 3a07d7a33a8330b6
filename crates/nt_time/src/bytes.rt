//! File times as eight bytes and as two halves, as `FILETIME` stores them.
ghost use Rattle.std.specs.Prelude.{◌≡◌};
ghost use Rattle.std.specs.Int.{w64, to_be_bytes, to_le_bytes, from_be_bytes, from_le_bytes};
ghost use Rattle.nt_time.specs.FileTime.{HasParts};

use crate::FileTime;

impl FileTime {
    /// The eight bytes of the raw count, the highest first.
    ///
    /// In this form file times sort as their bytes do. Those of [`FileTime::UNIX_EPOCH`] are
    /// `01 9d b1 de d5 3e 80 00`.
    pub fn to_be_bytes(self) -> [u8; 8]
        ensures { result ≡ to_be_bytes w64 self }
    {
        self.to_raw().to_be_bytes()
    }

    /// The eight bytes of the raw count, the lowest first: NTFS stores file times so.
    pub fn to_le_bytes(self) -> [u8; 8]
        ensures { result ≡ to_le_bytes w64 self }
    {
        self.to_raw().to_le_bytes()
    }

    /// The file time whose raw count has these bytes, the highest first.
    pub fn from_be_bytes(bytes: [u8; 8]) -> FileTime
        ensures { result ≡ from_be_bytes w64 bytes }
    {
        FileTime::new(u64::from_be_bytes(bytes))
    }

    /// The file time whose raw count has these bytes, the lowest first.
    pub fn from_le_bytes(bytes: [u8; 8]) -> FileTime
        ensures { result ≡ from_le_bytes w64 bytes }
    {
        FileTime::new(u64::from_le_bytes(bytes))
    }

    /// The high and the low 32 bits of the raw count: `dwHighDateTime` and `dwLowDateTime`.
    ///
    /// Those of [`FileTime::UNIX_EPOCH`] are `0x019d_b1de` and `0xd53e_8000`.
    pub fn to_high_low(self) -> (u32, u32)
        ensures { HasParts self result.0 result.1 }
    {
        let raw = self.to_raw();
        ((raw >> 32) as u32, (raw & 0xffff_ffff) as u32)
    }

    /// The file time with these high and low 32 bits.
    pub fn from_high_low(high: u32, low: u32) -> FileTime
        ensures { HasParts result high low }
    {
        FileTime::new((high as u64) << 32 | low as u64)
    }
}
