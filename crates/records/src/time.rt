//! TIME: a time stamp, finer than that of the header.
ghost use Rattle.std.specs.Prelude.{codes, refl};
ghost use Rattle.records.specs.Time.{time_parts, time_numbers, time_kind};
ghost use Rattle.kinds.proofs.Records.{record_keeps};
ghost use Rattle.std.proofs.Common.{rules};

use buffers::{Word, write_word};
use kinds::Packed;

/// The time of a TIME block; seconds and hours are the bit patterns of 64-bit floats.
#[derive(Clone, Copy, PartialEq, Debug)]
pub struct Time {
    /// What the time marks, CODAR's nTimeMark: 0 the start, 1 the centre, 2 the end.
    pub mark: u8,
    /// The year, nYear, of the Gregorian calendar and in local time.
    pub year: u16,
    /// The month from 1, nMonth.
    pub month: u8,
    /// The day of the month from 1, nDay.
    pub day: u8,
    /// The hour, nHour.
    pub hour: u8,
    /// The minute, nMinute.
    pub minute: u8,
    /// The seconds, fSeconds.
    pub seconds: u64,
    /// The seconds that the spectra cover, fCoverageSeconds.
    pub coverage: u64,
    /// The hours from UTC, fHoursFromUTC.
    pub utc: u64,
}

impl Packed for Time {
    const KEY: [u8; 4] = *b"TIME";

    ghost KEY = { codes "TIME" };

    ghost kind = { time_kind };

    ghost parts = { time_parts };

    ghost numbers = { time_numbers };

    ghost IsRecord = { λ x. Unit {0} };

    ghost packs = { refl };

    ghost keeps = { record_keeps (codes "TIME") time_parts refl };

    ghost apart = { Prim.search rules };

    fn unpack(bytes: &[u8]) -> Time {
        Time {
            mark: u8::at(bytes, 0),
            year: u16::at(bytes, 1),
            month: u8::at(bytes, 3),
            day: u8::at(bytes, 4),
            hour: u8::at(bytes, 5),
            minute: u8::at(bytes, 6),
            seconds: u64::at(bytes, 7),
            coverage: u64::at(bytes, 15),
            utc: u64::at(bytes, 23),
        }
    }

    fn size(self) -> usize {
        31
    }

    fn pack(self, out: &mut [u8]) -> bool {
        out.len() >= 31
            && write_word(out, 0, self.mark)
            && write_word(out, 1, self.year)
            && write_word(out, 3, self.month)
            && write_word(out, 4, self.day)
            && write_word(out, 5, self.hour)
            && write_word(out, 6, self.minute)
            && write_word(out, 7, self.seconds)
            && write_word(out, 15, self.coverage)
            && write_word(out, 23, self.utc)
    }
}
