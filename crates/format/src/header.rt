//! The header: where the data begin, and what is asked of version and extents.
ghost use Rattle.std.specs.Prelude.{◌≡◌, ◌^◌, ◌<◌};
ghost use Rattle.format.specs.Checks.{first_of, all_of};
ghost use Rattle.format.specs.Header.{version as version_of, header_end, data_start, section_size};
ghost use Rattle.format.specs.Judging.{longer_than, version_known, opening_checks, extent_covers, covering_checks, extent_agrees, agreeing_checks};

use crate::extents::{EXTENTS, Extent, SECTION_SIZE_PLACE, header_end};
use buffers::Word;
use faults::{Fault, Refusal};

/// Refuses 1 unless there are more bytes than `end`.
fn check_longer(bytes: &[u8], end: usize) -> Result<(), Fault>
    ensures { result ≡ longer_than bytes.now end }
{
    if bytes.len() > end {
        Ok(())
    } else {
        Err(Fault::at(Refusal::TooFewBytes, 0))
    }
}

/// Refuses 2 unless the version is one of 1 to 32.
fn check_version(bytes: &[u8]) -> Result<(), Fault>
    ensures { result ≡ version_known bytes.now }
{
    let version = i16::at(bytes, 0);
    if (1..=32).contains(&version) {
        Ok(())
    } else {
        Err(Fault::at(Refusal::Version, 0))
    }
}

/// The version, of a file that is longer than its header; refuses 1 and 2.
pub(crate) fn check_opening(bytes: &[u8]) -> Result<u16, Fault>
    ensures { result ≡ first_of (opening_checks bytes.now) (version_of bytes.now) }
{
    check_longer(bytes, header_end(1))?;
    check_version(bytes)?;
    let version = u16::at(bytes, 0);
    check_longer(bytes, header_end(version))?;
    Ok(version)
}

/// The bytes of a file, read as those of one version.
#[derive(Clone, Copy)]
pub(crate) struct Header<'a> {
    pub(crate) bytes: &'a [u8],
    pub(crate) version: u16,
}

impl<'a> Header<'a> {
    /// Where the data begin, by the first extent.
    pub(crate) fn data_start(&self) -> usize
        ensures value { result ≡ data_start self.now.bytes.now }
        ensures small { result < 2 ^ 33 }
    {
        EXTENTS[0].start(self.bytes)
    }

    /// The size of the section of blocks; 0 below version 6.
    pub(crate) fn section_size(&self) -> usize
        ensures value { result ≡ section_size self.now.bytes.now self.now.version }
        ensures small { result < 2 ^ 32 }
    {
        if self.version < 6 {
            0
        } else {
            u32::at(self.bytes, SECTION_SIZE_PLACE) as usize
        }
    }

    /// Refuses 3 if the extent ends before the header does.
    fn check_covers(&self, extent: Extent) -> Result<(), Fault>
        ensures { result ≡ extent_covers self.now.bytes.now self.now.version extent }
    {
        let place = extent.place as usize;
        let least = header_end(self.version).saturating_sub(extent.end()) as i64;
        if self.version < extent.level || i32::at(self.bytes, place) as i64 >= least {
            Ok(())
        } else {
            Err(Fault::at(Refusal::ExtentTooSmall, place))
        }
    }

    /// Refuses 3 at the first extent that ends before the header does.
    pub(crate) fn check_covering(&self) -> Result<(), Fault>
        ensures { result ≡ all_of (covering_checks self.now.bytes.now self.now.version) }
    {
        for extent in EXTENTS {
            self.check_covers(extent)?;
        }
        Ok(())
    }

    /// Refuses 4 if the extent leads elsewhere than the first.
    fn check_agrees(&self, extent: Extent) -> Result<(), Fault>
        ensures { result ≡ extent_agrees self.now.bytes.now self.now.version extent }
    {
        if self.version < extent.level || extent.start(self.bytes) == self.data_start() {
            Ok(())
        } else {
            Err(Fault::at(Refusal::ExtentsDisagree, extent.place as usize))
        }
    }

    /// Refuses 4 at the first extent that leads elsewhere than extent 1.
    pub(crate) fn check_agreeing(&self) -> Result<(), Fault>
        ensures { result ≡ all_of (agreeing_checks self.now.bytes.now self.now.version) }
    {
        for extent in &EXTENTS[1..] {
            self.check_agrees(*extent)?;
        }
        Ok(())
    }
}
