//! The worked examples: file M, and what the definitions say of it.
#![tactic(auto)]

ghost use Rattle.std.specs.Prelude.{◌≡◌, ◌<◌, set};
ghost use Rattle.examples.specs.Draftings.{Draftings};
ghost use Rattle.examples.specs.Editings.{Editings};
ghost use Rattle.examples.specs.FileM.{file_m, put32};
ghost use Rattle.examples.specs.Readings.{Readings};
ghost use Rattle.examples.specs.Worked.{Worked};

/// The bytes of file M.
fn bytes_of_m() -> [u8; 160]
    ensures { result ≡ file_m }
{
    *b"\
        \0\x06\0\0\0\0\0\0\0\x72\
        \0\x01\0\0\0\x6C\
        \0\0\0\0\0\0\0\x64\
        \0\0\0\0\0\0\0\0\0\0\0\0\0\0\0\0\0\0\0\0\0\0\0\0\0\0\0\0\
        \0\0\0\x01\0\0\0\x01\0\0\0\x01\0\0\0\0\0\0\0\x34\
        \0\0\0\0\0\0\0\0\0\0\0\0\0\0\0\0\0\0\0\x03\0\0\0\0\0\0\0\x18\
        \0\0\0\x14\
        FILL\0\0\0\x04\x01\x02\x02\x04\
        XTRA\0\0\0\0\
        \x01\x02\x03\x04\x05\x06\x07\x08\x09\x0A\x0B\x0C\x0D\x0E\x0F\x10\x11\x12\
        \x13\x14\x15\x16\x17\x18\x19\x1A\x1B\x1C\x1D\x1E\x1F\x20\x21\x22\x23\x24"
}

/// File M, the smallest file of version 6 with blocks; its contract states the worked examples.
pub fn example_file() -> [u8; 160]
    ensures bytes { result ≡ file_m }
    ensures worked { Worked }
    ensures readings { Readings }
    ensures editings { Editings }
    ensures draftings { Draftings }
{
    bytes_of_m()
}

/// File M with one byte changed.
fn damaged(at: usize, byte: u8) -> [u8; 160]
    requires { at < 160 }
    ensures { result ≡ set file_m at byte }
{
    let mut bytes = example_file();
    bytes[at] = byte;
    bytes
}

/// File M with extent 2 one too small.
pub fn example_with_extent() -> [u8; 160]
    ensures { result ≡ put32 file_m 12 107 }
{
    damaged(15, 107)
}

/// File M with a section one byte too short for its blocks.
pub fn example_with_section() -> [u8; 160]
    ensures { result ≡ put32 file_m 100 19 }
{
    damaged(103, 19)
}

#[cfg(test)]
mod buffer_tests;
#[cfg(test)]
mod draft_tests;
#[cfg(test)]
mod edit_tests;
#[cfg(test)]
mod editor_tests;
#[cfg(test)]
mod files;
#[cfg(test)]
mod judge_tests;
#[cfg(test)]
mod kind_tests;
#[cfg(test)]
mod questions;
#[cfg(test)]
mod reader_tests;
#[cfg(test)]
mod refusals;
#[cfg(test)]
mod runs;
