//! A task from start to end on built-in data, of which nothing is saved.
use crate::arguments::LEVEL;
use crate::blocks_shown::show_blocks;
use crate::calls_shown::Outcome;
use crate::judge::judge_bytes;
use draft::{BlockStage, Start};
use editor::WorkingFile;
use faults::Fault;
use printed::Refused;
use reader::{JudgedFile, RowAt};
use records::{Loca, Time};
use std::{fmt, io};
use texts::{Tool, Zone};

/// Two range cells of four Doppler bins, without quality.
const START: Start = Start {
    version: 4,
    kind: 1,
    bins: 4,
    ranges: 2,
};

/// Fields 1, 3 to 10, 13 and 14: the time, the site KIHN, 60 minutes, 13.5 MHz swept twice a second
/// over 50 kHz, and cells of 3 km, from number 1 on. Floats are given by their bit patterns.
const VALUES: [u32; 11] = [
    3786912000, 1263093838, 60, 0, 0, 1096286208, 1073741824, 1112014848, 0, 1, 1077936128,
];

/// Fields 15 to 18 and 20: the output interval, who made the file, by the letters MRGT and a
/// version, and three active channels.
const MORE_VALUES: [u32; 5] = [30, 1297237844, 10, 3, 7];

/// When the spectra were taken: 2024-01-01 00:00, over 3600 seconds, two hours ahead of UTC.
const TIME: Time = Time {
    mark: 0,
    year: 2024,
    month: 1,
    day: 1,
    hour: 0,
    minute: 0,
    seconds: 0,
    coverage: 4660134898793709568,
    utc: 4611686018427387904,
};

/// Where the station stands: 58.125 degrees north, 23.5 degrees east, 10 metres up.
const LOCA: Loca = Loca {
    latitude: 4633377183820152832,
    longitude: 4627307879634829312,
    altitude: 4621819117588971520,
};

/// The bytes of a cell: 36 numbers, one a little above the other.
fn cell_bytes(cell: u32) -> [u8; 144] {
    let mut bytes = [0u8; 144];
    for (step, word) in (0..36u32).zip(bytes.chunks_exact_mut(4)) {
        let pattern = 0x41000000 | (cell & 7) << 20 | step << 12;
        word.copy_from_slice(&pattern.to_be_bytes());
    }
    bytes
}

/// Drafts the station's file; how many bytes it has.
fn draft_station(buffer: &mut [u8]) -> Result<usize, Fault> {
    let draft = BlockStage::begin(buffer, START, &VALUES)?;
    let (draft, _) = draft.turn().lay(buffer, &cell_bytes(1));
    let (draft, _) = draft.lay(buffer, &cell_bytes(2));
    match draft.close() {
        Ok(size) => Ok(size),
        Err(refused) => {
            let (fault, draft) = refused;
            draft.give_up();
            Err(fault)
        }
    }
}

/// Raises the file by two versions, and puts four blocks after its header.
fn fill_file(rt: &HostRuntime, file: &mut WorkingFile<'_>) -> io::Result<()> {
    rt.println(
        "2. It is raised to version 5 with the values of five fields, and to version 6, which has no more fields:",
    )?;
    rt.println(Outcome("raise", file.raise(&MORE_VALUES)))?;
    rt.println(Outcome("raise", file.raise(&[])))?;
    rt.println(
        "3. It gets four blocks. The ZONE is one as a newer program writes it, with a byte Q behind the text GMT:",
    )?;
    rt.println(Outcome("add TIME", file.add::<Time>(TIME, &[])))?;
    rt.println(Outcome("add LOCA", file.add::<Loca>(LOCA, &[])))?;
    rt.println(Outcome("carry ZONE", file.carry(*b"ZONE", b"GMT\0Q")))?;
    rt.println(Outcome("add TOOL", file.add::<Tool>((), b"SpectraTool 7.1")))
}

/// Asks for what is refused, and then replaces the ZONE.
fn correct_file(rt: &HostRuntime, file: &mut WorkingFile<'_>) -> io::Result<()> {
    rt.println(
        "4. Block 1 is a TIME, and cannot be replaced as if it were a LOCA. A refused call changes nothing:",
    )?;
    rt.println(Outcome("replace block 1", file.replace::<Loca>(1, LOCA, &[])))?;
    rt.println("5. The ZONE becomes EST5, and the newer program's byte stays behind it:")?;
    rt.println(Outcome("replace block 3", file.replace::<Zone>(3, (), b"EST5")))?;
    let read = JudgedFile::of(file.bytes());
    match read.layout() {
        Ok(layout) => show_blocks(rt, &read, layout, LEVEL),
        Err(fault) => rt.println(Refused(fault)),
    }
}

/// Prints where readers of all levels find the data.
fn print_starts(rt: &HostRuntime, file: &WorkingFile<'_>) -> io::Result<()> {
    rt.println("6. Readers of all levels find the data at one byte:")?;
    for level in 1..=6 {
        match file.start(level) {
            Ok(start) => println!(rt; "level {level}: data at {start}")?,
            Err(fault) => rt.println(Refused(fault))?,
        }
    }
    Ok(())
}

/// The numbers of row 4 of cell 2, as a reader of that level sees them.
fn row_numbers(file: &WorkingFile<'_>, level: usize) -> Result<[u32; 8], Fault> {
    let mut numbers = [0u32; 8];
    let (cell, row) = (2, 4);
    file.numbers(RowAt { level, cell, row }, &mut numbers)?;
    Ok(numbers)
}

/// The bit patterns of numbers, each after a space.
#[derive(Drop)]
struct Patterns([u32; 8]);

impl fmt::Display for Patterns {
    fn fmt<W: fmt::Write>(&self, f: &mut fmt::Formatter<W>) -> fmt::Result {
        for pattern in &self.0 {
            write!(f, " {pattern:08x}")?;
        }
        Ok(())
    }
}

/// Prints numbers by their bit patterns, or why they are refused.
fn print_numbers(rt: &HostRuntime, when: &str, numbers: Result<[u32; 8], Fault>) -> io::Result<()> {
    match numbers {
        Ok(numbers) => {
            let patterns = Patterns(numbers);
            println!(rt; "{when}:{patterns}")
        }
        Err(fault) => rt.println(Outcome(when, Err(fault))),
    }
}

/// Compares the numbers of a row before and after.
fn compare_rows(
    rt: &HostRuntime,
    before: Result<[u32; 8], Fault>,
    after: Result<[u32; 8], Fault>,
) -> io::Result<()> {
    rt.println(
        "7. Row 4 of cell 2, the cross spectrum of antennas 1 and 2, as a reader of level 4 saw it after the draft and one of level 6 sees it now:",
    )?;
    print_numbers(rt, "before", before)?;
    print_numbers(rt, "after", after)?;
    rt.println(if before == after {
        "These are the same numbers. Nothing is saved."
    } else {
        "These are other numbers. Nothing is saved."
    })
}

/// Does the task in a buffer, step by step.
pub fn show_task(rt: &HostRuntime) -> io::Result<()> {
    let mut buffer = [0u8; 600];
    rt.println(
        "1. A station's file of version 4 is drafted, with two range cells of four Doppler bins and no quality, and judged:",
    )?;
    let size = match draft_station(&mut buffer) {
        Ok(size) => size,
        Err(fault) => return rt.println(Outcome("draft", Err(fault))),
    };
    judge_bytes(rt, "the draft", buffer.get(..size).unwrap_or(&[]))?;
    let mut file = WorkingFile::make(&mut buffer, size);
    let before = row_numbers(&file, 4);
    fill_file(rt, &mut file)?;
    correct_file(rt, &mut file)?;
    print_starts(rt, &file)?;
    compare_rows(rt, before, row_numbers(&file, 6))
}
