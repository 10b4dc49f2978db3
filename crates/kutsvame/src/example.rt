//! The built-in example file, judged, drafted anew, and amended as a working file.
use crate::arguments::LEVEL;
use crate::blocks_shown::show_blocks;
use crate::calls_shown::Outcome;
use crate::judge::judge_bytes;
use draft::{Drafted, Parts, Start, draft_file};
use editor::{Amended, Amendment, amend};
use examples::{example_file, example_with_extent, example_with_section};
use faults::Fault;
use printed::{FieldLine, Refused};
use reader::JudgedFile;
use records::Fill;
use std::io;
use texts::Zone;

/// Judges file M, M with extent 2 one too small, and M with its section one byte too short.
fn judge_example(rt: &HostRuntime) -> io::Result<()> {
    rt.println(
        "The built-in example file M has 160 bytes. Judged whole, and with one byte changed:",
    )?;
    let files = [
        ("M", example_file()),
        (
            "M with extent 2 = 107 in place of 108",
            example_with_extent(),
        ),
        (
            "M with section size 19 in place of 20",
            example_with_section(),
        ),
    ];
    for (name, bytes) in files {
        judge_bytes(rt, name, &bytes)?;
    }
    Ok(())
}

/// Prints what the calls of an amendment answered; how many bytes the file has then.
fn print_amended(rt: &HostRuntime, amended: Amended) -> io::Result<usize> {
    rt.println(Outcome("load", amended.loaded))?;
    rt.println(Outcome("raise", amended.raised))?;
    rt.println(Outcome("set", amended.changed))?;
    rt.println(Outcome("store", amended.stored))?;
    rt.println(Outcome("add", amended.added))?;
    rt.println(Outcome("carry", amended.carried))?;
    rt.println(Outcome("lengthen", amended.lengthened))?;
    rt.println(Outcome("replace", amended.replaced))?;
    rt.println(Outcome("remove", amended.removed))?;
    Ok(amended.size)
}

/// Prints where a reader of each level finds the data, and what it sees of field 4.
fn print_levels(rt: &HostRuntime, file: &JudgedFile) -> io::Result<()> {
    for level in 1..=6 {
        if let Ok(start) = file.start(level) {
            match file.field(level, 4) {
                Ok(pattern) => {
                    let field = FieldLine::of(4, pattern);
                    println!(rt; "level {level}: data at {start}, {field}")?;
                }
                Err(fault) => {
                    let refused = Refused(fault);
                    println!(rt; "level {level}: data at {start}, field 4 {refused}")?;
                }
            }
        }
    }
    Ok(())
}

/// Amends file M: every edit of a file of the newest version is accepted, and a raise is not.
fn amend_first(buffer: &mut [u8]) -> Amended {
    let by = Amendment {
        file: &example_file(),
        values: &[],
        field: 4,
        value: 60,
        cell: 1,
        row: 1,
        bytes: b"\x3F\x80\0\0",
        added: b"GMT",
        key: *b"NOTE",
        body: b"ebb",
        longer: 2,
        more: &[0, 1],
        other: 1,
        replaced: &[],
        less: 4,
    };
    amend::<Zone, Fill>(buffer, 0, &by, (), fill(8))
}

/// Asks for what is refused.
fn amend_again(buffer: &mut [u8], size: usize) -> Amended {
    let by = Amendment {
        file: &example_with_extent(),
        values: &[],
        field: 11,
        value: 2,
        cell: 1,
        row: 7,
        bytes: b"\x3F\x80\0\0",
        added: b"G\0T",
        key: *b"NOTE",
        body: &[0; 19],
        longer: 4,
        more: &[0, 1],
        other: 3,
        replaced: &[],
        less: 0,
    };
    amend::<Zone, Fill>(buffer, size, &by, (), fill(16))
}

/// The numbers of a FILL block: range cells doubled by the linear method, Doppler bins multiplied
/// by padding.
fn fill(doppler_multiple: u8) -> Fill {
    Fill {
        range_method: 1,
        range_multiple: 2,
        doppler_method: 2,
        doppler_multiple,
    }
}

/// Amends file M, then asks for what is refused, and prints what readers of all levels find.
fn amend_example(rt: &HostRuntime) -> io::Result<()> {
    let mut buffer = [0u8; 200];
    rt.println(
        "M is loaded into a working file with room for 200 bytes. Then, one call after the other: it is to be raised, field 4 set to 60,",
    )?;
    rt.println(
        "row 1 of cell 1 stored, a ZONE and a NOTE put behind its blocks, block 2 given two bytes more, block 1 other numbers, and block 4",
    )?;
    rt.println("taken out:")?;
    let size = print_amended(rt, amend_first(&mut buffer))?;
    rt.println(
        "A damaged copy is loaded over it, and everything else is asked for once more, with what is refused:",
    )?;
    let size = print_amended(rt, amend_again(&mut buffer, size))?;
    println!(rt; "What readers of all levels find then in its {size} bytes:")?;
    let file = JudgedFile::of(buffer.get(..size).unwrap_or(&[]));
    print_levels(rt, &file)?;
    match file.layout() {
        Ok(layout) => show_blocks(rt, &file, layout, LEVEL),
        Err(fault) => rt.println(Refused(fault)),
    }
}

/// Prints what the calls of a draft answered.
fn print_drafted(rt: &HostRuntime, drafted: Drafted) -> io::Result<()> {
    rt.println(Outcome("put", drafted.put))?;
    rt.println(Outcome("carry", drafted.carried))?;
    rt.println(Outcome("lay", drafted.laid))?;
    match drafted.closed {
        Ok(size) => println!(rt; "close: {size} bytes"),
        Err(fault) => rt.println(Outcome("close", Err(fault))),
    }
}

/// Drafts file M from nothing, and compares it with the built-in one.
fn draft_example(rt: &HostRuntime) -> io::Result<()> {
    let m = example_file();
    let mut buffer = [0u8; 160];
    let parts = Parts {
        start: Start {
            version: 6,
            kind: 1,
            bins: 1,
            ranges: 1,
        },
        values: &[0, 0, 0, 0, 0, 0, 0, 0, 0, 1, 0, 0, 0, 0, 0, 0],
        text: &[],
        key: *b"XTRA",
        body: &[],
        cell: &m[124..],
    };
    rt.println(
        "M is drafted from nothing: begun with its header, FILL put, XTRA carried, turned to its cell, that laid, and closed:",
    )?;
    match draft_file::<Fill>(&mut buffer, &parts, fill(4)) {
        Ok(drafted) => print_drafted(rt, drafted)?,
        Err(fault) => rt.println(Outcome("begin", Err(fault)))?,
    }
    rt.println(if buffer == m {
        "These are the bytes of M."
    } else {
        "These are other bytes than those of M."
    })
}

/// Judges the example file and its damaged copies, drafts it anew, and amends it.
pub fn show_example(rt: &HostRuntime) -> io::Result<()> {
    judge_example(rt)?;
    draft_example(rt)?;
    amend_example(rt)
}
