//! Reading at a level: each answer and each refusal of the judged file, on M and on files of early versions.
use crate::files::File::{Early, M, MWith, MWithExtent};
use crate::files::{File, lay_file};
use crate::questions::Question::{
    Block, Field, Fill, List, Listed, LookFill, LookLoca, LookZone, Numbers, Row, Start, Table,
    Version,
};
use crate::questions::{Answer, Question, ask_judged, told, wanted};
use crate::refusals::{Refused, Told, refused_by};
use faults::Fault;
use reader::{JudgedFile, RowAt};
use std::process::Abort;
use texts::Zone;

const NO_FILE: Refused = (31, 5, 0, 0);

const LEVEL: Refused = (19, 5, 0, 0);

const FIELD: Refused = (18, 5, 0, 0);

const ABOVE_THE_LEVEL: Refused = (20, 5, 0, 0);

const VERSION_LACKS_IT: Refused = (33, 5, 0, 0);

const CELL_OR_ROW: Refused = (16, 5, 0, 0);

const NO_SUCH_BLOCK: Refused = (34, 5, 0, 0);

/// A question about a file, and its answer.
#[derive(Clone, Copy)]
struct Asked(File, Question, Answer);

/// Asks the questions of a table, each of a file that is judged anew.
fn ask_all(rt: &impl Abort, table: &[Asked], name: &str) {
    for (number, asked) in table.iter().enumerate() {
        let mut bytes = [255u8; 200];
        let size = lay_file(&mut bytes, asked.0).min(200);
        let told = told(ask_judged(&JudgedFile::of(&bytes[..size]), asked.1));
        assert_eq!(rt; told, wanted(asked.2), "{name}, line {number}");
    }
}

static REFUSED: [Asked; 9] = [
    Asked(MWithExtent, Version, Err(NO_FILE)),
    Asked(MWithExtent, Start(7), Err(NO_FILE)),
    Asked(MWithExtent, Field(0, 0), Err(NO_FILE)),
    Asked(MWithExtent, Row(0, 0, 0), Err(NO_FILE)),
    Asked(MWithExtent, Numbers(0, 0, 0, 2), Err(NO_FILE)),
    Asked(MWithExtent, List(0, 0, 0, 2), Ok(&[5, 5, 5])),
    Asked(MWithExtent, Block(0, 0), Err(NO_FILE)),
    Asked(MWithExtent, LookFill(0), Err(NO_FILE)),
    Asked(MWithExtent, Table(0), Err(NO_FILE)),
];

static STARTS: [Asked; 9] = [
    Asked(M, Version, Ok(&[6])),
    Asked(M, Start(1), Ok(&[124])),
    Asked(M, Start(2), Ok(&[124])),
    Asked(M, Start(3), Ok(&[124])),
    Asked(M, Start(4), Ok(&[124])),
    Asked(M, Start(5), Ok(&[124])),
    Asked(M, Start(6), Ok(&[124])),
    Asked(M, Start(0), Err(LEVEL)),
    Asked(M, Start(7), Err(LEVEL)),
];

static FIELDS: [Asked; 11] = [
    Asked(M, Field(2, 2), Ok(&[1])),
    Asked(M, Field(6, 19), Ok(&[3])),
    Asked(M, Field(7, 0), Err(LEVEL)),
    Asked(M, Field(6, 0), Err(FIELD)),
    Asked(M, Field(1, 21), Err(FIELD)),
    Asked(M, Field(1, 2), Err(ABOVE_THE_LEVEL)),
    Asked(M, Field(4, 15), Err(ABOVE_THE_LEVEL)),
    Asked(Early, Field(1, 1), Ok(&[7])),
    Asked(Early, Field(4, 12), Ok(&[2])),
    Asked(Early, Field(5, 15), Err(VERSION_LACKS_IT)),
    Asked(Early, Field(4, 15), Err(ABOVE_THE_LEVEL)),
];

static ROWS: [Asked; 15] = [
    Asked(Early, Row(4, 1, 1), Ok(&[80, 4])),
    Asked(Early, Row(5, 1, 4), Ok(&[92, 8])),
    Asked(Early, Row(6, 1, 7), Ok(&[116, 4])),
    Asked(Early, Row(6, 2, 6), Ok(&[148, 8])),
    Asked(Early, Row(0, 1, 1), Err(LEVEL)),
    Asked(Early, Row(3, 9, 1), Err((37, 5, 0, 0))),
    Asked(Early, Row(4, 0, 1), Err(CELL_OR_ROW)),
    Asked(Early, Row(4, 3, 1), Err(CELL_OR_ROW)),
    Asked(Early, Row(4, 1, 0), Err(CELL_OR_ROW)),
    Asked(Early, Row(4, 1, 8), Err(CELL_OR_ROW)),
    Asked(M, Row(6, 1, 6), Ok(&[152, 8])),
    Asked(Early, Numbers(4, 1, 4, 1), Err((22, 5, 0, 2))),
    Asked(Early, List(4, 1, 4, 1), Ok(&[5, 5, 5])),
    Asked(Early, Numbers(4, 1, 4, 3), Ok(&[])),
    // bytes 92 to 99: 0x5C5D5E5F and 0x60616263
    Asked(Early, List(4, 1, 4, 3), Ok(&[1549622879, 1616994915, 5])),
];

static BLOCKS: [Asked; 20] = [
    // FILL is 0x46494C4C, XTRA 0x58545241
    Asked(M, Block(6, 1), Ok(&[1179208780, 104, 4])),
    Asked(M, Block(6, 2), Ok(&[1481921089, 116, 0])),
    Asked(M, Block(0, 1), Err(LEVEL)),
    Asked(M, Block(5, 9), Err(ABOVE_THE_LEVEL)),
    Asked(M, Block(6, 0), Err(NO_SUCH_BLOCK)),
    Asked(M, Block(6, 3), Err(NO_SUCH_BLOCK)),
    Asked(M, Table(1), Err((22, 5, 0, 2))),
    Asked(M, Table(3), Ok(&[2])),
    Asked(M, Listed(3, 0), Ok(&[1179208780, 104, 4])),
    Asked(M, Listed(3, 1), Ok(&[1481921089, 116, 0])),
    Asked(M, Listed(3, 2), Ok(&[5, 5, 5])),
    Asked(Early, Block(6, 1), Err(VERSION_LACKS_IT)),
    Asked(Early, LookFill(1), Err(VERSION_LACKS_IT)),
    Asked(Early, Table(0), Ok(&[0])),
    Asked(M, LookFill(1), Ok(&[112, 0, 4])),
    Asked(M, Fill(1), Ok(&[1, 2, 2, 4])),
    Asked(M, LookLoca(1), Err((12, 4, 1, 104))),
    Asked(M, LookFill(2), Err((12, 4, 2, 116))),
    Asked(M, LookFill(3), Err(NO_SUCH_BLOCK)),
    Asked(
        MWith(b"ZONE\0\0\0\x04GMTZXTRA\0\0\0\0"),
        LookZone(1),
        Err((14, 4, 1, 112)),
    ),
];

#[test]
fn questions_at_every_level(rt: HostRuntime) {
    ask_all(&rt, &REFUSED, "refused bytes");
    ask_all(&rt, &STARTS, "starts");
    ask_all(&rt, &FIELDS, "fields");
    ask_all(&rt, &ROWS, "rows");
    ask_all(&rt, &BLOCKS, "blocks");
}

/// A part of a file that is handed out: the bytes of a row, or the text of a block of that kind.
#[derive(Clone, Copy)]
enum Part {
    Row(usize, usize, usize),
    FillText(usize),
    ZoneText(usize),
}

/// Hands out a part.
fn hand_out<'a>(file: &JudgedFile<'a>, part: Part) -> Result<&'a [u8], Fault> {
    match part {
        Part::Row(level, cell, row) => file.row_part(RowAt { level, cell, row }),
        Part::FillText(number) => file.text_part::<records::Fill>(number),
        Part::ZoneText(number) => file.text_part::<Zone>(number),
    }
}

/// A part of a file, the bytes that are handed out, and what is told of a refusal.
#[derive(Clone, Copy)]
struct Handed(File, Part, &'static [u8], Told);

static PARTS: [Handed; 7] = [
    Handed(Early, Part::Row(4, 2, 7), &[156, 157, 158, 159], None),
    Handed(M, Part::Row(6, 1, 7), b"", Some(CELL_OR_ROW)),
    Handed(MWithExtent, Part::Row(0, 0, 0), b"", Some(NO_FILE)),
    Handed(MWithExtent, Part::ZoneText(0), b"", Some(NO_FILE)),
    Handed(M, Part::FillText(1), b"", None),
    Handed(
        MWith(b"ZONE\0\0\0\x04GMT\0XTRA\0\0\0\0"),
        Part::ZoneText(1),
        b"GMT",
        None,
    ),
    Handed(
        MWith(b"ZONE\0\0\0\x04GMTZXTRA\0\0\0\0"),
        Part::ZoneText(1),
        b"",
        Some((14, 4, 1, 112)),
    ),
];

/// What is handed out, with no bytes where it is refused.
fn told_of(outcome: Result<&[u8], Fault>) -> (&[u8], Told) {
    match outcome {
        Ok(bytes) => (bytes, None),
        Err(fault) => (b"", Some(refused_by(fault))),
    }
}

#[test]
fn parts_are_handed_out(rt: HostRuntime) {
    for (number, line) in PARTS.iter().enumerate() {
        let mut bytes = [255u8; 200];
        let size = lay_file(&mut bytes, line.0).min(200);
        let file = JudgedFile::of(&bytes[..size]);
        let (part, told) = told_of(hand_out(&file, line.1));
        assert_eq!(rt; part, line.2, "line {number}");
        assert_eq!(rt; told, line.3, "line {number}");
    }
}
