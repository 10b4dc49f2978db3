//! What each kind reads at its lengths and limits, and the records that are read.
use super::{RCVI, SUPI, seen_or};
use crate::files::put;
use crate::questions::{Answer, Numbers, wanted};
use crate::refusals::Refused;
use kinds::Kind;
use records::{Fill, Fwin, Glrm, Loca, Rcvi, Supi, Time};
use std::test::Fail;
use texts::{City, Sitd, Tool, Zone};

/// A kind, by its key.
#[derive(Clone, Copy)]
enum Of {
    Time,
    Loca,
    Rcvi,
    Glrm,
    Supi,
    Fwin,
    Fill,
    Zone,
    City,
    Tool,
    Sitd,
}

/// Reads bytes as a kind: where the text begins, how long it is, and how many bytes are used.
fn read_as<K: Kind>(bytes: &[u8]) -> Result<Numbers, Refused> {
    seen_or(K::read(bytes))
}

/// Reads bytes as the kind of that key.
fn read_by_key(kind: Of, bytes: &[u8]) -> Result<Numbers, Refused> {
    match kind {
        Of::Time => read_as::<Time>(bytes),
        Of::Loca => read_as::<Loca>(bytes),
        Of::Rcvi => read_as::<Rcvi>(bytes),
        Of::Glrm => read_as::<Glrm>(bytes),
        Of::Supi => read_as::<Supi>(bytes),
        Of::Fwin => read_as::<Fwin>(bytes),
        Of::Fill => read_as::<Fill>(bytes),
        Of::Zone => read_as::<Zone>(bytes),
        Of::City => read_as::<City>(bytes),
        Of::Tool => read_as::<Tool>(bytes),
        Of::Sitd => read_as::<Sitd>(bytes),
    }
}

/// A kind, how many bytes it is given, the place of the only zero among them, and its answer.
#[derive(Clone, Copy)]
struct Read(Of, usize, usize, Answer);

/// No zero among the bytes.
const NONE: usize = 300;

static READ: [Read; 33] = [
    // a record at its exact length, one byte short, and with bytes behind it
    Read(Of::Time, 31, NONE, Ok(&[0, 0, 31])),
    Read(Of::Time, 30, NONE, Err((13, 4, 0, 30))),
    Read(Of::Time, 64, NONE, Ok(&[0, 0, 31])),
    Read(Of::Loca, 24, NONE, Ok(&[0, 0, 24])),
    Read(Of::Loca, 23, NONE, Err((13, 4, 0, 23))),
    Read(Of::Loca, 64, NONE, Ok(&[0, 0, 24])),
    Read(Of::Glrm, 39, NONE, Ok(&[0, 0, 39])),
    Read(Of::Glrm, 38, NONE, Err((13, 4, 0, 38))),
    Read(Of::Glrm, 64, NONE, Ok(&[0, 0, 39])),
    Read(Of::Supi, 28, NONE, Ok(&[0, 0, 28])),
    Read(Of::Supi, 27, NONE, Err((13, 4, 0, 27))),
    Read(Of::Supi, 64, NONE, Ok(&[0, 0, 28])),
    Read(Of::Fwin, 18, NONE, Ok(&[0, 0, 18])),
    Read(Of::Fwin, 17, NONE, Err((13, 4, 0, 17))),
    Read(Of::Fwin, 64, NONE, Ok(&[0, 0, 18])),
    Read(Of::Fill, 4, NONE, Ok(&[0, 0, 4])),
    Read(Of::Fill, 3, NONE, Err((13, 4, 0, 3))),
    Read(Of::Fill, 64, NONE, Ok(&[0, 0, 4])),
    // the firmware of a receiver: 32 bytes from 16 on, with a zero
    Read(Of::Rcvi, 50, NONE, Err((14, 4, 0, 16))),
    Read(Of::Rcvi, 50, 48, Err((14, 4, 0, 16))),
    Read(Of::Rcvi, 50, 47, Ok(&[16, 31, 48])),
    Read(Of::Rcvi, 47, 47, Err((13, 4, 0, 47))),
    // a text with its zero among the first 256 bytes, but for SITD
    Read(Of::Zone, 300, NONE, Err((14, 4, 0, 0))),
    Read(Of::Zone, 300, 256, Err((14, 4, 0, 0))),
    Read(Of::City, 300, 256, Err((14, 4, 0, 0))),
    Read(Of::Tool, 300, 256, Err((14, 4, 0, 0))),
    Read(Of::Sitd, 300, 256, Ok(&[0, 256, 257])),
    Read(Of::Zone, 300, 255, Ok(&[0, 255, 256])),
    Read(Of::City, 300, 255, Ok(&[0, 255, 256])),
    Read(Of::Tool, 300, 255, Ok(&[0, 255, 256])),
    Read(Of::Zone, 255, 255, Err((14, 4, 0, 0))),
    Read(Of::Sitd, 0, NONE, Err((14, 4, 0, 0))),
    Read(Of::Zone, 5, 3, Ok(&[0, 3, 4])),
];

#[test]
fn kinds_read_at_their_lengths(rt: HostRuntime) {
    for (number, line) in READ.iter().enumerate() {
        let mut bytes = [65u8; 300];
        put(&mut bytes, line.2, [0]);
        let told = read_by_key(line.0, &bytes[..line.1.min(300)]);
        assert_eq!(rt; told, wanted(line.3), "line {number}");
    }
}

#[test]
fn records_are_read(rt: HostRuntime) -> Result<(), Fail> {
    let supi = [
        1, 0, 3, 255, 1, 2, 3, 4, 64, 9, 30, 184, 81, 235, 133, 31, 0, 0, 0, 0, 0, 0, 0, 1, 255,
        254, 2, 3,
    ];
    assert_eq!(rt; <Supi as Kind>::read(&supi)?.record, SUPI);
    let mut rcvi = [65u8; 48];
    rcvi[47] = 0;
    assert_eq!(rt; <Rcvi as Kind>::read(&rcvi)?.record, RCVI);
    let bytes = [
        1, 7, 234, 11, 17, 22, 51, 64, 62, 0, 0, 0, 0, 0, 0, 64, 172, 32, 0, 0, 0, 0, 0, 192, 28,
        0, 0, 0, 0, 0, 0, 81,
    ];
    let time = Time {
        mark: 1,
        year: 2026,
        month: 11,
        day: 17,
        hour: 22,
        minute: 51,
        seconds: 4629137466983448576,
        coverage: 4660134898793709568,
        utc: 13842939354630062080,
    };
    assert_eq!(rt; <Time as Kind>::read(&bytes)?.record, time);
    Ok(())
}
