//! What each kind measures and writes at its lengths and limits.
use super::{FILL, RCVI, SUPI};
use crate::files::lay;
use crate::questions::{Answer, Numbers, wanted};
use crate::refusals::{Refused, refused_by};
use faults::Fault;
use kinds::Kind;
use records::{Fill, Rcvi, Supi};
use texts::{City, Sitd, Tool, Zone};

/// A record and a text that are measured or written as their kind.
#[derive(Clone, Copy)]
enum Put {
    Fill(Fill, &'static [u8]),
    Rcvi(Rcvi, &'static [u8]),
    Supi(Supi, &'static [u8]),
    Zone(&'static [u8]),
    City(&'static [u8]),
    Tool(&'static [u8]),
    Sitd(&'static [u8]),
}

/// A length, or a refusal.
fn length_or(outcome: Result<usize, Fault>) -> Result<Numbers, Refused> {
    match outcome {
        Ok(length) => Ok([length, 0, 0, 0]),
        Err(fault) => Err(refused_by(fault)),
    }
}

/// Measures a record and a text of a kind.
fn measure_as<K: Kind>(record: K::Record, text: &[u8]) -> Result<Numbers, Refused> {
    length_or(K::measure(record, text))
}

/// Measures a record and a text.
fn measure(what: Put) -> Result<Numbers, Refused> {
    match what {
        Put::Fill(record, text) => measure_as::<Fill>(record, text),
        Put::Rcvi(record, text) => measure_as::<Rcvi>(record, text),
        Put::Supi(record, text) => measure_as::<Supi>(record, text),
        Put::Zone(text) => measure_as::<Zone>((), text),
        Put::City(text) => measure_as::<City>((), text),
        Put::Tool(text) => measure_as::<Tool>((), text),
        Put::Sitd(text) => measure_as::<Sitd>((), text),
    }
}

/// Writes a record and a text of a kind.
fn write_as<K: Kind>(record: K::Record, text: &[u8], out: &mut [u8]) -> Result<Numbers, Refused> {
    length_or(K::write(record, text, out))
}

/// Writes a record and a text.
fn write(what: Put, out: &mut [u8]) -> Result<Numbers, Refused> {
    match what {
        Put::Fill(record, text) => write_as::<Fill>(record, text, out),
        Put::Rcvi(record, text) => write_as::<Rcvi>(record, text, out),
        Put::Supi(record, text) => write_as::<Supi>(record, text, out),
        Put::Zone(text) => write_as::<Zone>((), text, out),
        Put::City(text) => write_as::<City>((), text, out),
        Put::Tool(text) => write_as::<Tool>((), text, out),
        Put::Sitd(text) => write_as::<Sitd>((), text, out),
    }
}

/// What is measured, and its length or the refusal.
#[derive(Clone, Copy)]
struct Measured(Put, Answer);

static MEASURED: [Measured; 10] = [
    Measured(Put::Zone(&[65; 255]), Ok(&[256])),
    Measured(Put::Zone(&[65; 256]), Err((15, 5, 0, 255))),
    Measured(Put::City(b"A\0B"), Err((15, 5, 0, 1))),
    Measured(Put::Tool(b"\0"), Err((15, 5, 0, 0))),
    Measured(Put::Sitd(&[65; 300]), Ok(&[301])),
    Measured(Put::Fill(FILL, b""), Ok(&[4])),
    Measured(Put::Fill(FILL, b"x"), Err((15, 5, 0, 0))),
    Measured(Put::Supi(SUPI, b""), Ok(&[28])),
    Measured(Put::Rcvi(RCVI, &[66; 31]), Ok(&[48])),
    Measured(Put::Rcvi(RCVI, &[66; 32]), Err((15, 5, 0, 31))),
];

#[test]
fn kinds_measure(rt: HostRuntime) {
    for (number, line) in MEASURED.iter().enumerate() {
        let told = measure(line.0);
        assert_eq!(rt; told, wanted(line.1), "line {number}");
    }
}

/// What is written into a room of so many bytes, its length or the refusal, and the bytes, behind
/// which 9 stands.
#[derive(Clone, Copy)]
struct Written(Put, usize, Answer, &'static [u8]);

static WRITTEN: [Written; 6] = [
    Written(Put::Zone(b"EST5"), 6, Ok(&[5]), b"EST5\0"),
    Written(Put::Zone(b"EST5EDT"), 6, Err((22, 5, 0, 8)), b""),
    Written(
        Put::Supi(SUPI, b""),
        30,
        Ok(&[28]),
        &[
            1, 0, 3, 255, 1, 2, 3, 4, 64, 9, 30, 184, 81, 235, 133, 31, 0, 0, 0, 0, 0, 0, 0, 1,
            255, 254, 2, 3,
        ],
    ),
    Written(Put::Supi(SUPI, b""), 27, Err((22, 5, 0, 28)), b""),
    Written(
        Put::Rcvi(RCVI, b"Q"),
        48,
        Ok(&[48]),
        b"AAAAAAAAAAAAAAAAQ\0\0\0\0\0\0\0\0\0\0\0\0\0\0\0\0\0\0\0\0\0\0\0\0\0\0\0\0\0\0\0",
    ),
    Written(Put::Fill(FILL, b""), 4, Ok(&[4]), &[1, 2, 2, 4]),
];

#[test]
fn kinds_write(rt: HostRuntime) {
    for (number, line) in WRITTEN.iter().enumerate() {
        let mut out = [9u8; 60];
        let told = write(line.0, &mut out[..line.1.min(60)]);
        assert_eq!(rt; told, wanted(line.2), "line {number}");
        let mut all = [9u8; 60];
        lay(&mut all, 0, line.3);
        assert_eq!(rt; out, all, "line {number}");
    }
}
