//! Runs of the working file as data: calls in order, what each answers, and the whole buffer behind them.
use crate::files::{File, lay, lay_file};
use crate::questions::{Answer, Numbers, Question, ask_working, told, wanted};
use crate::refusals::{Refused, Told, refused_by};
use editor::WorkingFile;
use faults::Fault;
use records::{Fill, Loca, Rcvi};
use std::process::Abort;
use texts::Zone;

/// A record and a text, of a kind.
#[derive(Clone, Copy)]
pub enum Put {
    Fill(Fill, &'static [u8]),
    Loca(Loca, &'static [u8]),
    Rcvi(Rcvi, &'static [u8]),
    Zone(&'static [u8]),
}

/// A call of the working file that may change it.
#[derive(Clone, Copy)]
pub enum Call {
    Load(File),
    Set(usize, u32),
    Store(usize, usize, &'static [u8]),
    Add(Put),
    Carry([u8; 4], &'static [u8]),
    Lengthen(usize, &'static [u8]),
    Replace(usize, Put),
    Remove(usize),
    Raise(&'static [u32]),
}

/// Adds what a kind writes.
fn add(file: &mut WorkingFile<'_>, put: Put) -> Result<(), Fault> {
    match put {
        Put::Fill(record, text) => file.add::<Fill>(record, text),
        Put::Loca(record, text) => file.add::<Loca>(record, text),
        Put::Rcvi(record, text) => file.add::<Rcvi>(record, text),
        Put::Zone(text) => file.add::<Zone>((), text),
    }
}

/// Replaces what a kind wrote.
fn replace(file: &mut WorkingFile<'_>, number: usize, put: Put) -> Result<(), Fault> {
    match put {
        Put::Fill(record, text) => file.replace::<Fill>(number, record, text),
        Put::Loca(record, text) => file.replace::<Loca>(number, record, text),
        Put::Rcvi(record, text) => file.replace::<Rcvi>(number, record, text),
        Put::Zone(text) => file.replace::<Zone>(number, (), text),
    }
}

/// Loads a file.
fn load(file: &mut WorkingFile<'_>, other: File) -> Result<(), Fault> {
    let mut bytes = [0u8; 200];
    let size = lay_file(&mut bytes, other).min(200);
    file.load(&bytes[..size])
}

/// Makes a call.
fn make(file: &mut WorkingFile<'_>, call: Call) -> Result<(), Fault> {
    match call {
        Call::Load(other) => load(file, other),
        Call::Set(field, value) => file.set(field, value),
        Call::Store(cell, row, bytes) => file.store(cell, row, bytes),
        Call::Add(put) => add(file, put),
        Call::Carry(key, data) => file.carry(key, data),
        Call::Lengthen(number, bytes) => file.lengthen(number, bytes),
        Call::Replace(number, put) => replace(file, number, put),
        Call::Remove(number) => file.remove(number),
        Call::Raise(values) => file.raise(values),
    }
}

/// A call and what it tells of a refusal, or a question and its answer.
#[derive(Clone, Copy)]
pub enum Step {
    Do(Call, Told),
    Ask(Question, Answer),
}

/// A file in a buffer, calls of the working file there, and what they leave.
#[derive(Clone, Copy)]
pub struct Run {
    /// What the run shows.
    pub name: &'static str,
    /// The file at the start of the buffer; 255 stands behind it.
    pub before: File,
    /// How many bytes the buffer has.
    pub room: usize,
    /// The calls and questions, in order.
    pub steps: &'static [Step],
    /// The file that is left.
    pub after: File,
    /// Bytes of it that are given by themselves: their places, and what stands there.
    pub bytes: &'static [(usize, &'static [u8])],
    /// Where a longer file ended: zeros stand up to there, and 255 behind.
    pub zeros: usize,
}

/// A run over file M in a buffer of 200 bytes that leaves all as it was: other runs are told by what differs.
pub const RUN: Run = Run {
    name: "",
    before: File::M,
    room: 200,
    steps: &[],
    after: File::M,
    bytes: &[],
    zeros: 0,
};

/// Takes a step, and tells what is answered; of a call that is not refused, no number.
fn take(file: &mut WorkingFile<'_>, step: Step) -> Result<Numbers, Refused> {
    match step {
        Step::Do(call, _) => match make(file, call) {
            Ok(()) => Ok([0; 4]),
            Err(fault) => Err(refused_by(fault)),
        },
        Step::Ask(question, _) => told(ask_working(file, question)),
    }
}

/// What a step is to tell.
fn wanted_of(step: Step) -> Result<Numbers, Refused> {
    match step {
        Step::Do(_, None) => Ok([0; 4]),
        Step::Do(_, Some(refused)) => Err(refused),
        Step::Ask(_, answer) => wanted(answer),
    }
}

/// Takes the steps in a buffer with a file of that size at its start: each tells what it is to.
pub fn follow(rt: &impl Abort, buffer: &mut [u8], size: usize, steps: &[Step], name: &str) {
    let mut file = WorkingFile::make(buffer, size);
    for (number, step) in steps.iter().enumerate() {
        let told = take(&mut file, *step);
        assert_eq!(rt; told, wanted_of(*step), "{name}, step {number}");
    }
}

/// The whole buffer that a run is to leave.
fn left_by(run: &Run) -> [u8; 200] {
    let mut buffer = [255u8; 200];
    let _ = lay_file(&mut buffer, File::Zeros(run.zeros));
    let _ = lay_file(&mut buffer, run.after);
    for (place, bytes) in run.bytes {
        lay(&mut buffer, *place, bytes);
    }
    buffer
}

/// Takes a run: each step answers what it is to, and every byte of the buffer is as it is to be left.
pub fn take_run(rt: &impl Abort, run: &Run) {
    let mut buffer = [255u8; 200];
    let size = lay_file(&mut buffer, run.before);
    let room = run.room.min(200);
    follow(rt, &mut buffer[..room], size, run.steps, run.name);
    let wanted = left_by(run);
    assert_eq!(rt; buffer, wanted, "{}", run.name);
}
