//! The verb judge: a line for each file.
ghost use Rattle.std.specs.Prelude.{◌≡◌, IfOk, string_bytes};
ghost use Rattle.format.specs.Judging.{judged};
ghost use Rattle.kutsvame.specs.Lines.{keys_of, verdict_text};
ghost use Rattle.printed.specs.Keys.{keys_text};
ghost use Rattle.reader.specs.Walk.{entries_left};

use crate::command_error::CommandError;
use crate::progress::Progress;
use calls::read_file;
use faults::Fault;
use format::{Layout, judge};
use printed::Key;
use reader::{Heads, JudgedFile};
use std::alloc::{AllocError, Global};
use std::io;

/// The first and the last byte of a key that are printed as themselves: `!` and `~`.
const FIRST: u8 = 33;

const LAST: u8 = 126;

/// The keys of the blocks that a walk meets, as `: FILL, XTRA`; nothing where it meets none.
fn walked_keys(heap: Global, blocks: Heads) -> Result<String, AllocError>
    ensures { IfOk result (λ s. string_bytes s ≡ keys_text FIRST LAST (entries_left blocks.entry)) }
{
    let mut blocks = blocks;
    let Some(first) = blocks.next() else {
        return Ok(String::new(heap));
    };
    let key = Key::<FIRST, LAST>(first.key);
    let mut list = format!(in heap; ": {key}")?;
    for entry in blocks {
        let key = Key::<FIRST, LAST>(entry.key);
        let more = format!(in heap; ", {key}")?;
        list.push_str(more.as_str())?;
    }
    Ok(list)
}

/// The keys of the blocks of a file that was judged so.
#[tactic(auto, using(crate::proofs::Blocks::walked_whole, crate::proofs::Blocks::not_walked))]
fn block_keys(
    heap: Global,
    bytes: &[u8],
    verdict: Result<Layout, Fault>,
) -> Result<String, AllocError>
    requires { verdict ≡ judged bytes.now }
    ensures { IfOk result (λ s. string_bytes s ≡ keys_of bytes.now verdict) }
{
    if verdict.is_err() {
        return Ok(String::new(heap));
    }
    match JudgedFile::of(bytes).blocks() {
        Ok(blocks) => walked_keys(heap, blocks),
        Err(_) => Ok(String::new(heap)),
    }
}

/// The line for a file of that name: its layout and the keys of its blocks, or the rule that it
/// breaks.
fn verdict_line(
    heap: Global,
    name: &str,
    verdict: Result<Layout, Fault>,
    keys: &str,
) -> Result<String, AllocError>
    ensures { IfOk result (λ s. string_bytes s ≡ verdict_text name.now verdict keys.now) }
{
    match verdict {
        Ok(layout) => format!(in heap; "{name}: accepted: {layout}{keys}"),
        Err(fault) => format!(in heap; "{name}: {fault}"),
    }
}

/// Judges the bytes of a file and prints the line for it; whether the file is accepted.
pub fn judge_bytes(rt: &HostRuntime, name: &str, bytes: &[u8]) -> io::Result<bool> {
    let heap = rt.alloc();
    let verdict = judge(bytes);
    let keys = block_keys(heap, bytes, verdict)?;
    rt.println(verdict_line(heap, name, verdict, keys.as_str())?)?;
    Ok(verdict.is_ok())
}

/// Prints the line for a file; whether it is read and accepted.
fn judge_file(rt: &HostRuntime, name: &str) -> io::Result<bool> {
    match read_file(rt, name) {
        Ok(bytes) => judge_bytes(rt, name, bytes.as_slice()),
        Err(error) => {
            rt.println(error)?;
            Ok(false)
        }
    }
}

/// Prints a line for each file; fails, once all are judged, if one of them is refused or cannot be
/// read.
pub fn judge_files<'a>(rt: &HostRuntime, names: &'a [String]) -> Result<(), CommandError<'a>> {
    let mut outcome = Ok(());
    let mut progress = Progress::start(rt);
    for name in names {
        if progress.is_due(rt) {
            let _ = eprintln!(rt; "kutsvame: {name}");
        }
        if !judge_file(rt, name.as_str())? {
            outcome = Err(CommandError::Reported);
        }
    }
    outcome
}
