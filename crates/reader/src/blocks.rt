//! Blocks: one by its number, one read as a kind, and all of them in a table.
ghost use Rattle.std.specs.Prelude.{◌≡◌, ℕ, ◌+◌, ◌-◌, ◌<◌, ◌≤◌, length, Ok, IfOk};
ghost use Rattle.std.specs.Iterator.{YieldsFirst, at_most};
ghost use Rattle.format.specs.Checks.{all_of, ◌then◌};
ghost use Rattle.format.specs.Section.{block_end};
ghost use Rattle.reader.specs.Answers.{block_place, entry_at, entries, entries_from, filled_list, IsBlocksInside, block_answer, table_answer, table_list, reading_sight, look_answer};
ghost use Rattle.reader.specs.Laws.{IsPlaced};
ghost use Rattle.reader.specs.Judged.{judged_bytes};
ghost use Rattle.reader.specs.Levels.{block_conditions};

use crate::file::JudgedFile;
use crate::judged::check_level;
use crate::sight::look_at;
use faults::{Fault, Refusal};
use format::{BlockHead, Layout, SECTION_BEGIN};
use kinds::{Kind, Reading};

/// A block, by its head.
#[derive(Clone, Copy, PartialEq, Eq, Debug)]
pub struct Entry {
    /// The key, as the big-endian number of its four bytes.
    pub key: u32,
    /// Where the block begins.
    pub place: usize,
    /// The size of its data.
    pub size: usize,
}

/// The entry of the block that begins at a place.
fn read_entry(bytes: &[u8], at: usize) -> Entry
    ensures { result ≡ entry_at bytes.now at }
{
    let BlockHead { key, size } = BlockHead::read(bytes, at);
    Entry {
        key: u32::from_be_bytes(key),
        place: at,
        size: size as usize,
    }
}

/// The blocks that are left from a place on, one behind the other: a walk over their heads.
#[derive(Drop)]
pub struct Heads<'a> {
    bytes: &'a [u8],
    at: usize,
    left: usize,
    ghost inside: { IsBlocksInside bytes.now at left },
}

impl<'a> Iterator for Heads<'a> {
    type Item = Entry;

    ghost next_gives = { YieldsFirst (λ heads. entries_from heads.bytes.now heads.at heads.left) };

    ghost remaining = { λ heads. at_most heads.left };

    fn next(&mut self) -> Option<Entry> {
        self.left = self.left.checked_sub(1)?;
        let entry = read_entry(self.bytes, self.at);
        self.at += BlockHead::SIZE + entry.size;
        Some(entry)
    }
}

impl<'a> Heads<'a> {
    /// Puts the entries of the blocks at the start of the table.
    fn list(self, table: &mut [Entry])
        requires { self.left ≤ length table.old }
        ensures { table.new
            ≡ filled_list (entries_from self.entry.bytes.now self.entry.at self.entry.left) table.old }
    {
        for (i, entry) in self.enumerate() {
            table[i] = entry;
        }
    }
}

impl<'a> JudgedFile<'a> {
    /// The heads of all blocks.
    pub(crate) fn heads(&self, layout: Layout) -> Heads<'a>
        requires { IsPlaced (judged_bytes self.now) layout }
        ensures all { entries_from result.bytes.now result.at result.left
            ≡ entries (judged_bytes self.now) layout.blocks }
        ensures count { result.left ≡ layout.blocks }
    {
        Heads {
            bytes: self.bytes,
            at: SECTION_BEGIN,
            left: layout.blocks,
        }
    }

    /// The entry of a block; refuses 33 below version 6, and 34 for no such block.
    fn entry(&self, layout: Layout, number: usize) -> Result<Entry, Fault>
        requires { IsPlaced (judged_bytes self.now) layout }
        ensures exact { result
            ≡ (all_of (block_conditions layout.version layout.blocks number) then
            Ok (entry_at (judged_bytes self.now) (block_place (judged_bytes self.now) (number - 1)))) }
        ensures inside { IfOk result (λ entry.
            block_end (judged_bytes self.now) entry.place ≤ length (judged_bytes self.now)) }
    {
        if layout.version < 6 {
            return Err(Fault::at(Refusal::VersionLacksIt, 0));
        }
        let none = Fault::at(Refusal::NoSuchBlock, 0);
        // A block past the last is refused with no walk over the others.
        if number > layout.blocks {
            return Err(none);
        }
        let before = number.checked_sub(1).ok_or(none)?;
        self.heads(layout).nth(before).ok_or(none)
    }

    /// The entry of a block, for a reader of that level; refuses 31, 19, 20 below level 6, 33 below
    /// version 6, and 34 for no such block.
    pub fn block(&self, level: usize, number: usize) -> Result<Entry, Fault>
        ensures { result ≡ block_answer (judged_bytes self.now) level number }
    {
        let layout = self.layout()?;
        check_level(level)?;
        if level < 6 {
            return Err(Fault::at(Refusal::LevelTooLow, 0));
        }
        self.entry(layout, number)
    }

    /// The entries of all blocks, at the start of the table, the rest of which stays; answers their
    /// count, 0 below version 6. Refuses 31, then 22, with the count wanted, for a table that is
    /// too short.
    pub fn table(&self, table: &mut [Entry]) -> Result<usize, Fault>
        ensures answer { result ≡ table_answer (judged_bytes self.now) (length table.old) }
        ensures table { table.new ≡ table_list (judged_bytes self.now) table.old }
    {
        let layout = self.layout()?;
        if layout.blocks > table.len() {
            return Err(Fault::at(Refusal::ListOrTableTooShort, layout.blocks));
        }
        self.heads(layout).list(table);
        Ok(layout.blocks)
    }

    /// A block read as a kind: its record, its text as a place and a length in the file, and the
    /// bytes used. Refuses 31, 33 below version 6, 34 for no such block, 12 for another key, and
    /// then as the kind does.
    #[tactic(auto, using(crate::proofs::Sights::look_shown))]
    pub fn look<K: Kind>(&self, number: usize) -> Result<Reading<K::Record>, Fault>
        ensures answer { reading_sight K.numbers result
            ≡ look_answer K.kind (judged_bytes self.now) number }
        ensures inside { IfOk result (λ v. v.text + v.length ≤ length (judged_bytes self.now)) }
    {
        let layout = self.layout()?;
        let entry = self.entry(layout, number)?;
        look_at::<K>(self.bytes, entry.place, number)
    }
}
