//! The edits of blocks.
ghost use Rattle.std.specs.Prelude.{◌≡◌, ◌+◌, ◌≤◌, length, IfOk};
ghost use Rattle.kinds.specs.Kind.{most_written, payload};
ghost use Rattle.reader.specs.Judged.{judged_bytes};
ghost use Rattle.reader.specs.Laws.{ReadFile};
ghost use Rattle.editor.specs.Calls.{view, file, edit, call_answer, state_after};
ghost use Rattle.editor.specs.Edits.{add, carry, lengthen, replace, remove};
ghost use Rattle.editor.specs.Law.{IsGiven};
ghost use Rattle.editor.specs.steps.Patches.{IsSmallFile, layout_with_blocks, block_to_edit, patch_of, patch_behind};
ghost use Rattle.editor.specs.steps.Patches.{add_patch, last_patch, longer_patch, replace_patch, less_patch};
ghost use Rattle.editor.specs.steps.Patches.{IsAddPlan, IsCarryPlan, IsLengthenPlan, IsReplacePlan, IsRemovePlan};

use crate::patch::Patch;
use crate::working::WorkingFile;
use buffers::write_bytes;
use faults::{Fault, Refusal};
use format::{BlockHead, Layout, SECTION_BEGIN, check_capacity};
use kinds::{Kind, write_at};
use reader::{Entry, JudgedFile};

impl<'a> WorkingFile<'a> {
    /// The patch of the file at a place; refuses 32, with the length that the file would have.
    fn patch(
        &self,
        layout: Layout,
        at: usize,
        removed: usize,
        added: usize,
        head: usize,
        body: usize,
    ) -> Result<Patch, Fault>
        requires small { IsSmallFile (view self.now) layout }
        requires added { added ≤ 8 + most_written }
        ensures { result ≡ patch_of (view self.now) layout at removed added head body }
    {
        let size = (self.size + added).saturating_sub(removed);
        check_capacity(self.buffer, size)?;
        let start = (layout.start + added).saturating_sub(removed);
        let section = (layout.section + added).saturating_sub(removed);
        Ok(Patch {
            at,
            removed,
            added,
            size,
            start,
            section,
            head,
            body,
        })
    }

    /// The layout of a file that has blocks; refuses 31, and 33 below version 6.
    fn layout_with_blocks(&self) -> Result<Layout, Fault>
        ensures exact { result ≡ layout_with_blocks (view self.now) }
        ensures small { IfOk result (IsSmallFile (view self.now)) }
        ensures read { ReadFile (file (view self.now)) }
    {
        let layout = self.judged().layout()?;
        if layout.version < 6 {
            return Err(Fault::at(Refusal::VersionLacksIt, 0));
        }
        Ok(layout)
    }

    /// The layout of the file, which was judged, and a block of it, by its head; refuses 31, 33
    /// below version 6, and 34 for no such block.
    fn block_to_edit(
        &self,
        judged: &JudgedFile<'_>,
        number: usize,
    ) -> Result<(Layout, Entry), Fault>
        requires same { judged_bytes judged.now ≡ file (view self.now) }
        requires read { ReadFile (file (view self.now)) }
        ensures exact { result ≡ block_to_edit (view self.now) number }
        ensures small { IfOk result (λ found. IsSmallFile (view self.now) found.0) }
        ensures inside { IfOk result (λ found.
            found.1.place + 8 + found.1.size ≤ length (file (view self.now))) }
    {
        let layout = judged.layout()?;
        let entry = judged.block(6, number)?;
        Ok((layout, entry))
    }

    /// The patch for a block with so many bytes of data behind the last one of a file with that
    /// layout; refuses 32.
    fn patch_behind(&self, layout: Layout, body: usize) -> Result<Patch, Fault>
        requires small { IsSmallFile (view self.now) layout }
        requires body { body ≤ most_written }
        ensures { result ≡ patch_behind (view self.now) layout body }
    {
        let end = SECTION_BEGIN + layout.section;
        self.patch(layout, end, 0, BlockHead::SIZE + body, end, body)
    }

    /// The patch for a block behind the last one; refuses 31, 33 below version 6, and 32.
    fn plan_carry(&self, key: [u8; 4], body: &[u8]) -> Result<Patch, Fault>
        ensures patch { result ≡ last_patch (view self.now) (length body.now) }
        ensures planned { IsCarryPlan (view self.now) key body.now result }
    {
        let layout = self.layout_with_blocks()?;
        self.patch_behind(layout, body.len())
    }

    /// Puts a block with that key and those data, unjudged, behind the last one; refuses 31, 33
    /// below version 6, and 32.
    pub fn carry(&mut self, key: [u8; 4], body: &[u8]) -> Result<(), Fault>
        ensures given { IsGiven (edit (carry key body.now)) }
        ensures same { self.new.buffer.ghost_name ≡ self.old.buffer.ghost_name }
        ensures answer { result ≡ call_answer (edit (carry key body.now)) (view self.old) }
        ensures after { view self.new ≡ state_after (edit (carry key body.now)) (view self.old) }
    {
        let patch = self.plan_carry(key, body)?;
        self.begin_block(patch, key);
        let _ = write_bytes(self.buffer, patch.at + BlockHead::SIZE, body);
        Ok(())
    }

    /// The patch for a block of a kind behind the last one; refuses 31, 33 below version 6, 15 as
    /// the kind does, and 32.
    fn plan_add<K: Kind>(&self, value: K::Record, text: &[u8]) -> Result<Patch, Fault>
        ensures patch { result
            ≡ add_patch (view self.now) (payload K.kind (K.numbers value) text.now) }
        ensures planned { IsAddPlan (view self.now) (payload K.kind (K.numbers value) text.now) result }
    {
        let layout = self.layout_with_blocks()?;
        let body = K::measure(value, text)?;
        self.patch_behind(layout, body)
    }

    /// Puts a block that a kind writes behind the last one; refuses 31, 33 below version 6, 15 as
    /// the kind does, and 32.
    pub fn add<K: Kind>(&mut self, value: K::Record, text: &[u8]) -> Result<(), Fault>
        ensures given { IfOk result (λ _.
            IsGiven (edit (add (payload K.kind (K.numbers value) text.now)))) }
        ensures same { self.new.buffer.ghost_name ≡ self.old.buffer.ghost_name }
        ensures answer { result
            ≡ call_answer (edit (add (payload K.kind (K.numbers value) text.now))) (view self.old) }
        ensures after { view self.new
            ≡ state_after (edit (add (payload K.kind (K.numbers value) text.now))) (view self.old) }
    {
        let patch = self.plan_add::<K>(value, text)?;
        self.begin_block(patch, K::key());
        let _ = write_at::<K>(self.buffer, patch.at + BlockHead::SIZE, value, text);
        Ok(())
    }

    /// The patch for more bytes at the end of a block's data; refuses 31, 33 below version 6, 34
    /// for no such block, and 32.
    fn plan_lengthen(&self, number: usize, more: &[u8]) -> Result<Patch, Fault>
        ensures patch { result ≡ longer_patch (view self.now) number (length more.now) }
        ensures planned { IsLengthenPlan (view self.now) number more.now result }
    {
        let (layout, entry) = self.block_to_edit(&self.judged(), number)?;
        let added = more.len();
        let end = entry.place + BlockHead::SIZE + entry.size;
        self.patch(layout, end, 0, added, entry.place, entry.size + added)
    }

    /// Puts more bytes at the end of a block's data; refuses 31, 33 below version 6, 34 for no such
    /// block, and 32.
    pub fn lengthen(&mut self, number: usize, more: &[u8]) -> Result<(), Fault>
        ensures given { IsGiven (edit (lengthen number more.now)) }
        ensures same { self.new.buffer.ghost_name ≡ self.old.buffer.ghost_name }
        ensures answer { result ≡ call_answer (edit (lengthen number more.now)) (view self.old) }
        ensures after { view self.new
            ≡ state_after (edit (lengthen number more.now)) (view self.old) }
    {
        let patch = self.plan_lengthen(number, more)?;
        self.make_room_in_block(patch);
        let _ = write_bytes(self.buffer, patch.at, more);
        Ok(())
    }

    /// The patch that takes out a block; refuses 31, 33 below version 6, and 34 for no such block.
    fn plan_remove(&self, number: usize) -> Result<Patch, Fault>
        ensures patch { result ≡ less_patch (view self.now) number }
        ensures planned { IsRemovePlan (view self.now) number result }
    {
        let (layout, entry) = self.block_to_edit(&self.judged(), number)?;
        self.patch(
            layout,
            entry.place,
            BlockHead::SIZE + entry.size,
            0,
            entry.place,
            0,
        )
    }

    /// Takes out a block, so that the numbers of later ones fall by one; refuses 31, 33 below
    /// version 6, and 34 for no such block.
    pub fn remove(&mut self, number: usize) -> Result<(), Fault>
        ensures given { IsGiven (edit (remove number)) }
        ensures same { self.new.buffer.ghost_name ≡ self.old.buffer.ghost_name }
        ensures answer { result ≡ call_answer (edit (remove number)) (view self.old) }
        ensures after { view self.new ≡ state_after (edit (remove number)) (view self.old) }
    {
        let patch = self.plan_remove(number)?;
        self.make_room(patch);
        Ok(())
    }

    /// The patch for other numbers and another text in a block; refuses as looking at it does, then
    /// 15 as the kind does, and 32.
    fn plan_replace<K: Kind>(
        &self,
        number: usize,
        value: K::Record,
        text: &[u8],
    ) -> Result<Patch, Fault>
        ensures patch { result
            ≡ replace_patch (view self.now) number (payload K.kind (K.numbers value) text.now) }
        ensures planned { IsReplacePlan (view self.now) number (payload K.kind (K.numbers value) text.now) result }
    {
        let judged = self.judged();
        let (layout, entry) = self.block_to_edit(&judged, number)?;
        let seen = judged.look::<K>(number)?;
        let added = K::measure(value, text)?;
        let body = (entry.size + added).saturating_sub(seen.used);
        self.patch(
            layout,
            entry.place + BlockHead::SIZE,
            seen.used,
            added,
            entry.place,
            body,
        )
    }

    /// Puts other numbers and another text into a block of a kind, in the place of the bytes that
    /// the kind used: what a newer writer put behind them stays. Refuses as looking at the block
    /// does (31, 33, 34, 12, and then as the kind), 15 as the kind does, and 32.
    pub fn replace<K: Kind>(
        &mut self,
        number: usize,
        value: K::Record,
        text: &[u8],
    ) -> Result<(), Fault>
        ensures given { IfOk result (λ _.
            IsGiven (edit (replace number (payload K.kind (K.numbers value) text.now)))) }
        ensures same { self.new.buffer.ghost_name ≡ self.old.buffer.ghost_name }
        ensures answer { result
            ≡ call_answer (edit (replace number (payload K.kind (K.numbers value) text.now))) (view self.old) }
        ensures after { view self.new
            ≡ state_after (edit (replace number (payload K.kind (K.numbers value) text.now))) (view self.old) }
    {
        let patch = self.plan_replace::<K>(number, value, text)?;
        self.make_room_in_block(patch);
        let _ = write_at::<K>(self.buffer, patch.at, value, text);
        Ok(())
    }
}
