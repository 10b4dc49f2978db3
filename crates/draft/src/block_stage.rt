//! The first stage of a draft: it is begun, and its blocks are put and carried, until it is turned
//! to its cells.
ghost use Rattle.std.specs.Prelude.{◌≡◌, ◌+◌, ◌-◌, ◌≤◌, length, IfOk, Ok};
ghost use Rattle.format.specs.Checks.{passed};
ghost use Rattle.format.specs.Content.{Content};
ghost use Rattle.kinds.specs.Kind.{most_written, output_length, payload, payload_output};
ghost use Rattle.reader.specs.Levels.{blocks_present};
ghost use Rattle.editor.specs.Edits.{add, carry};
ghost use Rattle.editor.specs.Calls.{edit};
ghost use Rattle.format.specs.InBuffer.{most_bytes, capacity};
ghost use Rattle.editor.specs.Law.{IsGiven};
ghost use Rattle.draft.specs.Drafts.{put, carried, begun_content, begin_outcome};
ghost use Rattle.draft.specs.Law.{IsDraftOf, DraftLaw, IsFollowing};
ghost use Rattle.draft.specs.Stages.{of_blocks, of_cells, draft_state, grown_numbers, end_with_block, block_room_answer, step_answer, draft_after, begun_buffer};
ghost use Rattle.draft.specs.steps.Blocks.{with_head};

use crate::header::put_header;
use crate::stages::{BlockStage, CellStage};
use crate::start::Start;
use buffers::write_bytes;
use faults::{Fault, Refusal};
use format::{BlockHead, SECTION_BEGIN};
use headers::write_following;
use kinds::{Kind, write_at};

impl BlockStage {
    /// Begins a draft: writes its header into the buffer, with the values for the fields that do
    /// not steer the layout, in order. Refuses 2 for another version than 4 to 6, 5 for bins
    /// outside 1 to 32768, 6 for cells outside 1 to 8192, 17, with the count wanted, for another
    /// count of values, and 32, with the header's length, for more than the capacity; all of these
    /// are of the call.
    ///
    /// Its contract has the law of drafts: whatever is called on the draft and the buffer from here
    /// on, what stands in the buffer is what the format writes for the content of the accepted
    /// calls, and a closed draft is a file that judging accepts with that content.
    pub fn begin(buffer: &mut [u8], start: Start, values: &[u32]) -> Result<BlockStage, Fault>
        ensures answer { passed result
            ≡ passed (begin_outcome (capacity buffer.old) start values.now) }
        ensures buffer { buffer.new
            ≡ begun_buffer buffer.old (begin_outcome (capacity buffer.old) start values.now) }
        ensures stage { IfOk result (λ s. IsDraftOf (begun_content start values.now) (of_blocks s)) }
        ensures law { IfOk result (λ s.
            DraftLaw (begun_content start values.now) (draft_state (of_blocks s) buffer.new)) }
    {
        start.check(values.len())?;
        let draft = start.draft();
        draft.check_room(buffer, 0)?;
        put_header(buffer, start, values);
        Ok(BlockStage { draft })
    }

    /// Refuses 33 below version 6.
    fn check_version(&self) -> Result<(), Fault>
        ensures refuses { result ≡ blocks_present self.now.draft.version }
        ensures late { IfOk result (λ _. self.now.draft.version ≡ 6) }
    {
        if self.draft.version < 6 {
            return Err(Fault::at(Refusal::VersionLacksIt, 0));
        }
        Ok(())
    }

    /// Refuses 33 below version 6, and 32, with the bytes that the draft would have, where a block
    /// with so many bytes of data would exceed the capacity.
    fn check_room(&self, buffer: &[u8], body: usize) -> Result<(), Fault>
        requires { body ≤ most_written }
        ensures refuses { result
            ≡ block_room_answer (draft_state (of_blocks self.now) buffer.now) (Ok body) }
        ensures late { IfOk result (λ _. self.now.draft.version ≡ 6) }
        ensures inside { IfOk result (λ _.
            (end_with_block (of_blocks self.now) body ≤ length buffer.now)
            × (end_with_block (of_blocks self.now) body ≤ most_bytes)) }
    {
        self.check_version()?;
        self.draft.check_room(buffer, BlockHead::SIZE + body)
    }

    /// How many bytes of data a block of a kind has; refuses 33 below version 6, 15 as the kind
    /// does, and 32.
    fn body_to_put<K: Kind>(
        &self,
        buffer: &[u8],
        value: K::Record,
        text: &[u8],
    ) -> Result<usize, Fault>
        ensures refuses { passed result
            ≡ step_answer (put (payload K.kind (K.numbers value) text.now)) (draft_state (of_blocks self.now) buffer.now) }
        ensures late { IfOk result (λ _. self.now.draft.version ≡ 6) }
        ensures body { IfOk result (λ n. Ok n
            ≡ output_length (payload_output (payload K.kind (K.numbers value) text.now))) }
        ensures inside { IfOk result (λ n.
            (end_with_block (of_blocks self.now) n ≤ length buffer.now)
            × (end_with_block (of_blocks self.now) n ≤ most_bytes)) }
    {
        self.check_version()?;
        let size = K::measure(value, text)?;
        self.draft.check_room(buffer, BlockHead::SIZE + size)?;
        Ok(size)
    }

    /// Writes the head of a block with so many bytes of data behind what is written so far, and
    /// what follows from it in the header; where its data are to stand.
    fn open(&mut self, buffer: &mut [u8], key: [u8; 4], body: usize) -> usize
        requires late { self.old.draft.version ≡ 6 }
        requires inside { end_with_block (of_blocks self.old) body ≤ length buffer.old }
        requires small { end_with_block (of_blocks self.old) body ≤ most_bytes }
        ensures place { result ≡ self.old.draft.size + 8 }
        ensures stage { of_blocks self.new
            ≡ grown_numbers (of_blocks self.old) (end_with_block (of_blocks self.old) body) 0 }
        ensures buffer { buffer.new ≡ with_head buffer.old (of_blocks self.old) key body }
    {
        let at = self.draft.size;
        let size = at + (BlockHead::SIZE + body);
        let _ = write_following(buffer, 6, size, (size - SECTION_BEGIN) as u32);
        let head = BlockHead {
            key,
            size: body as u32,
        };
        let _ = head.write(buffer, at);
        self.draft = self.draft.grown(size);
        at + BlockHead::SIZE
    }

    /// Puts a block that a kind writes behind the last one; refuses 33 below version 6, 15 as the
    /// kind does, and 32, with the bytes that the draft would have, for more than the capacity.
    pub fn put<K: Kind>(
        &mut self,
        buffer: &mut [u8],
        value: K::Record,
        text: &[u8],
    ) -> Result<(), Fault>
        ensures given { IfOk result (λ _.
            IsGiven (edit (add (payload K.kind (K.numbers value) text.now)))) }
        ensures answer { result
            ≡ step_answer (put (payload K.kind (K.numbers value) text.now)) (draft_state (of_blocks self.old) buffer.old) }
        ensures after { draft_state (of_blocks self.new) buffer.new
            ≡ draft_after (put (payload K.kind (K.numbers value) text.now)) (draft_state (of_blocks self.old) buffer.old) }
        ensures content { (c : Content) → IsDraftOf c (of_blocks self.old)
            → IsFollowing (put (payload K.kind (K.numbers value) text.now)) (draft_state (of_blocks self.old) buffer.old) c }
    {
        let body = self.body_to_put::<K>(buffer, value, text)?;
        let place = self.open(buffer, K::key(), body);
        let _ = write_at::<K>(buffer, place, value, text);
        Ok(())
    }

    /// Puts a block with that key and those data, unjudged, behind the last one; refuses 33 below
    /// version 6, and 32, with the bytes that the draft would have, for more than the capacity.
    pub fn carry(&mut self, buffer: &mut [u8], key: [u8; 4], body: &[u8]) -> Result<(), Fault>
        ensures given { IsGiven (edit (carry key body.now)) }
        ensures answer { result
            ≡ step_answer (carried key body.now) (draft_state (of_blocks self.old) buffer.old) }
        ensures after { draft_state (of_blocks self.new) buffer.new
            ≡ draft_after (carried key body.now) (draft_state (of_blocks self.old) buffer.old) }
        ensures content { (c : Content) → IsDraftOf c (of_blocks self.old)
            → IsFollowing (carried key body.now) (draft_state (of_blocks self.old) buffer.old) c }
    {
        self.check_room(buffer, body.len())?;
        let place = self.open(buffer, key, body.len());
        let _ = write_bytes(buffer, place, body);
        Ok(())
    }

    /// Ends the blocks: from here on cells are laid. Nothing is written.
    pub fn turn(self) -> CellStage
        ensures { of_cells result ≡ of_blocks self }
    {
        let BlockStage { draft } = self;
        CellStage { draft, laid: 0 }
    }

    /// Ends the draft without a file. What was written into the buffer stays there.
    pub fn give_up(self) {
        let BlockStage { draft: _ } = self;
    }
}
