//! Editing under C names.
ghost use Rattle.std.specs.Prelude.{◌≡◌};
ghost use Rattle.buffers.specs.Words.{be32};
ghost use Rattle.editor.specs.Calls.{made_state, edit, call_answer, state_after};
ghost use Rattle.editor.specs.Edits.{carry};
ghost use Rattle.exports.specs.Editing.{refusal_number};

use editor::WorkingFile;

/// Puts a block with those data behind the last block of the file in the first `size` bytes of the
/// buffer; the key is a word, its first letter the highest byte. Answers 0, and the file has then 8
/// bytes and those of the data more; or the number of the refusal, and the buffer stays as it was:
/// 31 if the bytes are no file, 33 below version 6, 32 if the buffer has no room.
#[unsafe(no_mangle)]
pub extern "C" fn kutsvame_carry(buffer: &mut [u8], size: usize, key: u32, body: &[u8]) -> u8
    ensures answer { result
        ≡ refusal_number (call_answer (edit (carry (be32 key) body.now)) (made_state buffer.old size)) }
    ensures buffer { buffer.new
        ≡ (state_after (edit (carry (be32 key) body.now)) (made_state buffer.old size)).buffer }
{
    match WorkingFile::make(buffer, size).carry(key.to_be_bytes(), body) {
        Ok(()) => 0,
        Err(fault) => fault.refusal.number(),
    }
}
