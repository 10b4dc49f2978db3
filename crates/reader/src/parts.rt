//! Rows and texts as parts of the lent bytes.
ghost use Rattle.std.specs.Prelude.{◌≡◌, Ok, Err, MatchResult};
ghost use Rattle.reader.specs.Answers.{row_part, text_part};
ghost use Rattle.reader.specs.Judged.{judged_bytes};

use crate::file::JudgedFile;
use crate::rows::RowAt;
use faults::Fault;
use kinds::Kind;

impl<'a> JudgedFile<'a> {
    /// The bytes of a row, as a part of the file's; refuses as `row` does.
    pub fn row_part(&self, at: RowAt) -> Result<&'a [u8], Fault>
        ensures { MatchResult result (λ p.
            row_part (judged_bytes self.now) at.level at.cell at.row
            ≡ Ok p.now) (λ f. row_part (judged_bytes self.now) at.level at.cell at.row ≡ Err f) }
    {
        let (place, length) = self.row(at)?;
        let bytes = self.bytes;
        Ok(&bytes[place..place + length])
    }

    /// The bytes of a block's text, the block being read as a kind, as a part of the file's;
    /// refuses as `look` does.
    pub fn text_part<K: Kind>(&self, number: usize) -> Result<&'a [u8], Fault>
        ensures { MatchResult result (λ p. text_part K.kind (judged_bytes self.now) number
            ≡ Ok p.now) (λ f. text_part K.kind (judged_bytes self.now) number ≡ Err f) }
    {
        let reading = self.look::<K>(number)?;
        let bytes = self.bytes;
        Ok(&bytes[reading.text..reading.text + reading.length])
    }
}
