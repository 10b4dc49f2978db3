//! What is read of a working file: every question of a judged file, asked of the bytes that the
//! file has now.
ghost use Rattle.std.specs.Prelude.{◌≡◌, length};
ghost use Rattle.editor.specs.Calls.{view, file};
ghost use Rattle.reader.specs.Judged.{judged_bytes};
ghost use Rattle.reader.specs.Laws.{ReadFile};
ghost use Rattle.reader.specs.Answers.{version_answer, start_answer, field_answer, row_answer, numbers_answer, numbers_list, block_answer, table_answer, table_list, reading_sight, look_answer};

use crate::working::{WorkingFile, file_in};
use faults::Fault;
use kinds::{Kind, Reading};
use reader::{Entry, JudgedFile, RowAt};

impl<'a> WorkingFile<'a> {
    /// The file, judged as it is now.
    pub(crate) fn judged(&self) -> JudgedFile<'_>
        ensures bytes { judged_bytes result ≡ file (view self.now) }
        ensures read { ReadFile (file (view self.now)) }
    {
        JudgedFile::of(self.bytes())
    }

    /// The bytes of the file, of which there are none where there is no file.
    pub fn bytes(&self) -> &[u8]
        ensures { result.now ≡ file (view self.now) }
    {
        file_in(self.buffer, self.size)
    }

    /// The file's version; refuses 31.
    pub fn version(&self) -> Result<u16, Fault>
        ensures { result ≡ version_answer (file (view self.now)) }
    {
        self.judged().version()
    }

    /// Where a reader of that level finds the data; refuses 31, then 19.
    pub fn start(&self, level: usize) -> Result<usize, Fault>
        ensures { result ≡ start_answer (file (view self.now)) level }
    {
        self.judged().start(level)
    }

    /// The pattern of a field; refuses as a judged file does.
    pub fn field(&self, level: usize, number: usize) -> Result<u32, Fault>
        ensures { result ≡ field_answer (file (view self.now)) level number }
    {
        self.judged().field(level, number)
    }

    /// Place and length of a row in the file.
    pub fn row(&self, at: RowAt) -> Result<(usize, usize), Fault>
        ensures { result ≡ row_answer (file (view self.now)) at.level at.cell at.row }
    {
        self.judged().row(at)
    }

    /// Copies a row's 32-bit patterns to the start of the list, the rest of which stays.
    pub fn numbers(&self, at: RowAt, list: &mut [u32]) -> Result<(), Fault>
        ensures answer { result
            ≡ numbers_answer (file (view self.now)) at.level at.cell at.row (length list.old) }
        ensures list { list.new
            ≡ numbers_list (file (view self.now)) at.level at.cell at.row list.old }
    {
        self.judged().numbers(at, list)
    }

    /// The entry of a block.
    pub fn block(&self, level: usize, number: usize) -> Result<Entry, Fault>
        ensures { result ≡ block_answer (file (view self.now)) level number }
    {
        self.judged().block(level, number)
    }

    /// A block read as a kind.
    pub fn look<K: Kind>(&self, number: usize) -> Result<Reading<K::Record>, Fault>
        ensures { reading_sight K.numbers result
            ≡ look_answer K.kind (file (view self.now)) number }
    {
        self.judged().look::<K>(number)
    }

    /// The entries of all blocks, at the start of the table, the rest of which stays.
    pub fn table(&self, table: &mut [Entry]) -> Result<usize, Fault>
        ensures answer { result ≡ table_answer (file (view self.now)) (length table.old) }
        ensures table { table.new ≡ table_list (file (view self.now)) table.old }
    {
        self.judged().table(table)
    }
}
