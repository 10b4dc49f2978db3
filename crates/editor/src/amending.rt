//! A client of the working file: a whole amendment, whose contract is said in the ledger's words
//! alone.
ghost use Rattle.std.specs.Prelude.{◌≡◌};
ghost use Rattle.kinds.specs.Kind.{payload};
ghost use Rattle.editor.specs.Amending.{amended_ledger};
ghost use Rattle.editor.specs.Calls.{work_state, load, edit};
ghost use Rattle.editor.specs.Edits.{set, store, add, carry, lengthen, replace, remove, raise};
ghost use Rattle.editor.specs.Ledger.{begun_ledger};
ghost use Rattle.editor.specs.Law.{ReadsAs, called};

use crate::working::WorkingFile;
use faults::Fault;
use kinds::Kind;

/// What is to be done with a working file, beside the records: one load, and each of the eight
/// edits once.
#[derive(Clone, Copy)]
pub struct Amendment<'b> {
    /// The bytes that are loaded as the file.
    pub file: &'b [u8],
    /// The values with which it is raised.
    pub values: &'b [u32],
    /// The number of the field that is set.
    pub field: usize,
    /// Its new value.
    pub value: u32,
    /// The cell of the row that is stored.
    pub cell: usize,
    /// The number of the row in the cell.
    pub row: usize,
    /// The row's new bytes.
    pub bytes: &'b [u8],
    /// The text of the block that is added.
    pub added: &'b [u8],
    /// The key of the block that is carried.
    pub key: [u8; 4],
    /// The data of the block that is carried.
    pub body: &'b [u8],
    /// The number of the block that is lengthened.
    pub longer: usize,
    /// The bytes that it gets.
    pub more: &'b [u8],
    /// The number of the block that is replaced.
    pub other: usize,
    /// The text of the block that is replaced.
    pub replaced: &'b [u8],
    /// The number of the block that is removed.
    pub less: usize,
}

/// What came of it: how many bytes the file has then, 0 if there is none, and what each call
/// answered.
#[derive(Drop)]
pub struct Amended {
    /// How many bytes the file has.
    pub size: usize,
    /// The answer of loading the bytes.
    pub loaded: Result<(), Fault>,
    /// The answer of raising the file.
    pub raised: Result<(), Fault>,
    /// The answer of setting the field.
    pub changed: Result<(), Fault>,
    /// The answer of storing the row.
    pub stored: Result<(), Fault>,
    /// The answer of adding a block that a kind writes.
    pub added: Result<(), Fault>,
    /// The answer of carrying a block.
    pub carried: Result<(), Fault>,
    /// The answer of lengthening a block.
    pub lengthened: Result<(), Fault>,
    /// The answer of replacing a block.
    pub replaced: Result<(), Fault>,
    /// The answer of removing a block.
    pub removed: Result<(), Fault>,
}

/// Amends the file in the first `size` bytes of the buffer, or the one that is loaded over it: a
/// block of the kind A gets the first record, and one of the kind B the second. Each call is made,
/// whatever those before it answered; what is read of the buffer afterwards is what the ledger of
/// the calls tells.
pub fn amend<A: Kind, B: Kind>(
    buffer: &mut [u8],
    size: usize,
    by: &Amendment<'_>,
    first: A::Record,
    second: B::Record,
) -> Amended
    ensures { ReadsAs (amended_ledger (begun_ledger buffer.old size)
        (called (load by.now.file.now) result.loaded)
        (called (edit (raise by.now.values.now)) result.raised)
        (called (edit (set by.now.field by.now.value)) result.changed)
        (called (edit (store by.now.cell by.now.row by.now.bytes.now)) result.stored)
        (called (edit (add (payload A.kind (A.numbers first) by.now.added.now))) result.added)
        (called (edit (carry by.now.key by.now.body.now)) result.carried)
        (called (edit (lengthen by.now.longer by.now.more.now)) result.lengthened)
        (called (edit (replace by.now.other (payload B.kind (B.numbers second) by.now.replaced.now))) result.replaced)
        (called (edit (remove by.now.less)) result.removed)) (work_state buffer.new result.size) }
{
    let mut file = WorkingFile::make(buffer, size);
    let loaded = file.load(by.file);
    let raised = file.raise(by.values);
    let changed = file.set(by.field, by.value);
    let stored = file.store(by.cell, by.row, by.bytes);
    let added = file.add::<A>(first, by.added);
    let carried = file.carry(by.key, by.body);
    let lengthened = file.lengthen(by.longer, by.more);
    let replaced = file.replace::<B>(by.other, second, by.replaced);
    let removed = file.remove(by.less);
    Amended {
        size: file.size,
        loaded,
        raised,
        changed,
        stored,
        added,
        carried,
        lengthened,
        replaced,
        removed,
    }
}
