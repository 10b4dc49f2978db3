//! A client of the draft: a whole file of one cell, whose contract is said by the content of the
//! accepted calls.
ghost use Rattle.std.specs.Prelude.{◌≡◌, [], ◌∷◌, IfOk, IfErr};
ghost use Rattle.format.specs.Checks.{passed};
ghost use Rattle.kinds.specs.Kind.{payload};
ghost use Rattle.format.specs.InBuffer.{capacity};
ghost use Rattle.draft.specs.Drafts.{put, carried, lay, begun_content, begin_outcome};
ghost use Rattle.draft.specs.Law.{called, turned, closing, content_of_run, IsEnded};

use crate::stages::BlockStage;
use crate::start::Start;
use faults::Fault;
use kinds::Kind;

/// What goes into a file of one cell, beside a record.
#[derive(Clone, Copy)]
pub struct Parts<'b> {
    /// What the draft begins with.
    pub start: Start,
    /// The values of the fields that do not steer the layout, in order.
    pub values: &'b [u32],
    /// The text of the block that is put.
    pub text: &'b [u8],
    /// The key of the block that is carried.
    pub key: [u8; 4],
    /// Its data.
    pub body: &'b [u8],
    /// The bytes of the cell.
    pub cell: &'b [u8],
}

/// What came of it: the answer of each call.
#[derive(Drop)]
pub struct Drafted {
    /// The answer of putting a block that a kind writes.
    pub put: Result<(), Fault>,
    /// The answer of carrying a block.
    pub carried: Result<(), Fault>,
    /// The answer of laying the cell.
    pub laid: Result<(), Fault>,
    /// The answer of closing the draft: how many bytes the file has.
    pub closed: Result<usize, Fault>,
}

/// Drafts a file from begin to close, each call once, whatever those before it answered; refuses as
/// begin does. The buffer then begins with what the format writes for the content of the accepted
/// calls, and if the draft was closed, judging accepts it with that content.
pub fn draft_file<K: Kind>(
    buffer: &mut [u8],
    parts: &Parts<'_>,
    value: K::Record,
) -> Result<Drafted, Fault>
    ensures answer { passed result
        ≡ passed (begin_outcome (capacity buffer.old) parts.now.start parts.now.values.now) }
    ensures refused { IfErr result (λ f. buffer.new ≡ buffer.old) }
    ensures drafted { IfOk result (λ r.
        IsEnded (content_of_run (begun_content parts.now.start parts.now.values.now) (
        called (put (payload K.kind (K.numbers value) parts.now.text.now)) r.put
        ∷ called (carried parts.now.key parts.now.body.now) r.carried
        ∷ turned
        ∷ called (lay parts.now.cell.now) r.laid
        ∷ closing r.closed
        ∷ [])) r.closed buffer.new) }
{
    let mut draft = BlockStage::begin(buffer, parts.start, parts.values)?;
    let put = draft.put::<K>(buffer, value, parts.text);
    let carried = draft.carry(buffer, parts.key, parts.body);
    let (draft, laid) = draft.turn().lay(buffer, parts.cell);
    let closed = match draft.close() {
        Ok(size) => Ok(size),
        Err(refused) => {
            let (fault, draft) = refused;
            draft.give_up();
            Err(fault)
        }
    };
    Ok(Drafted {
        put,
        carried,
        laid,
        closed,
    })
}
