//! The calls that a line of a run can make, by their names.
ghost use Rattle.session.specs.Names.{NamesEdit, NamesQuestion, NamesOfFile, NamesCall};

/// An edit of the working file.
#[derive(Clone, Copy, PartialEq, Eq, Debug)]
pub enum Edit {
    /// Take over other bytes as the file.
    Load,
    /// Set a field.
    Set,
    /// Store a row.
    Store,
    /// Put a block of a kind after the last one.
    Add,
    /// Put a block of any key after the last one.
    Carry,
    /// Put more bytes at the end of a block's data.
    Lengthen,
    /// Put other numbers and another text into a block of a kind.
    Replace,
    /// Take out a block.
    Remove,
    /// Give the file the next version.
    Raise,
}

/// A question about the working file.
#[derive(Clone, Copy, PartialEq, Eq, Debug)]
pub enum Question {
    /// Its version.
    Version,
    /// Where a reader of a level finds the data.
    Start,
    /// The pattern of a field.
    Field,
    /// Place and length of a row.
    Row,
    /// The patterns of a row.
    Numbers,
    /// A block, by its head.
    Block,
    /// A block read as a kind.
    Look,
    /// All blocks, by their heads.
    Table,
}

/// A call of a run.
#[derive(Clone, Copy, PartialEq, Eq, Debug)]
pub enum Call {
    /// Judge bytes.
    Judge,
    /// Make the working buffer.
    Make,
    /// Begin a draft.
    Begin,
    /// Write the working file under a name.
    Save,
    /// The bytes of the working buffer.
    Bytes,
    /// An edit of the working file.
    Change(Edit),
    /// A question about the working file.
    Ask(Question),
    /// Any other name, which may be one of a draft's calls.
    Other,
}

impl Edit {
    /// The edit that an argument names. Its name for taking out a block is `drop`.
    pub fn named(argument: &str) -> Option<Edit>
        ensures { NamesEdit argument.now result }
    {
        match argument {
            "load" => Some(Edit::Load),
            "set" => Some(Edit::Set),
            "store" => Some(Edit::Store),
            "add" => Some(Edit::Add),
            "carry" => Some(Edit::Carry),
            "lengthen" => Some(Edit::Lengthen),
            "replace" => Some(Edit::Replace),
            "drop" => Some(Edit::Remove),
            "raise" => Some(Edit::Raise),
            _ => None,
        }
    }
}

impl Question {
    /// The question that an argument names.
    pub fn named(argument: &str) -> Option<Question>
        ensures { NamesQuestion argument.now result }
    {
        match argument {
            "version" => Some(Question::Version),
            "start" => Some(Question::Start),
            "field" => Some(Question::Field),
            "row" => Some(Question::Row),
            "numbers" => Some(Question::Numbers),
            "block" => Some(Question::Block),
            "look" => Some(Question::Look),
            "table" => Some(Question::Table),
            _ => None,
        }
    }
}

/// The edit or the question that an argument names.
fn of_file(argument: &str) -> Call
    ensures { NamesOfFile argument.now result }
{
    match (Edit::named(argument), Question::named(argument)) {
        (Some(edit), _) => Call::Change(edit),
        (None, Some(question)) => Call::Ask(question),
        (None, None) => Call::Other,
    }
}

impl Call {
    /// The call that an argument names.
    pub fn named(argument: &str) -> Call
        ensures { NamesCall argument.now result }
    {
        match argument {
            "judge" => Call::Judge,
            "make" => Call::Make,
            "begin" => Call::Begin,
            "save" => Call::Save,
            "bytes" => Call::Bytes,
            _ => of_file(argument),
        }
    }
}
