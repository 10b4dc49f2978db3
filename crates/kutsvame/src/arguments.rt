//! The arguments of the command line.
ghost use Rattle.kutsvame.specs.Verbs.{NamesVerb};

/// What the program is asked to do.
#[derive(Clone, Copy, PartialEq, Eq, Debug)]
pub enum Verb {
    /// Judge the files that the other arguments name.
    Judge,
    /// Show the header and the blocks of a file.
    Show,
    /// Print the numbers of a row.
    Row,
    /// Make a new file from a script.
    Draft,
    /// Make the calls of a script.
    Run,
    /// Write a file anew in the next version.
    Raise,
    /// Write a file anew with one block more.
    Add,
    /// Print the help text.
    Help,
}

impl Verb {
    /// The verb that an argument names.
    pub fn named(argument: &str) -> Option<Verb>
        ensures { NamesVerb argument.now result }
    {
        match argument {
            "judge" => Some(Verb::Judge),
            "show" => Some(Verb::Show),
            "row" => Some(Verb::Row),
            "draft" => Some(Verb::Draft),
            "run" => Some(Verb::Run),
            "raise" => Some(Verb::Raise),
            "add" => Some(Verb::Add),
            "help" | "--help" | "-h" => Some(Verb::Help),
            _ => None,
        }
    }
}

/// The level of a reader that is given none: the highest.
pub const LEVEL: usize = 6;

/// The arguments before a last `--force`, and whether it is there.
pub fn split_force(arguments: &[String]) -> (&[String], bool) {
    match arguments.split_last() {
        Some((last, others)) if last.as_str() == "--force" => (others, true),
        _ => (arguments, false),
    }
}
