//! Kutsvame: judges, reads, drafts and edits SeaSonde cross spectra files.
#![tactic(auto)]

mod arguments;
mod blocks_shown;
mod calls_shown;
mod change_verbs;
mod command_error;
mod draft_verb;
mod example;
mod help;
mod judge;
mod progress;
mod row;
mod run_verb;
mod show;
mod task;

use arguments::Verb;
use change_verbs::{add_verb, raise_verb};
use command_error::CommandError;
use draft_verb::draft_verb;
use example::show_example;
use help::{help_for, help_text};
use judge::judge_files;
use row::row_verb;
use run_verb::run_verb;
use show::show_verb;
use std::process::ExitCode;
use std::{env, io};
use task::show_task;

/// Prints the help text, or its part for the verb that an argument names.
fn help_verb<'a>(rt: &HostRuntime, arguments: &'a [String]) -> Result<(), CommandError<'a>> {
    match arguments {
        [] => rt.print(help_text(rt.alloc())?)?,
        [argument] => match Verb::named(argument.as_str()) {
            Some(verb) => rt.print(help_for(verb))?,
            None => return Err(CommandError::Misused("unknown word", argument.as_str())),
        },
        _ => return Err(CommandError::Misused("wrong count of words", "help")),
    }
    Ok(())
}

/// Does what the arguments ask.
fn run<'a>(rt: &HostRuntime, arguments: &'a [String]) -> Result<(), CommandError<'a>> {
    let Some((argument, others)) = arguments.split_first() else {
        show_task(rt)?;
        show_example(rt)?;
        return Ok(());
    };
    match Verb::named(argument.as_str()) {
        Some(Verb::Judge) if others.is_empty() => {
            Err(CommandError::Misused("no file is named", argument.as_str()))
        }
        Some(Verb::Judge) => judge_files(rt, others),
        Some(Verb::Show) => show_verb(rt, others),
        Some(Verb::Row) => row_verb(rt, others),
        Some(Verb::Draft) => draft_verb(rt, others),
        Some(Verb::Run) => run_verb(rt, others),
        Some(Verb::Raise) => raise_verb(rt, others),
        Some(Verb::Add) => add_verb(rt, others),
        Some(Verb::Help) => help_verb(rt, others),
        None => Err(CommandError::Misused("unknown word", argument.as_str())),
    }
}

fn main(rt: HostRuntime) -> io::Result<ExitCode> {
    let arguments: Vec<String> = env::args(&rt)?.skip(1).collect(rt.alloc())?;
    match run(&rt, arguments.as_slice()) {
        Ok(()) => Ok(ExitCode::SUCCESS),
        Err(failure) => failure.report(&rt),
    }
}
