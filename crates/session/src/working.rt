//! The working file of a run, in a buffer of its own, over which each call makes one anew.
ghost use Rattle.std.specs.Prelude.{◌≡◌, length, take, drop, IfOk};
ghost use Rattle.editor.specs.Calls.{made_state, file};
ghost use Rattle.session.specs.Work.{working_size, working_buffer, file_held};
ghost use Rattle.session.specs.LineCalls.{AnswersQuestion};
ghost use Rattle.script.specs.Rest.{rest_of};

use crate::edits::edit;
use crate::names::{Edit, Question};
use crate::questions::ask;
use calls::{CallError, Outcome, Room};
use editor::WorkingFile;
use faults::Fault;
use script::Arguments;
use std::alloc::Global;

/// A buffer that holds a file at its start, or none.
#[derive(Drop)]
pub struct Working {
    room: Room,
    size: usize,
}

/// How many bytes the file has in the first `size` bytes of a buffer; 0 where they are none.
fn size_of_file(buffer: &mut [u8], size: usize) -> usize
    ensures { result ≡ length (file (made_state buffer.old size)) }
{
    WorkingFile::make(buffer, size).bytes().len()
}

impl Working {
    /// A buffer that holds the file in its first `size` bytes, if they are one.
    pub fn of(mut room: Room, size: usize) -> Working {
        let size = size_of_file(room.bytes.as_mut_slice(), size);
        Working { room, size }
    }

    /// How many bytes the file has; 0 where there is none.
    pub fn size(&self) -> usize
        ensures { result ≡ working_size self.now }
    {
        self.size
    }

    /// The bytes of the file; none where there is none.
    pub fn file(&self) -> &[u8] {
        self.room.bytes.get(..self.size).unwrap_or(&[])
    }

    /// The bytes of the buffer from a place on, so many or as many as there are.
    pub fn bytes(&self, from: usize, count: usize) -> &[u8]
        ensures { result.now ≡ take count (drop from (working_buffer self.now)) }
    {
        let rest = self.room.bytes.get(from..).unwrap_or(&[]);
        rest.get(..count).unwrap_or(rest)
    }

    /// Makes an edit, once.
    fn edit_once<'a>(
        &mut self,
        rt: &HostRuntime,
        call: Edit,
        arguments: Arguments<'a>,
    ) -> Result<Result<(), Fault>, CallError<'a>> {
        let mut file = WorkingFile::make(self.room.bytes.as_mut_slice(), self.size);
        let answer = edit(rt, &mut file, call, arguments)?;
        self.size = file.bytes().len();
        Ok(answer)
    }

    /// Makes an edit; makes it again where it was refused for want of room and the buffer may grow.
    pub fn edit<'a>(
        &mut self,
        rt: &HostRuntime,
        call: Edit,
        arguments: Arguments<'a>,
    ) -> Result<Outcome, CallError<'a>> {
        let answer = self.edit_once(rt, call, arguments)?;
        if self.room.grow(answer)? {
            return Ok(self.edit_once(rt, call, arguments)?.into());
        }
        Ok(answer.into())
    }

    /// Answers a question.
    pub fn ask<'a>(
        &mut self,
        heap: Global,
        question: Question,
        arguments: Arguments<'a>,
    ) -> Result<Outcome, CallError<'a>>
        ensures { IfOk result (AnswersQuestion question (file_held self.old) (rest_of arguments.entry)) }
    {
        let file = WorkingFile::make(self.room.bytes.as_mut_slice(), self.size);
        ask(heap, &file, question, arguments)
    }
}
