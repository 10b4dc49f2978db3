//! The help text, in parts.
use crate::arguments::Verb;
use std::alloc::{AllocError, Global};

const USAGE: &str = "\
Kutsvame judges, reads, drafts and edits SeaSonde cross spectra files (CODAR's Cross Spectra File Format).

usage:
  kutsvame                           do a task from start to end on built-in data, and try the example file M
  kutsvame judge FILE...             judge each file and print a line for it
  kutsvame show FILE [LEVEL]         print the sizes, fields and blocks of a file
  kutsvame row FILE CELL ROW [LEVEL] print the numbers of a row, one to a line
  kutsvame draft OUT VERSION KIND BINS RANGES VALUE... [--force]
                                     write a new file from a script on standard input
  kutsvame run SCRIPT                make the calls of a script, and print a line for each
  kutsvame raise IN OUT VALUE... [--force]
                                     write a file anew in the next version
  kutsvame add IN OUT KIND NUMBER... [TEXT] [--force]
                                     write a file anew with one block more
  kutsvame help [VERB]               print this text, or the part of it for one verb
";

const JUDGE: &str = "\
judge: a line says what a sound file holds, or which rule the file breaks and where:
  a.cs: accepted: version 6, 31 range cells of 512 Doppler bins, quality, data at 124, 2 blocks: FILL, XTRA
  b.cs: refused 4: extents disagree (header), place 12
";

const SHOW: &str = "\
show: LEVEL is one of 1 to 6, the version of the format that the reader knows; it is 6 if none is given. What a reader of
that level sees is printed: where the data begin, the sizes, the fields, and each block as its kind reads it.
";

const ROW: &str = "\
row: cells and rows count from 1. Rows 1 to 3 are self spectra, 4 to 6 cross spectra, and 7 is quality. A line has a
number's bit pattern and its value:
  41480000 12.5
";

const DRAFT: &str = "\
draft: a draft begins with a version from 4 to 6, the value of field 2, the counts of Doppler bins and range cells, and
the values of the other fields in order, those that steer the layout left out. Its script has one call to a line:
  put KIND NUMBER... [TEXT]          put a block of a kind, by its record's numbers in order and its text
  put-raw KEY BYTES                  put a block of any key
  turn                               turn from the blocks to the cells
  lay BYTES                          lay the next cell
  close                              close the draft
A KIND is a block's key, as TIME. TEXT, KEY and BYTES are x and hexadecimal digits, a text in quotes, or @ and the path of a
file that has the bytes. Floating point numbers are written as their bit patterns. A line that begins with # is a comment.
Each call has a line that says its line's number in the script, its name, and ok or why it is refused; the begin has 0:
  3 put refused 15 layer 5 block 0 place 255
OUT is judged and written once the script has ended behind a close and if no call was refused; in place of a file that
is there already only with --force.
";

const RUN: &str = "\
run: the lines of SCRIPT are as those of a draft. Its calls, behind which stands what ok is followed by:
  judge BYTES                        version V start D blocks B
  make CAPACITY BYTES                a buffer that begins with BYTES: file LENGTH, or no file
  load BYTES, add KIND NUMBER... [TEXT], carry KEY BYTES, lengthen BLOCK BYTES, replace BLOCK KIND NUMBER... [TEXT],
  drop BLOCK, set FIELD VALUE, store CELL ROW BYTES, raise VALUE...
                                     edits of the file in the buffer: nothing
  version, start LEVEL, field LEVEL FIELD
                                     the number
  row LEVEL CELL ROW                 place and length
  numbers LEVEL CELL ROW ROOM        the numbers' bit patterns, by way of a list of ROOM numbers
  block LEVEL BLOCK                  key, place and size
  look BLOCK KIND                    used U text PLACE LENGTH, and the record's numbers
  table ROOM                         the count, and key, place and size of each block, by way of a table of ROOM entries
  bytes FROM COUNT                   the buffer's bytes
  begin CAPACITY VERSION KIND BINS RANGES VALUE..., put, put-raw, turn, lay, close
                                     a draft in a buffer of its own; behind close, which says the length, it is the file
  save PATH [--force]                write the file: its length
A refused call changes nothing, and the run goes on. A line that is no call ends it, and the status is 1.
";

const RAISE: &str = "\
raise: IN is raised to the next version, with the values of the fields that it gets, in order: none from version 1, 1
from version 2, 8 from version 3, 5 from version 4, none from version 5. The new file is OUT:
  out.cs: raised from version 4 to 5, 136 bytes
";

const ADD: &str = "\
add: a block of a kind is put behind the last one of IN; its words are as in a script. The new file is OUT:
  out.cs: ZONE added as block 3, 176 bytes
";

const STATUS: &str = "\
The status is 0 if all was done, and 1 if a file was refused, could not be read or was not written, if a question about
it was refused, or if the words name nothing that the program does.
";

/// The parts of the help text, in order; a blank line stands between two.
const PARTS: [&str; 9] = [USAGE, JUDGE, SHOW, ROW, DRAFT, RUN, RAISE, ADD, STATUS];

/// The part of the help text for a verb.
pub fn help_for(verb: Verb) -> &'static str {
    match verb {
        Verb::Judge => JUDGE,
        Verb::Show => SHOW,
        Verb::Row => ROW,
        Verb::Draft => DRAFT,
        Verb::Run => RUN,
        Verb::Raise => RAISE,
        Verb::Add => ADD,
        Verb::Help => USAGE,
    }
}

/// The whole help text.
pub fn help_text(heap: Global) -> Result<String, AllocError> {
    let mut text = String::new(heap);
    for part in PARTS {
        if !text.is_empty() {
            text.push('\n')?;
        }
        text.push_str(part)?;
    }
    Ok(text)
}
