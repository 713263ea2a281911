// What lasts from line to line.
ghost use Rattle.std.specs.Prelude.{◌≤◌};
ghost use Rattle.replay.specs.declared.desk.TheConstants.{MOST};

use super::asked::{Command, ask};
use super::{between, commands};
use script::answers;
use std::io::{self, Write};

// The longest table: the words of the buffer.
pub const MOST: usize = 2200;

// How many records there are.
pub const RECORDS: usize = 32;

// How many words a table has.
#[derive(Clone, Copy)]
pub struct Size {
    pub words: usize,
    ghost in_buffer: { words ≤ MOST },
}

// The table is the first words of the buffer. A record is eleven words, as the library has it.
// Kept: a buffer with a length beside it, for the words behind a short table are those that a longer one finds there.
#[derive(Clone, Copy)]
pub struct Desk {
    buffer: [u64; MOST],
    size: Size,
    records: [[u64; 11]; RECORDS],
}

impl Desk {
    // No table yet, and idle records.
    pub fn new() -> Desk {
        Desk {
            buffer: [0; MOST],
            size: Size { words: 0 },
            records: [[0; 11]; RECORDS],
        }
    }

    // Carries out a line, and prints what it comes to; `number` is the line's.
    pub fn carry_out<W: Write>(&mut self, out: &mut W, line: &str, number: u64) -> io::Result<()> {
        let size = self.size.words;
        match ask(line, size) {
            None => answers::bad(out, number),
            Some(Command::Table(other)) => {
                self.size = other;
                answers::done(out)
            }
            Some(Command::OnTable(act)) => between::carry_out(out, &mut self.buffer[..size], act),
            Some(Command::OnRecord(r, deed)) => {
                let mut record = self.records[r];
                commands::carry_out(out, &mut self.buffer[..size], &mut record, deed)?;
                self.records[r] = record;
                Ok(())
            }
        }
    }
}
