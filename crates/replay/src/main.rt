// Replays a written order of calls, one a line, and shows each answer: for support, and for tests. A thin program over
// the proved crates; README.md has a run of it.
#![tactic(auto)]

mod asked;
mod between;
mod commands;
mod desk;
mod pairs;

use arrayvec::ArrayVec;
use desk::Desk;
use script::answers;
use std::io::{self, Read, Write};

// The line at hand, as far as it has been read: its first bytes, whether a comment has begun, and whether more came
// before it than a command may have.
#[derive(Drop)]
pub struct Line {
    bytes: ArrayVec<u8, 256>,
    comment: bool,
    over: bool,
}

impl Line {
    fn new() -> Line {
        Line {
            bytes: ArrayVec::new(),
            comment: false,
            over: false,
        }
    }

    // One byte more. A line may go on for ever; blanks behind a command are no part of it.
    fn push(&mut self, byte: u8) {
        self.comment |= byte == b'#';
        if !self.comment && self.bytes.try_push(byte).is_err() {
            self.over |= byte != b' ';
        }
    }

    fn is_empty(&self) -> bool {
        self.bytes.is_empty() && !self.over
    }

    // What it says without the blanks at its end; none where that is no command.
    fn text(&self) -> Option<&str> {
        if self.over {
            return None;
        }
        let text = std::str::from_utf8(self.bytes.as_slice()).ok()?;
        Some(text.trim_end_matches(' '))
    }
}

// A run: what lasts from line to line, the line at hand, and its number.
#[derive(Drop)]
pub struct Replay {
    desk: Desk,
    line: Line,
    number: u64,
}

impl Replay {
    fn new() -> Replay {
        Replay {
            desk: Desk::new(),
            line: Line::new(),
            number: 1,
        }
    }

    // Some bytes more of the input.
    fn take<W: Write>(&mut self, out: &mut W, bytes: &[u8]) -> io::Result<()> {
        for byte in bytes {
            if *byte == b'\n' {
                self.end_line(out)?;
            } else {
                self.line.push(*byte);
            }
        }
        Ok(())
    }

    // The line is whole: its command is carried out. An empty one asks for nothing.
    fn end_line<W: Write>(&mut self, out: &mut W) -> io::Result<()> {
        match self.line.text() {
            None => answers::bad(out, self.number)?,
            Some("") => (),
            Some(text) => self.desk.carry_out(out, text, self.number)?,
        }
        self.line = Line::new();
        self.number = self.number.wrapping_add(1);
        Ok(())
    }

    // Reads to the end of the input, or to a read that fails, and hands back what the last read said.
    fn take_all<R: Read, W: Write>(
        &mut self,
        out: &mut W,
        from: &mut R,
    ) -> io::Result<io::Result<()>> {
        let mut input = [0u8; 65536];
        for _ in 0..u64::MAX {
            match from.read(&mut input) {
                Ok(0) => break,
                Ok(n) => self.take(out, &input[..n])?,
                Err(e) => return Ok(Err(e)),
            }
        }
        Ok(Ok(()))
    }
}

// A read that fails ends the input, and the run fails with it when what was read is carried out.
fn main(rt: HostRuntime) -> io::Result<()> {
    let mut out = rt.stdout();
    let mut run = Replay::new();
    let ended = run.take_all(&mut out, &mut rt.stdin())?;
    // the last line needs no line end
    if !run.line.is_empty() {
        run.end_line(&mut out)?;
    }
    ended
}
