// Lines wait in a buffer until it is full, and are written in one call.
ghost use Rattle.std.specs.Prelude.{◌≡◌, ◌≤◌, length, true, false, [], IsOk, IsErr};
ghost use Rattle.std.specs.Io.KnownBytes.{Appends};
ghost use Rattle.moment.specs.Key.{legal_of};
ghost use Rattle.printed.specs.Printing.{refused_line, already_line, frame_line};

use arrayvec::ArrayVec;
use std::io::{self, Write};

// How many bytes wait at most: the lines of a full table fit in, and a larger buffer would only be zeroed.
const ROOM: usize = 48 << 10;

// The room for one line.
const LINE: usize = 128;

// Where the bytes are written, those that wait, and what the writes said: after one that failed nothing more is written. So
// a line that only waits hands on no error.
#[derive(Drop)]
pub struct Paper<W> {
    to: W,
    waiting: ArrayVec<u8, ROOM>,
    pub said: io::Result<()>,
}

impl<W: Write> Paper<W> {
    ghost use Rattle.sort_frames.specs.Paper.{Prints};

    pub fn new(to: W) -> Self
        ensures to { result.to ≡ to }
        ensures empty { result.waiting.items ≡ [] }
        ensures fine { IsOk result.said }
    {
        Paper {
            to,
            waiting: ArrayVec::new(),
            said: Ok(()),
        }
    }

    // Writes the bytes that wait.
    pub fn write_out(&mut self)
        ensures stopped { IsErr self.old.said → self.new ≡ self.old }
        ensures written { IsOk self.new.said → Appends (W.contents self.old.to) (W.contents self.new.to) self.old.waiting.items }
        ensures kept { self.new.waiting.items ≡ self.old.waiting.items }
    {
        if self.said.is_ok() {
            self.said = self.to.write_all(self.waiting.as_slice());
        }
    }

    // A line more: it waits behind the others, which are written first where there is no room.
    #[tactic(auto, using(crate::proofs::Prints::waits, crate::proofs::Prints::follows))]
    fn print(&mut self, line: &[u8])
        requires { length line.now ≤ LINE }
        ensures { Prints W.contents self.old self.new line.now }
    {
        if self.waiting.try_extend_from_slice(line).is_err() {
            self.write_out();
            self.waiting.clear();
            let _ = self.waiting.try_extend_from_slice(line);
        }
    }

    #[tactic(auto, using(crate::proofs::Short::short))]
    pub fn refused(&mut self, number: u64, refusal: u64)
        ensures { Prints W.contents self.old self.new (refused_line number refusal) }
    {
        let mut line = [0; LINE];
        let size = printed::refused_line(&mut line, number, refusal);
        self.print(&line[..size]);
    }

    #[tactic(auto, using(crate::proofs::Short::short))]
    pub fn already(&mut self, number: u64)
        ensures { Prints W.contents self.old self.new (already_line number) }
    {
        let mut line = [0; LINE];
        let size = printed::already_line(&mut line, number);
        self.print(&line[..size]);
    }

    // A key of a sound table is legal, so its line is never refused.
    #[tactic(auto, using(crate::proofs::Short::short))]
    pub fn frame(&mut self, place: u64, key: u64)
        ensures printed { legal_of key ≡ true → Prints W.contents self.old self.new (frame_line place key) }
        ensures no_key { legal_of key ≡ false → self.new ≡ self.old }
    {
        let mut line = [0; LINE];
        if let Ok(size) = printed::frame_line(&mut line, place, key) {
            self.print(&line[..size]);
        }
    }
}
