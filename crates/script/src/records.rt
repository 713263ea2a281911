// A worker's record as words of a line, printed and read: the work, the key in base 16, the phase, and what the phase
// notes.
ghost use Rattle.std.specs.Prelude.{◌≡◌, Some, IfSome, OnSome};
ghost use Rattle.script.specs.Inverts.{Inverts};
ghost use Rattle.script.specs.Records.{notes_of};

use super::answers::Sixteen;
use super::line::{Words, decimal, hexadecimal};
use super::names::{Phase, Side, Unknown, Work};
use std::fmt;

// What a phase may note, in the order of a record's words.
#[derive(Clone, Copy, Debug, PartialEq, Eq)]
pub enum Note {
    This,
    Previous,
    Side,
    Before,
    Up,
    Child,
    ChildSide,
    Done,
}

// What the phase notes, in the order of a line's words.
pub fn notes(phase: Phase) -> &'static [Note]
    ensures { result.now ≡ notes_of phase }
{
    match phase {
        Phase::Walk | Phase::Leaf => &[
            Note::This,
            Note::Previous,
            Note::Side,
            Note::Before,
            Note::Up,
        ],
        Phase::OnRouting | Phase::Two => &[Note::This, Note::Done],
        Phase::New => &[Note::Previous, Note::Side, Note::Done],
        Phase::One => &[
            Note::This,
            Note::Previous,
            Note::Side,
            Note::Child,
            Note::ChildSide,
            Note::Done,
        ],
        Phase::UnderData => &[Note::This, Note::Previous, Note::Side, Note::Done],
        Phase::UnderRouting => &[
            Note::This,
            Note::Previous,
            Note::Side,
            Note::Before,
            Note::Up,
            Note::Child,
            Note::Done,
        ],
    }
}

// A record. What its phase does not note is 0, and left.
#[derive(Clone, Copy, Debug, PartialEq, Eq)]
pub struct Record {
    pub work: Work,
    pub key: u64,
    pub phase: Phase,
    pub this: u64,
    pub previous: u64,
    pub side: Side,
    pub before: u64,
    pub up: Side,
    pub child: u64,
    pub child_side: Side,
    pub done: u64,
}

impl From<Record> for [u64; 11] {
    ghost use Rattle.script.specs.Records.{record_words};

    ghost from_gives = { λ r words. words ≡ record_words r };

    fn from(r: Record) -> [u64; 11] {
        [
            u64::from(r.work),
            r.key,
            r.phase as u64,
            r.this,
            r.previous,
            r.side as u64,
            r.before,
            r.up as u64,
            r.child,
            r.child_side as u64,
            r.done,
        ]
    }
}

impl TryFrom<[u64; 11]> for Record {
    ghost use Rattle.script.specs.Records.{record_words};

    type Error = Unknown;

    ghost try_from_gives = { Inverts record_words };

    fn try_from(words: [u64; 11]) -> Result<Record, Unknown> {
        let [
            work,
            key,
            phase,
            this,
            previous,
            side,
            before,
            up,
            child,
            child_side,
            done,
        ] = words;
        Ok(Record {
            work: Work::try_from(work)?,
            key,
            phase: Phase::try_from(phase)?,
            this,
            previous,
            side: Side::try_from(side)?,
            before,
            up: Side::try_from(up)?,
            child,
            child_side: Side::try_from(child_side)?,
            done,
        })
    }
}

// What a record notes, as a word of a line.
#[derive(Clone, Copy)]
struct Noted<'a>(&'a Record, Note);

impl fmt::Display for Noted<'_> {
    ghost use Rattle.script.specs.Records.{note_word};

    ghost output = { λ n. Some (note_word n.0.now n.1) };

    fn fmt<W: fmt::Write>(&self, f: &mut fmt::Formatter<W>) -> fmt::Result {
        match self.1 {
            Note::This => write!(f, "{}", self.0.this),
            Note::Previous => write!(f, "{}", self.0.previous),
            Note::Side => write!(f, "{}", self.0.side),
            Note::Before => write!(f, "{}", self.0.before),
            Note::Up => write!(f, "{}", self.0.up),
            Note::Child => write!(f, "{}", self.0.child),
            Note::ChildSide => write!(f, "{}", self.0.child_side),
            Note::Done => write!(f, "{}", self.0.done),
        }
    }
}

impl fmt::Display for Record {
    ghost use Rattle.script.specs.Records.{record_text};

    ghost output = { λ r. Some (record_text r) };

    fn fmt<W: fmt::Write>(&self, f: &mut fmt::Formatter<W>) -> fmt::Result {
        write!(f, "{} {} {}", self.work, Sixteen(self.key), self.phase)?;
        for note in notes(self.phase) {
            write!(f, " {}", Noted(self, *note))?;
        }
        Ok(())
    }
}

impl Record {
    ghost use Rattle.script.specs.Records.{NotesNoMore, SaysNote, ChangesOnly};

    // The record of a worker that has nothing to do: eleven zeros.
    pub const IDLE: Record = Record {
        work: Work::Idle,
        key: 0,
        phase: Phase::Walk,
        this: 0,
        previous: 0,
        side: Side::Left,
        before: 0,
        up: Side::Left,
        child: 0,
        child_side: Side::Left,
        done: 0,
    };

    // The record that the next words say.
    pub fn read(words: &mut Words<'_>) -> Option<Record>
        ensures { IfSome result NotesNoMore }
    {
        let work = words.next()?.parse().ok()?;
        let key = hexadecimal(words.next()?.as_bytes())?;
        let phase = words.next()?.parse().ok()?;
        let mut found = Record {
            work,
            key,
            phase,
            ..Record::IDLE
        };
        for note in notes(phase) {
            found.take(*note, words.next()?)?;
        }
        Some(found)
    }

    fn take(&mut self, note: Note, word: &str) -> Option<()>
        ensures read { OnSome result (SaysNote self.new note word.now) }
        ensures kept { OnSome result (ChangesOnly self.old note self.new) }
    {
        match note {
            Note::This => self.this = decimal(word.as_bytes())?,
            Note::Previous => self.previous = decimal(word.as_bytes())?,
            Note::Side => self.side = word.parse().ok()?,
            Note::Before => self.before = decimal(word.as_bytes())?,
            Note::Up => self.up = word.parse().ok()?,
            Note::Child => self.child = decimal(word.as_bytes())?,
            Note::ChildSide => self.child_side = word.parse().ok()?,
            Note::Done => self.done = decimal(word.as_bytes())?,
        }
        Some(())
    }
}
