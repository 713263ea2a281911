// A slot's fields as words of a line, printed and read: the state by name, `links` and two numbers, `locks` and three, and
// for the root `busy` and one.
ghost use Rattle.std.specs.Prelude.{Some, IfSome, IsSome, IsTrue, ◌↔◌};

use super::line::{Words, decimal};
use super::names::State;
use std::fmt;

// The fields of a slot. The root alone says how many workers are busy.
#[derive(Clone, Copy, Debug, PartialEq, Eq)]
pub struct Fields {
    pub state: State,
    pub left: u64,
    pub right: u64,
    pub own_lock: u64,
    pub left_lock: u64,
    pub right_lock: u64,
    pub busy: Option<u64>,
}

impl fmt::Display for Fields {
    ghost use Rattle.script.specs.Fields.{fields_text};

    ghost output = { λ x. Some (fields_text x) };

    fn fmt<W: fmt::Write>(&self, f: &mut fmt::Formatter<W>) -> fmt::Result {
        write!(f, "{} links {} {}", self.state, self.left, self.right)?;
        write!(
            f,
            " locks {} {} {}",
            self.own_lock, self.left_lock, self.right_lock
        )?;
        match self.busy {
            Some(busy) => write!(f, " busy {busy}"),
            None => Ok(()),
        }
    }
}

// Takes the next word, which is to be this one.
fn keyword(words: &mut Words<'_>, name: &str) -> Option<()> {
    if words.next()? == name {
        Some(())
    } else {
        None
    }
}

impl Fields {
    // The fields that the next words say, of the root or of another slot. A number may be more than its field holds.
    pub fn read(words: &mut Words<'_>, root: bool) -> Option<Fields>
        ensures { IfSome result (λ f. IsSome f.busy ↔ IsTrue root) }
    {
        let state = words.next()?.parse().ok()?;
        keyword(words, "links")?;
        let left = decimal(words.next()?.as_bytes())?;
        let right = decimal(words.next()?.as_bytes())?;
        keyword(words, "locks")?;
        let own_lock = decimal(words.next()?.as_bytes())?;
        let left_lock = decimal(words.next()?.as_bytes())?;
        let right_lock = decimal(words.next()?.as_bytes())?;
        let mut busy = None;
        if root {
            keyword(words, "busy")?;
            busy = Some(decimal(words.next()?.as_bytes())?);
        }
        Some(Fields {
            state,
            left,
            right,
            own_lock,
            left_lock,
            right_lock,
            busy,
        })
    }
}
