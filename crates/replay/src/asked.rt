// What a line asks for: a command and its numbers.
ghost use Rattle.std.specs.Prelude.{◌<◌, ◌≤◌, IfSome};
ghost use Rattle.replay.specs.Asked.{InRange, IsOfTable};

use super::desk::{MOST, RECORDS, Size};
use super::pairs;
use script::fields::Fields;
use script::line::{Words, decimal, hexadecimal};
use script::names::Kind;
use script::records::Record;

// How many keys a list may have room for.
pub const ROOM: usize = 1100;

// A command: another table, or what is done with the table or with a record.
#[derive(Clone, Copy)]
pub enum Command {
    Table(Size),
    OnTable(Act),
    OnRecord(usize, Deed),
}

// What is done with the table.
#[derive(Clone, Copy)]
pub enum Act {
    Fresh,
    Poke { place: usize, word: u64 },
    Slot(u64),
    Key { slot: u64, key: u64 },
    Put { slot: u64, fields: Fields },
    Pair(u64),
    Check,
    List { low: u64, high: u64, room: usize },
    First(u64),
    Sweep,
}

// What is done with a record.
#[derive(Clone, Copy)]
pub enum Deed {
    Start(Kind, u64),
    Step,
    Withdraw,
    Run,
    Print,
    Set(Record),
}

// What a line asks for, where the table has so many words. A line that asks for nothing there is gives none.
pub fn ask(line: &str, size: usize) -> Option<Command>
    ensures { IfSome result (InRange size) }
{
    let mut words = line.split(' ');
    let asked = read_command(&mut words, size)?;
    match words.next() {
        None => Some(asked),
        Some(_) => None,
    }
}

fn read_command(words: &mut Words<'_>, size: usize) -> Option<Command>
    ensures { IfSome result (InRange size) }
{
    let name = words.next()?;
    match name {
        "table" => Some(Command::Table(Size {
            words: up_to(MOST, words)?,
        })),
        "start" | "step" | "withdraw" | "run" | "idle" | "record" | "set" => Some(Command::OnRecord(
            below(RECORDS, words)?,
            read_deed(name, words)?,
        )),
        _ => Some(Command::OnTable(read_act(name, words, size)?)),
    }
}

fn read_act(name: &str, words: &mut Words<'_>, size: usize) -> Option<Act>
    ensures { IfSome result (IsOfTable size) }
{
    let slots = size / 2;
    match name {
        "fresh" => Some(Act::Fresh),
        "poke" => Some(Act::Poke {
            place: below(size, words)?,
            word: hexadecimal(words.next()?.as_bytes())?,
        }),
        "slot" => Some(Act::Slot(below(slots, words)? as u64)),
        "key" => Some(Act::Key {
            slot: below(slots, words)? as u64,
            key: hexadecimal(words.next()?.as_bytes())?,
        }),
        "put" => {
            let slot = below(slots, words)? as u64;
            Some(Act::Put {
                slot,
                fields: pairs::read(slot, words)?,
            })
        }
        "pair" => Some(Act::Pair(below(slots, words)? as u64)),
        "check" => Some(Act::Check),
        "list" => Some(Act::List {
            low: hexadecimal(words.next()?.as_bytes())?,
            high: hexadecimal(words.next()?.as_bytes())?,
            room: up_to(ROOM, words)?,
        }),
        "first" => Some(Act::First(hexadecimal(words.next()?.as_bytes())?)),
        "sweep" => Some(Act::Sweep),
        _ => None,
    }
}

fn read_deed(name: &str, words: &mut Words<'_>) -> Option<Deed> {
    match name {
        "start" => {
            let kind = words.next()?.parse().ok()?;
            Some(Deed::Start(kind, hexadecimal(words.next()?.as_bytes())?))
        }
        "step" => Some(Deed::Step),
        "withdraw" => Some(Deed::Withdraw),
        "run" => Some(Deed::Run),
        "idle" => Some(Deed::Set(Record::IDLE)),
        "record" => Some(Deed::Print),
        "set" => Some(Deed::Set(Record::read(words)?)),
        _ => None,
    }
}

// The next word as a decimal number up to a limit, which it may reach.
fn up_to(most: usize, words: &mut Words<'_>) -> Option<usize>
    ensures { IfSome result (λ n. n ≤ most) }
{
    let n = decimal(words.next()?.as_bytes())? as usize;
    if n <= most { Some(n) } else { None }
}

// The next word as a decimal number below a limit.
fn below(limit: usize, words: &mut Words<'_>) -> Option<usize>
    ensures { IfSome result (λ n. n < limit) }
{
    up_to(limit.checked_sub(1)?, words)
}
