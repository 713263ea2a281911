// What is done with the table alone.
use super::asked::{Act, ROOM};
use super::pairs;
use abi::between;
use script::answers::{self, Answer, Sixteen};
use std::io::{self, Write};

// What is asked for is there, as `ask` promises.
pub fn carry_out<W: Write>(out: &mut W, table: &mut [u64], act: Act) -> io::Result<()> {
    match act {
        Act::Fresh => answers::reply(out, Answer::from(between::pannuqreik_fresh(table))),
        Act::Poke { place, word } => {
            if let Some(there) = table.get_mut(place) {
                *there = word;
            }
            answers::done(out)
        }
        Act::Slot(slot) => {
            let key = Sixteen(table::key(table, slot));
            writeln!(out, "{key} {}", Sixteen(table::fields(table, slot)))
        }
        Act::Key { slot, key } => {
            table::set_key(table, slot, key);
            answers::done(out)
        }
        Act::Put { slot, fields } => {
            pairs::set(table, slot, &fields);
            answers::done(out)
        }
        Act::Pair(slot) => pairs::show(out, table, slot),
        Act::Check => check(out, table),
        Act::List { low, high, room } => {
            list(out, table, low, high, &mut [0; ROOM][..room.min(ROOM)])
        }
        Act::First(from) => first(out, table, from),
        Act::Sweep => answers::reply(out, Answer::from(between::pannuqreik_sweep(table))),
    }
}

fn check<W: Write>(out: &mut W, table: &[u64]) -> io::Result<()> {
    match Answer::from(between::pannuqreik_check(table)) {
        Answer::Yes => writeln!(out, "sound"),
        Answer::No => writeln!(out, "unsound"),
        said => writeln!(out, "{said}"),
    }
}

fn first<W: Write>(out: &mut W, table: &[u64], from: u64) -> io::Result<()> {
    let mut key = 0;
    match Answer::from(between::pannuqreik_first(table, from, &mut key)) {
        Answer::Done => writeln!(out, "{}", Sixteen(key)),
        said => writeln!(out, "{said}"),
    }
}

// Prints how many keys there are, and the keys.
fn list<W: Write>(
    out: &mut W,
    table: &[u64],
    low: u64,
    high: u64,
    keys: &mut [u64],
) -> io::Result<()> {
    let mut count = 0;
    match Answer::from(between::pannuqreik_list(table, low, high, keys, &mut count)) {
        Answer::Done => {
            write!(out, "{count}")?;
            for key in keys.iter().take(count as usize) {
                write!(out, " {}", Sixteen(*key))?;
            }
            writeln!(out)
        }
        said => writeln!(out, "{said}"),
    }
}
