// The commands that speak of a slot by its key and its fields. Where a field lies is known to the crate `table` alone.
use script::answers::Sixteen;
use script::fields::Fields;
use script::line::Words;
use script::names::State;
use std::io::{self, Write};
use table::Which;

// The fields of a slot.
fn get(table: &[u64], i: u64) -> Fields {
    Fields {
        state: State::try_from(table::state(table, i)).unwrap(),
        left: table::link(table, i, true),
        right: table::link(table, i, false),
        own_lock: table::lock(table, i, Which::State),
        left_lock: table::lock(table, i, Which::Edge(true)),
        right_lock: table::lock(table, i, Which::Edge(false)),
        busy: if i == 0 {
            Some(table::busy(table))
        } else {
            None
        },
    }
}

// The slot has these fields and no other bit; its key stays.
pub fn set(table: &mut [u64], i: u64, f: &Fields) {
    let key = table::key(table, i);
    table::zero_slot(table, i);
    table::set_key(table, i, key);
    table::set_state(table, i, f.state as u64);
    table::set_link(table, i, true, f.left);
    table::set_link(table, i, false, f.right);
    table::set_lock(table, i, Which::State, f.own_lock);
    table::set_lock(table, i, Which::Edge(true), f.left_lock);
    table::set_lock(table, i, Which::Edge(false), f.right_lock);
    if let Some(busy) = f.busy {
        table::set_busy(table, busy);
    }
}

// The slot of a table of two that has the same fields: the root, or the other one.
fn like(i: u64) -> u64 {
    i.min(1)
}

// Do the slot's fields hold these numbers? They are stored in a table made for that, and read again.
fn fit(i: u64, f: &Fields) -> bool {
    let mut own = [0u64; 4];
    set(&mut own, like(i), f);
    get(&own, like(i)) == *f
}

// The bits of the slot that are in none of its fields.
fn other(table: &[u64], i: u64, f: &Fields) -> u64 {
    let mut own = [0u64; 4];
    set(&mut own, like(i), f);
    table::fields(table, i) ^ table::fields(&own, like(i))
}

// The fields that the next words say, where those of the slot hold them.
pub fn read(i: u64, words: &mut Words<'_>) -> Option<Fields> {
    let fields = Fields::read(words, i == 0)?;
    if fit(i, &fields) { Some(fields) } else { None }
}

// Bits that should be zero are shown where one of them is not.
pub fn show<W: Write>(out: &mut W, table: &[u64], i: u64) -> io::Result<()> {
    let fields = get(table, i);
    write!(out, "{} {fields}", Sixteen(table::key(table, i)))?;
    match other(table, i, &fields) {
        0 => writeln!(out),
        rest => writeln!(out, " other {}", Sixteen(rest)),
    }
}
