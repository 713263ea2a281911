// What is done with a record.
use super::asked::Deed;
use abi::workers;
use script::answers::{self, Answer};
use script::names::Kind;
use script::records::Record;
use std::io::{self, Write};

pub fn carry_out<W: Write>(
    out: &mut W,
    table: &mut [u64],
    record: &mut [u64; 11],
    deed: Deed,
) -> io::Result<()> {
    match deed {
        Deed::Start(kind, key) => answers::reply(out, start(table, record, kind, key)),
        Deed::Step => {
            answers::verdict(out, step(table, record), b"going")?;
            writeln!(out)
        }
        Deed::Withdraw => answers::reply(
            out,
            Answer::from(workers::pannuqreik_withdraw(table, record)),
        ),
        Deed::Run => run(out, table, record),
        Deed::Print => print(out, *record),
        Deed::Set(words) => {
            *record = <[u64; 11]>::from(words);
            answers::done(out)
        }
    }
}

fn start(table: &mut [u64], record: &mut [u64], kind: Kind, key: u64) -> Answer {
    Answer::from(match kind {
        Kind::Lookup => workers::pannuqreik_start_lookup(table, record, key),
        Kind::Insert => workers::pannuqreik_start_insert(table, record, key),
        Kind::Remove => workers::pannuqreik_start_remove(table, record, key),
    })
}

fn step(table: &mut [u64], record: &mut [u64]) -> Answer {
    Answer::from(workers::pannuqreik_step(table, record))
}

// Steps until the answer is not going, at most slots plus 10.
fn run<W: Write>(out: &mut W, table: &mut [u64], record: &mut [u64]) -> io::Result<()> {
    let most = table.len() / 2 + 10;
    for calls in 1..=most {
        let said = step(table, record);
        if said != Answer::Done {
            return print_run(out, said, calls);
        }
    }
    print_run(out, Answer::Done, most)
}

// The last answer, and the number of calls.
fn print_run<W: Write>(out: &mut W, said: Answer, calls: usize) -> io::Result<()> {
    answers::verdict(out, said, b"going")?;
    writeln!(out, " {calls}")
}

// No call leaves what is no record.
fn print<W: Write>(out: &mut W, words: [u64; 11]) -> io::Result<()> {
    match Record::try_from(words) {
        Ok(record) => writeln!(out, "{record}"),
        Err(_) => Ok(()),
    }
}
