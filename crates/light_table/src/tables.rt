// The cases on tables of two and four slots. Words are written out in full: so each case says what every slot holds.
use super::telling::tell;
use super::works;
use protocol::{Answer, Kind, Phase, Worker};
use std::io::{self, Write};

// A < B < C < D, legal keys.
const A: u64 = 0x7E867A7A1C004065;

const B: u64 = 0x7E867A821C004066;

const C: u64 = 0x7E867A8400004067;

const D: u64 = 0x7E867A8500004068;

// The root's key, and the second word of a data slot without children.
const ROOT: u64 = 0xFFFFFFFFFFFFFFFF;

const BARE: u64 = 0x4000000000000000;

// Four slots with B and under it A and C.
const FILLED: [u64; 8] = [
    ROOT,
    0x4010000000000000,
    B,
    0x40200C0000000000,
    A,
    BARE,
    C,
    BARE,
];

pub fn two_slots<W: Write>(out: &mut W) -> io::Result<()> {
    let mut words = [7; 4];
    let _ = table::fresh(&mut words);
    tell(
        out,
        b"fresh, two slots: root's second word 4000000000000000",
        words == [ROOT, BARE, 0, 0],
    )?;
    let ran = works::run(&mut words, Kind::Insert, B, 2);
    tell(
        out,
        b"insert B: after walk and first lock 4000000040080000",
        ran == Answer::Going && words == [ROOT, 0x4000000040080000, 0, 0],
    )?;
    let _ = table::fresh(&mut words);
    tell(
        out,
        b"done after 5 steps, 4010000000000000",
        works::ends(&mut words, Kind::Insert, B, Answer::Yes, 5)
            && words == [ROOT, 0x4010000000000000, B, BARE],
    )
}

pub fn four_slots<W: Write>(out: &mut W) -> io::Result<()> {
    let mut words = [7; 8];
    let _ = table::fresh(&mut words);
    filled(out, &mut words)?;
    full(out, &mut words)?;
    removed(out, &mut words)?;
    swept(out, &mut words)
}

fn filled<W: Write>(out: &mut W, words: &mut [u64; 8]) -> io::Result<()> {
    let b = works::ends(words, Kind::Insert, B, Answer::Yes, 5);
    let a = works::ends(words, Kind::Insert, A, Answer::Yes, 6);
    let c = works::ends(words, Kind::Insert, C, Answer::Yes, 6);
    tell(
        out,
        b"four slots, insert B, A, C: slots 1, 2, 3",
        b && a && c && *words == FILLED,
    )
}

fn full<W: Write>(out: &mut W, words: &mut [u64; 8]) -> io::Result<()> {
    tell(
        out,
        b"lookup C: Yes in 3 steps",
        works::ends(words, Kind::Lookup, C, Answer::Yes, 3),
    )?;
    let d = works::ends(words, Kind::Insert, D, Answer::Full, 6);
    tell(out, b"a fourth key: Full", d && *words == FILLED)
}

fn removed<W: Write>(out: &mut W, words: &mut [u64; 8]) -> io::Result<()> {
    let b = works::ends(words, Kind::Remove, B, Answer::Yes, 5);
    let without_b = [
        ROOT,
        0x4010000000000000,
        B,
        0x80200C0000000000,
        A,
        BARE,
        C,
        BARE,
    ];
    tell(
        out,
        b"remove B: 5 steps, slot 1 routing",
        b && *words == without_b,
    )?;
    let a = works::ends(words, Kind::Remove, A, Answer::Yes, 13);
    let without_a = [
        ROOT,
        0x4030000000000000,
        B,
        0xC0200C0000000000,
        A,
        0xC000000000000000,
        C,
        BARE,
    ];
    tell(
        out,
        b"then remove A: 13 steps, slots 1 and 2 deleted, root's left is 3",
        a && *words == without_a,
    )
}

fn swept<W: Write>(out: &mut W, words: &mut [u64; 8]) -> io::Result<()> {
    tell(
        out,
        b"an insert is still Full",
        works::ends(words, Kind::Insert, B, Answer::Full, 5),
    )?;
    let done = tree::sweep(words).is_ok();
    let free = *words == [ROOT, 0x4030000000000000, 0, 0, 0, 0, C, BARE];
    let b = works::ends(words, Kind::Insert, B, Answer::Yes, 6);
    let expected = [
        ROOT,
        0x4030000000000000,
        B,
        BARE,
        0,
        0,
        C,
        0x4010000000000000,
    ];
    tell(
        out,
        b"after sweep it takes slot 1",
        done && free && b && *words == expected,
    )
}

pub fn two_inserts<W: Write>(out: &mut W) -> io::Result<()> {
    let mut words = [7; 4];
    let _ = table::fresh(&mut words);
    let a = worker::start(&mut words, worker::idle_worker(), Kind::Insert, A);
    let b = worker::start(&mut words, worker::idle_worker(), Kind::Insert, B);
    in_turns(out, &mut words, a.worker, b.worker)
}

// Does an insert stand at the root?
fn at_root(worker: Worker) -> bool {
    matches!(worker.phase, Phase::Walk { at: 0, .. })
}

// Has an insert's walk ended at nothing, on the root's left, and nothing of its plan is done?
fn under_root(worker: Worker) -> bool {
    matches!(
        worker.phase,
        Phase::New {
            prev: 0,
            side: true,
            done: 0
        }
    )
}

// Two works that have just begun, a step of the one and a step of the other.
fn in_turns<W: Write>(out: &mut W, words: &mut [u64; 4], a: Worker, b: Worker) -> io::Result<()> {
    let a1 = worker::step(words, a);
    let b1 = worker::step(words, b);
    tell(
        out,
        b"two inserts end their walks under the fresh root",
        under_root(a1.worker) && under_root(b1.worker),
    )?;
    worker::step(words, a1.worker);
    let b2 = worker::step(words, b1.worker);
    tell(
        out,
        b"one locks, the other's next step restarts",
        at_root(b2.worker) && *words == [ROOT, 0x4000000040100000, 0, 0],
    )
}
