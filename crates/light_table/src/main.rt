// Document 01's light table, run on the compiled code: one line a case, in the document's words. The cases that it marks P
// are proved of the definitions in crate `cases`; here they run once more, with those that it only runs.
#![tactic(auto)]

mod limits;
mod tables;
mod telling;
mod texts;
mod works;

use std::io;

fn main(rt: HostRuntime) -> io::Result<()> {
    let mut out = rt.stdout();
    texts::keys(&mut out)?;
    texts::read_or_refused(&mut out)?;
    tables::two_slots(&mut out)?;
    tables::four_slots(&mut out)?;
    tables::two_inserts(&mut out)?;
    limits::sizes(&mut out)?;
    limits::seats(&mut out)
}
