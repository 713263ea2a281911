// How large a table may be, and how many workers may be busy.
use super::telling::tell;
use super::works;
use protocol::{Answer, Kind};
use refusal::Refusal;
use std::io::{self, Write};

const KEY: u64 = 0x7E867A7A1C004065;

pub fn sizes<W: Write>(out: &mut W) -> io::Result<()> {
    let mut largest = [7; 2048];
    let fresh = table::fresh(&mut largest);
    let inserts = works::ends(&mut largest, Kind::Insert, KEY, Answer::Yes, 5);
    tell(out, b"1,024 slots pass", fresh.is_ok() && inserts)?;
    let mut beyond = [7; 2050];
    let refused = table::fresh(&mut beyond);
    let start = works::last_start(&mut beyond, KEY, 1);
    let same = beyond.iter().all(|word| *word == 7);
    tell(
        out,
        b"1,025 are refused 1",
        refused == Err(Refusal::Table) && start == Err(Refusal::Table) && same,
    )
}

// 16 busy workers, and no lock.
pub fn seats<W: Write>(out: &mut W) -> io::Result<()> {
    let mut words = [7; 4];
    let _ = table::fresh(&mut words);
    let sixteenth = works::last_start(&mut words, KEY, 16);
    let busy = [u64::MAX, 0x4000000000800000, 0, 0];
    tell(
        out,
        b"the 16th worker starts",
        sixteenth.is_ok() && words == busy,
    )?;
    let one_more = works::last_start(&mut words, KEY, 1);
    tell(
        out,
        b"the 17th gets 4",
        one_more == Err(Refusal::Busy) && words == busy,
    )
}
