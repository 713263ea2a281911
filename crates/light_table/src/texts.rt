// Keys and capture texts: what is read, what is refused, and what is written.
use super::telling::tell;
use moment::{Fields, Moment};
use refusal::Refusal;
use std::io::{self, Write};

// What the whole text says.
fn read(text: &[u8]) -> Result<Moment, Refusal> {
    exif::read_text(text, 0, text.len())
}

// The key of the text's moment, hundredth 0, camera 1.
fn key_of(text: &[u8], number: u64) -> Result<u64, Refusal> {
    moment::pack(Fields {
        moment: read(text)?,
        hundredth: 0,
        camera: 1,
        number,
    })
}

// Is the text of the key, written into a buffer, this one?
fn written_as(key: u64, text: &[u8; 20]) -> bool {
    let mut buffer = [0; 20];
    exif::write_text(&mut buffer, 0, key).is_ok() && buffer == *text
}

fn hundredths(text: &[u8]) -> Result<u64, Refusal> {
    exif::read_sub_second(text, 0, text.len())
}

// The keys of the sorting program's example, and their order.
pub fn keys<W: Write>(out: &mut W) -> io::Result<()> {
    let first = key_of(b"2024:06:15 9:58:07\0", 101);
    let second = key_of(b"2024:06:15 10:02:07\0", 102);
    tell(
        out,
        b"frame 101 of camera 1, 9:58:07, has key 7E867A7A1C004065",
        first == Ok(0x7E867A7A1C004065),
    )?;
    tell(
        out,
        b"frame 102 of camera 1, 10:02:07, has key 7E867A821C004066",
        second == Ok(0x7E867A821C004066),
    )?;
    let rises = first.is_ok_and(|a| second.is_ok_and(|b| a < b));
    tell(out, b"the first is smaller", rises)?;
    tell(
        out,
        b"the first is written 2024:06:15 09:58:07",
        first.is_ok_and(|key| written_as(key, b"2024:06:15 09:58:07\0")),
    )
}

// What is read and what is refused.
pub fn read_or_refused<W: Write>(out: &mut W) -> io::Result<()> {
    tell(
        out,
        b"2000:02:29 is read",
        read(b"2000:02:29 12:00:00\0").is_ok(),
    )?;
    tell(
        out,
        b"2100:02:29 is refused 10",
        read(b"2100:02:29 12:00:00\0") == Err(Refusal::Text),
    )?;
    tell(
        out,
        b"hour 24 is refused 10",
        read(b"2024:06:15 24:00:00\0") == Err(Refusal::Text),
    )?;
    tell(
        out,
        b"23:59:59 is read",
        read(b"2024:06:15 23:59:59\0").is_ok(),
    )?;
    let blank = key_of(b"2024:06:15  9:58:07\0", 101);
    tell(
        out,
        b"a blank hour, 2024:06:15  9:58:07, equals 09:58:07",
        blank.is_ok() && blank == key_of(b"2024:06:15 09:58:07\0", 101),
    )?;
    tell(
        out,
        b"a time of blanks is refused 12",
        read(b"                   \0") == Err(Refusal::Unknown),
    )?;
    tell(
        out,
        b"sub-second text 5 is 5 hundredths",
        hundredths(b"5\0") == Ok(5),
    )
}
