// The lines of the sorting program as bytes: what an input line says, fed in pieces of any size, where a line ends, and
// bytes put behind others. Every public function answers for any bytes and numbers.
#![tactic(auto)]

ghost use Rattle.std.specs.Prelude.{◌≡◌, ◌+◌, ◌≤◌, length, take, replicate};
ghost use Rattle.std.proofs.lemmas.List.Edits.{sets};
ghost use Rattle.refusal.specs.Said.{said};
ghost use Rattle.lines.specs.Line.{has, number_says, front_of, form, form_says, line_says};
ghost use Rattle.lines.specs.Feeding.{begun, fed_line, held_line};
ghost use Rattle.lines.specs.Ends.{end_of};
ghost use Rattle.lines.specs.Room.{room_for, appended};

use moment::Fields;
use refusal::Refusal;

// How many bytes of a line are kept: two numbers with their blanks, and one byte more than a capture text can have.
const KEPT: usize = 32;

// A line that is being fed: its first bytes, how many they are, and whether a NUL was among those that are not kept.
#[derive(Clone, Copy, Debug, PartialEq, Eq, Hash)]
pub struct Line {
    pub kept: [u8; KEPT],
    pub len: usize,
    pub nul: bool,
}

// Is there a NUL among the bytes? It looks at all of them, which is faster than `contains`, sixteen bytes at a time.
#[tactic(auto, using(crate::proofs::Bytes::has_bytes))]
fn has_nul(s: &[u8]) -> bool
    ensures { result ≡ has 0 s.now }
{
    let mut nul = false;
    for b in s {
        nul |= *b == 0;
    }
    nul
}

// The number of one to five digits at the front, and what stands behind the blank that ends it.
#[tactic(auto, using(crate::proofs::Scanning::scans))]
fn front_of(s: &[u8]) -> Option<(u64, &[u8])>
    ensures { number_says result ≡ front_of s.now }
{
    let mut value: u64 = 0;
    for (i, b) in s.iter().enumerate() {
        if *b == b' ' {
            if i == 0 {
                return None;
            }
            return Some((value, &s[i + 1..]));
        }
        if !b.is_ascii_digit() {
            return None;
        }
        if 5 <= i {
            return None;
        }
        value = value * 10 + (*b - b'0') as u64;
    }
    None
}

// Copies bytes to a place.
#[tactic(auto, using(crate::proofs::Bytes::sets_middle))]
fn copy(d: &mut [u8], at: usize, s: &[u8])
    requires { at + length s.now ≤ length d.old }
    ensures { d.new ≡ sets d.old at s.now }
{
    d[at..at + s.len()].copy_from_slice(s);
}

// A line whose form is fine: camera and number are judged, then the text, with a NUL put behind it; hundredth 0.
#[tactic(auto, using(crate::proofs::Texts::long_text, crate::proofs::Texts::text_behind), unfolding(crate::specs::Line::fields_for))]
fn judge(camera: u64, number: u64, text: &[u8]) -> Result<u64, Refusal>
    ensures { said result ≡ form_says (form camera number text.now) }
{
    if (31 < camera) | (9999 < number) {
        return Err(Refusal::Range);
    }
    if 19 < text.len() {
        return Err(Refusal::Text);
    }
    let mut t = [0u8; 20];
    copy(&mut t, 0, text);
    let moment = exif::read_text(&t, 0, text.len() + 1)?;
    moment::pack(Fields {
        moment,
        hundredth: 0,
        camera,
        number,
    })
}

// What a whole line says, without its line end: the key of its frame.
#[tactic(auto, unfolding(crate::specs::Line::line_says, crate::specs::Line::form_of))]
pub fn read_line(line: &[u8]) -> Result<u64, Refusal>
    ensures { said result ≡ line_says line.now }
{
    if has_nul(line) {
        return Err(Refusal::Text);
    }
    let (camera, rest) = front_of(line).ok_or(Refusal::Text)?;
    let (number, text) = front_of(rest).ok_or(Refusal::Text)?;
    judge(camera, number, text)
}

impl Line {
    // A line before its first byte.
    pub fn begin() -> Line
        ensures { result ≡ begun (replicate 32 0) }
    {
        Line {
            kept: [0; KEPT],
            len: 0,
            nul: false,
        }
    }

    // A piece more of a line: any bytes but its line end. Behind the bytes that are kept only NULs matter, and only until
    // one is known.
    #[tactic(auto, using(crate::proofs::Feeding::fed_front))]
    pub fn feed(&mut self, piece: &[u8])
        ensures { self.new ≡ fed_line self.old piece.now }
    {
        let room = KEPT.saturating_sub(self.len).min(piece.len());
        let (front, rest) = piece.split_at(room);
        append(&mut self.kept, self.len, front);
        self.len += room;
        self.nul = self.nul || has_nul(rest);
    }

    // What the line says that was fed.
    #[tactic(auto, using(crate::proofs::Feeding::held_nul, crate::proofs::Feeding::held_front))]
    pub fn finish(&self) -> Result<u64, Refusal>
        ensures { said result ≡ line_says (held_line self.now) }
    {
        if self.nul {
            return Err(Refusal::Text);
        }
        read_line(&self.kept[..self.len.min(KEPT)])
    }
}

// The place of the first line end from a place on; else where the bytes end.
#[tactic(auto, using(crate::proofs::Bytes::end_out))]
pub fn line_end(s: &[u8], at: usize) -> usize
    ensures { (result ≡ end_of s.now at) × (at ≤ result) × (at ≤ length s.now → result ≤ length s.now) }
{
    if s.len() < at {
        return at;
    }
    let rest = &s[at..];
    at + rest.iter().position(|b| *b == b'\n').unwrap_or(rest.len())
}

// Puts a line's bytes at a place of a buffer; answers whether there was room, and without room nothing changes.
#[tactic(auto, unfolding(crate::specs::Room::room_for, crate::specs::Room::appended))]
pub fn append(out: &mut [u8], at: usize, line: &[u8]) -> bool
    ensures { (result ≡ room_for out.old at line.now) × (out.new ≡ appended out.old at line.now) }
{
    if out.len() < at || out.len() - at < line.len() {
        return false;
    }
    copy(out, at, line);
    true
}
