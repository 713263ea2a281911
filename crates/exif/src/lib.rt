// Capture texts: read from a metadata block, written into a lent buffer; and the sub-second text beside them. Every
// public function answers for any block, place, length and key.
#![tactic(auto)]

ghost use Rattle.std.specs.Prelude.{◌≡◌, ◌+◌, ◌/◌, ◌≤◌, ◌<◌, length, get_or, set, take, drop, true, false, MatchResult};
ghost use Rattle.refusal.specs.Said.{said};
ghost use Rattle.refusal.specs.declared.Refusal.TheVariants.{Beyond};
ghost use Rattle.exif.specs.Forms.{digit, two_digit_hour};
ghost use Rattle.exif.specs.Parts.{beyond_of};
ghost use Rattle.exif.specs.Reading.{digit_of, fits_byte, shaped, two_at, unknown_of, one_digit_of, form_of, moment_at, moment_in, judges, reads_text, reads};
ghost use Rattle.exif.specs.SubSecond.{hundredths_of, reads_sub_second};
ghost use Rattle.exif.specs.Writing.{writes, leaves, written_says};

use moment::Moment;
use refusal::Refusal;

// How the hour of a capture text is written.
#[derive(Clone, Copy)]
enum HourForm {
    TwoDigits,
    BlankAndDigit,
    OneDigit,
}

// That part of a block, if it does not lie beyond. Place and length are any numbers: their sum is not formed.
#[tactic(auto, unfolding(crate::specs::Parts::beyond_of))]
fn part(block: &[u8], place: usize, count: usize) -> Result<&[u8], Refusal>
    ensures { MatchResult result (λ p. (beyond_of (length block.now) place count ≡ false) × (p.now ≡ take count (drop place block.now))) (λ e. (beyond_of (length block.now) place count ≡ true) × (e ≡ Beyond)) }
{
    let rest = block.get(place..).ok_or(Refusal::Beyond)?;
    rest.get(..count).ok_or(Refusal::Beyond)
}

// In a form `d` stands for any digit, and every other byte for itself.
#[tactic(auto, unfolding(crate::specs::Reading::fits_byte, crate::specs::Reading::is_digit))]
fn fits_byte(kind: u8, b: u8) -> bool
    ensures { result ≡ fits_byte kind b }
{
    if kind == b'd' {
        return b.is_ascii_digit();
    }
    b == kind
}

// Does the whole text have this form? The chain of `zip` and `all` takes more instructions than this loop.
#[tactic(auto, using(crate::proofs::Shapes::other_length, crate::proofs::Shapes::step, crate::proofs::Shapes::ended))]
fn has_form(form: &[u8], t: &[u8]) -> bool
    ensures { result ≡ shaped form.now t.now }
{
    if form.len() != t.len() {
        return false;
    }
    for i in 0..t.len() {
        if !fits_byte(form[i], t[i]) {
            return false;
        }
    }
    true
}

// The digit at a place; 0 where there is none.
#[tactic(auto, unfolding(crate::specs::Reading::digit_of, crate::specs::Reading::is_digit))]
fn digit_at(t: &[u8], i: usize) -> u64
    ensures value { result ≡ digit_of (get_or t.now i 0) }
    ensures small { result ≤ 9 }
{
    if t.len() <= i {
        return 0;
    }
    let b = t[i];
    if !b.is_ascii_digit() {
        return 0;
    }
    (b - b'0') as u64
}

// The number that two digits at a place say.
#[tactic(auto, unfolding(crate::specs::Reading::two_at))]
fn two_at(t: &[u8], i: usize) -> u64
    requires { i ≤ 20 }
    ensures value { result ≡ two_at t.now i }
    ensures small { result ≤ 99 }
{
    digit_at(t, i) * 10 + digit_at(t, i + 1)
}

// Does the text say that the time is unknown? All blanks, or blanks with the four colons in place.
#[tactic(auto, unfolding(crate::specs::Reading::unknown_of))]
fn time_unknown(t: &[u8]) -> bool
    ensures { result ≡ unknown_of t.now }
{
    has_form(b"                   \0", t) | has_form(b"    :  :     :  :  \0", t)
}

// Does the text have an hour of one digit? It may end in a second NUL.
#[tactic(auto, unfolding(crate::specs::Reading::one_digit_of))]
fn one_digit_hour(t: &[u8]) -> bool
    ensures { result ≡ one_digit_of t.now }
{
    has_form(b"dddd:dd:dd d:dd:dd\0", t) | has_form(b"dddd:dd:dd d:dd:dd\0\0", t)
}

// How the hour is written; or 12 for an unknown time, which comes first, and 10 for a text of no form.
#[tactic(auto, unfolding(crate::specs::Reading::form_of))]
fn form_of(t: &[u8]) -> Result<HourForm, Refusal>
    ensures { said result ≡ form_of t.now }
{
    if time_unknown(t) {
        return Err(Refusal::Unknown);
    }
    if has_form(b"dddd:dd:dd dd:dd:dd\0", t) {
        return Ok(HourForm::TwoDigits);
    }
    if has_form(b"dddd:dd:dd  d:dd:dd\0", t) {
        return Ok(HourForm::BlankAndDigit);
    }
    if one_digit_hour(t) {
        return Ok(HourForm::OneDigit);
    }
    Err(Refusal::Text)
}

// The fields of a text, its hour given, with :MM:SS at a place.
#[tactic(auto, unfolding(crate::specs::Reading::moment_at))]
fn moment_at(t: &[u8], hour: u64, place: usize) -> Moment
    requires { place ≤ 13 }
    ensures { result ≡ moment_at t.now hour place }
{
    Moment {
        year: two_at(t, 0) * 100 + two_at(t, 2),
        month: two_at(t, 5),
        day: two_at(t, 8),
        hour,
        minute: two_at(t, place + 1),
        second: two_at(t, place + 4),
    }
}

// The fields of a text whose hour is written so.
#[tactic(auto, unfolding(crate::specs::Reading::moment_in))]
fn moment_in(t: &[u8], form: HourForm) -> Moment
    ensures { result ≡ moment_in t.now form }
{
    match form {
        HourForm::TwoDigits => moment_at(t, two_at(t, 11), 13),
        HourForm::BlankAndDigit => moment_at(t, digit_at(t, 12), 13),
        HourForm::OneDigit => moment_at(t, digit_at(t, 11), 12),
    }
}

// A date and time that do not exist are no capture text.
#[tactic(auto, unfolding(crate::specs::Reading::judges))]
fn judge(m: Moment) -> Result<Moment, Refusal>
    ensures { said result ≡ judges m }
{
    if moment::moment_exists(m) {
        return Ok(m);
    }
    Err(Refusal::Text)
}

// Reads a whole text.
#[tactic(auto, unfolding(crate::specs::Reading::reads_text))]
fn read_whole(t: &[u8]) -> Result<Moment, Refusal>
    ensures { said result ≡ reads_text t.now }
{
    let hour = form_of(t)?;
    judge(moment_in(t, hour))
}

// Reads the capture text that is that part of the block.
#[tactic(auto, unfolding(crate::specs::Reading::reads, crate::specs::Parts::of_part))]
pub fn read_text(block: &[u8], place: usize, length: usize) -> Result<Moment, Refusal>
    ensures { said result ≡ reads block.now place length }
{
    read_whole(part(block, place, length)?)
}

// The hundredths that a whole sub-second text says.
#[tactic(auto, unfolding(crate::specs::SubSecond::hundredths_of))]
fn hundredths(t: &[u8]) -> Result<u64, Refusal>
    ensures { said result ≡ hundredths_of t.now }
{
    if t.is_empty() {
        return Ok(0);
    }
    if has_form(b"d\0", t) {
        return Ok(digit_at(t, 0));
    }
    if has_form(b"dd\0", t) {
        return Ok(two_at(t, 0));
    }
    Err(Refusal::Text)
}

// Reads the sub-second text that is that part of the block; an absent one has length 0.
#[tactic(auto, unfolding(crate::specs::SubSecond::reads_sub_second, crate::specs::Parts::of_part))]
pub fn read_sub_second(block: &[u8], place: usize, length: usize) -> Result<u64, Refusal>
    ensures { said result ≡ reads_sub_second block.now place length }
{
    hundredths(part(block, place, length)?)
}

// Puts the last two digits of a number at a place.
fn put_two(d: &mut [u8], at: usize, n: u64)
    requires { at + 1 < length d.old }
    ensures { d.new ≡ set (set d.old at (digit (n / 10))) (at + 1) (digit n) }
{
    d[at] = b'0' + (n / 10 % 10) as u8;
    d[at + 1] = b'0' + (n % 10) as u8;
}

// Puts a field at a place: the last two digits of a number, and the byte that follows them.
fn put_field(d: &mut [u8], at: usize, n: u64, after: u8)
    requires { at + 2 < length d.old }
    ensures { d.new ≡ set (set (set d.old at (digit (n / 10))) (at + 1) (digit n)) (at + 2) after }
{
    put_two(d, at, n);
    d[at + 2] = after;
}

// Fills the twenty bytes that it is lent with the two-digit form of a moment.
fn fill(d: &mut [u8], m: Moment)
    requires { length d.old ≡ 20 }
    ensures { d.new ≡ two_digit_hour m }
{
    put_two(d, 0, m.year / 100);
    put_field(d, 2, m.year, b':');
    put_field(d, 5, m.month, b':');
    put_field(d, 8, m.day, b' ');
    put_field(d, 11, m.hour, b':');
    put_field(d, 14, m.minute, b':');
    put_field(d, 17, m.second, 0);
}

// Writes the two-digit form of the key's date and time at a place of the buffer; every other byte stays.
#[tactic(auto, unfolding(crate::specs::Writing::writes, crate::specs::Writing::put_text), using(crate::proofs::Parts::within))]
pub fn write_text(buf: &mut [u8], place: usize, key: u64) -> Result<(), Refusal>
    ensures answer { written_says result buf.new ≡ writes buf.old place key }
    ensures buffer { buf.new ≡ leaves (writes buf.old place key) buf.old }
{
    if !moment::legal(key) {
        return Err(Refusal::Range);
    }
    part(buf, place, 20)?;
    let end = place + 20;
    fill(&mut buf[place..end], moment::moment_of(moment::unpack(key)));
    Ok(())
}
