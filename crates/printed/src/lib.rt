// The lines that the sorting program prints, put at the front of a lent array; the answer is how many bytes the line has.
// Every public function answers for any numbers.
#![tactic(auto)]

ghost use Rattle.std.specs.Prelude.{◌≡◌, true, ◌++◌, ◌∷◌, [], ◌+◌, ◌≤◌, length};
ghost use Rattle.layout.specs.Filling.{Put};
ghost use Rattle.moment.specs.Key.{legal_of};
ghost use Rattle.exif.specs.Forms.{blank};
ghost use Rattle.printed.specs.Printing.{digits_of, decimal, hex_digit, hex_of, text_of, word_line, refused_line, already_line, frame_line_says, puts_frame, frame_holds};

use refusal::Refusal;

// Puts a number in decimal, of at most so many digits: those before the last one, then the last. Returns the next place.
#[tactic(auto, using(crate::proofs::Puts::puts_digits))]
fn put_digits(out: &mut [u8], at: usize, most: u64, n: u64) -> usize
    requires { at + most ≤ length out.old }
    ensures { Put out.old at (digits_of most n) result out.new }
{
    if most == 0 {
        return at;
    }
    if n < 10 {
        out[at] = b'0' + (n % 10) as u8;
        return at + 1;
    }
    let last = put_digits(out, at, most - 1, n / 10);
    out[last] = b'0' + (n % 10) as u8;
    last + 1
}

// Puts a number in decimal and the byte that follows it.
#[tactic(auto, using(crate::proofs::Puts::digits_few))]
fn put_number(out: &mut [u8], at: usize, n: u64, after: u8) -> usize
    requires { at + 21 ≤ length out.old }
    ensures { Put out.old at (decimal n ++ after ∷ []) result out.new }
{
    let end = put_digits(out, at, 20, n);
    out[end] = after;
    end + 1
}

#[tactic(auto, unfolding(crate::specs::Printing::hex_digit))]
fn hex_digit(n: u64) -> u8
    ensures { result ≡ hex_digit n }
{
    let d = (n % 16) as u8;
    if d < 10 { b'0' + d } else { b'A' - 10 + d }
}

// Puts a key and a blank, from the last digit on: so no digit waits for the one before it.
#[tactic(auto, using(crate::proofs::Puts::puts_hex))]
fn put_key(out: &mut [u8], at: usize, key: u64) -> usize
    requires { at + 17 ≤ length out.old }
    ensures { Put out.old at (hex_of 16 key ++ blank) result out.new }
{
    out[at + 16] = b' ';
    let mut rest = key;
    for i in (0..16).rev() {
        out[at + i] = hex_digit(rest);
        rest /= 16;
    }
    at + 17
}

// Puts the two-digit text of a legal key, and a blank where the text has its NUL.
fn put_text(out: &mut [u8], at: usize, key: u64) -> usize
    requires { (at + 20 ≤ length out.old) × (legal_of key ≡ true) }
    ensures { Put out.old at (text_of key ++ blank) result out.new }
{
    let _ = exif::write_text(out, at, key);
    out[at + 19] = b' ';
    at + 20
}

// Copies bytes to a place, and returns the next place.
fn put_word(out: &mut [u8], at: usize, word: &[u8]) -> usize
    requires { at + length word.now ≤ length out.old }
    ensures { Put out.old at word.now result out.new }
{
    lines::append(out, at, word);
    at + word.len()
}

// A frame's line; or 3 for a key that is not legal, and the array stays.
#[tactic(auto, using(crate::proofs::Puts::number_few, crate::proofs::Puts::key_length, crate::proofs::Texts::text_blank), unfolding(crate::specs::Printing::puts_frame))]
pub fn frame_line(out: &mut [u8; 128], place: u64, key: u64) -> Result<usize, Refusal>
    ensures { (frame_line_says result out.new ≡ puts_frame out.old place key) × (out.new ≡ frame_holds (puts_frame out.old place key) out.old) }
{
    if !moment::legal(key) {
        return Err(Refusal::Range);
    }
    let f = moment::unpack(key);
    let a = put_number(out, 0, place, b' ');
    let b = put_key(out, a, key);
    let c = put_text(out, b, key);
    let d = put_number(out, c, f.camera, b' ');
    let e = put_number(out, d, f.number, b'\n');
    Ok(e)
}

// Puts `line N`.
fn put_line(out: &mut [u8], n: u64) -> usize
    requires { 25 ≤ length out.old }
    ensures { Put out.old 0 (word_line ++ decimal n) result out.new }
{
    let a = put_word(out, 0, b"line ");
    put_digits(out, a, 20, n)
}

// `line N refused R`
#[tactic(auto, using(crate::proofs::Puts::line_few))]
pub fn refused_line(out: &mut [u8; 128], n: u64, r: u64) -> usize
    ensures { Put out.old 0 (refused_line n r) result out.new }
{
    let a = put_line(out, n);
    let b = put_word(out, a, b" refused ");
    put_number(out, b, r, b'\n')
}

// `line N already`
#[tactic(auto, using(crate::proofs::Puts::line_few))]
pub fn already_line(out: &mut [u8; 128], n: u64) -> usize
    ensures { Put out.old 0 (already_line n) result out.new }
{
    let a = put_line(out, n);
    put_word(out, a, b" already\n")
}
