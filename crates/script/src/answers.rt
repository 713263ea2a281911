// What is printed for a call, one line an answer. What could not be written is the error of the writer that is lent.
ghost use Rattle.std.specs.Prelude.{◌≡◌, ◌≢◌, ◌%◌, OnOk, ◌++◌, codes, Some, true, IsUtf8};
ghost use Rattle.std.specs.Fmt.{decimal, digit_glyph};
ghost use Rattle.std.specs.Io.KnownBytes.{Appends};
ghost use Rattle.script.specs.Answers.{answer_of, answer_text};
ghost use Rattle.script.specs.Records.{sixteen_digits};

use std::io::{self, Write};
use std::{fmt, str};

// What a call of the library says; its numbers are those of the C header.
#[derive(Clone, Copy, Debug, PartialEq, Eq)]
pub enum Answer {
    Done,
    Full,
    Yes,
    No,
    Refused(u64),
}

impl From<u64> for Answer {
    ghost from_gives = { λ n a. a ≡ answer_of n };

    fn from(number: u64) -> Answer {
        match number {
            0 => Answer::Done,
            5 => Answer::Full,
            16 => Answer::Yes,
            17 => Answer::No,
            _ => Answer::Refused(number),
        }
    }
}

impl fmt::Display for Answer {
    ghost output = { λ a. Some (answer_text a) };

    fn fmt<W: fmt::Write>(&self, f: &mut fmt::Formatter<W>) -> fmt::Result {
        match self {
            Answer::Done => write!(f, "done"),
            Answer::Full => write!(f, "full"),
            Answer::Yes => write!(f, "yes"),
            Answer::No => write!(f, "no"),
            Answer::Refused(number) => write!(f, "refused {number}"),
        }
    }
}

// A number as sixteen large digits of base 16, handed to the writer in one piece. `{:016X}` writes the same, but the
// zeros in front by themselves: a call more of a writer without a buffer.
#[derive(Clone, Copy, Debug, PartialEq, Eq)]
pub struct Sixteen(pub u64);

impl fmt::Display for Sixteen {
    ghost output = { λ n. Some (sixteen_digits n.0) };

    fn fmt<W: fmt::Write>(&self, f: &mut fmt::Formatter<W>) -> fmt::Result {
        let digits = all_digits(self.0);
        f.write_str(str::from_utf8(&digits).unwrap())
    }
}

// The digits, from the last to the first.
fn all_digits(number: u64) -> [u8; 16]
    ensures digits { result ≡ sixteen_digits number }
    ensures text { IsUtf8 result }
{
    let mut digits = [b'0'; 16];
    let mut rest = number;
    for place in (0..16).rev() {
        digits[place] = last_digit(rest);
        rest /= 16;
    }
    digits
}

fn last_digit(number: u64) -> u8
    ensures { result ≡ digit_glyph true (number % 16) }
{
    let digit = (number % 16) as u8;
    if digit < 10 {
        b'0' + digit
    } else {
        b'A' + (digit - 10)
    }
}

pub fn bad<W: Write>(out: &mut W, line: u64) -> io::Result<()>
    ensures { OnOk result (Appends (W.contents out.old) (W.contents out.new) (codes "bad " ++ decimal line ++ codes "\n")) }
{
    writeln!(out, "bad {line}")
}

pub fn done<W: Write>(out: &mut W) -> io::Result<()>
    ensures { OnOk result (Appends (W.contents out.old) (W.contents out.new) (codes "done\n")) }
{
    writeln!(out, "done")
}

// What a call says: `fine` stands for what it does with no more to say.
pub fn verdict<W: Write>(out: &mut W, said: Answer, fine: &[u8]) -> io::Result<()>
    ensures fine { said ≡ Answer.Done → OnOk result (Appends (W.contents out.old) (W.contents out.new) fine.now) }
    ensures told { said ≢ Answer.Done → OnOk result (Appends (W.contents out.old) (W.contents out.new) (answer_text said)) }
{
    match said {
        Answer::Done => out.write_all(fine),
        _ => write!(out, "{said}"),
    }
}

// The same for a call that does what it is asked for, or refuses.
pub fn reply<W: Write>(out: &mut W, said: Answer) -> io::Result<()>
    ensures { OnOk result (Appends (W.contents out.old) (W.contents out.new) (answer_text said ++ codes "\n")) }
{
    verdict(out, said, b"done")?;
    writeln!(out)
}
