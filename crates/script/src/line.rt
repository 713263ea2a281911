// The words of a line, handed out from the front, and the numbers that they say.
ghost use Rattle.std.specs.Prelude.{◌≡◌, ◌≢◌, ◌^◌, ◌<◌, ◌≤◌, length, slice_index, MatchOption};
ghost use Rattle.std.specs.Option.{SomeIff};
ghost use Rattle.std.specs.Str.Parse.{IsNumeral, digits_value};

use std::str::{self, Split};

// The words that are left of a line. One blank stands between two, so a second one makes an empty word, which is no
// name and no number.
pub type Words<'a> = Split<'a, char>;

// A word without a sign, which std would take in front of a number. Bytes that are no text are no number.
fn unsigned(word: &[u8]) -> Option<&str>
    ensures { MatchOption result (¬ (IsNumeral 10 word.now) × ¬ (IsNumeral 16 word.now)) (λ w. (w.now ≡ word.now) × (slice_index word.now 0 ≢ 43)) }
{
    let text = str::from_utf8(word).ok()?;
    if text.starts_with('+') {
        None
    } else {
        Some(text)
    }
}

// The number that decimal digits say, as many as one likes.
pub fn decimal(word: &[u8]) -> Option<u64>
    ensures { SomeIff result (IsNumeral 10 word.now × (digits_value 10 word.now < 2 ^ 64)) (digits_value 10 word.now) }
{
    unsigned(word)?.parse().ok()
}

// The number that one to sixteen hexadecimal digits say.
pub fn hexadecimal(word: &[u8]) -> Option<u64>
    ensures { SomeIff result (IsNumeral 16 word.now × (length word.now ≤ 16)) (digits_value 16 word.now) }
{
    if 16 < word.len() {
        return None;
    }
    u64::from_str_radix(unsigned(word)?, 16).ok()
}
