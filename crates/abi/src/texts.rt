// Capture texts and sub-second texts.
ghost use Rattle.std.specs.Prelude.{◌≡◌};
ghost use Rattle.exif.specs.Reading.{reads};
ghost use Rattle.exif.specs.SubSecond.{reads_sub_second};
ghost use Rattle.exif.specs.Writing.{writes, leaves};
ghost use Rattle.calls.specs.Numbers.{number};
ghost use Rattle.abi.specs.Values.{value_or, six, six_or};

use crate::hand_back;
use calls::numbers;
use moment::Moment;

// The six numbers of a moment.
fn six(m: Moment) -> [u64; 6]
    ensures { result ≡ six m }
{
    [m.year, m.month, m.day, m.hour, m.minute, m.second]
}

// Year, month, day, hour, minute and second of the capture text that is that part of the block; or 11, 12, 10.
pub fn pannuqreik_read_text(block: &[u8], place: usize, length: usize, fields: &mut [u64; 6]) -> u64
    ensures { (result ≡ number (reads block.now place length)) × (fields.new ≡ six_or (reads block.now place length) fields.old) }
{
    let text = exif::read_text(block, place, length);
    hand_back(text.map(six), fields)
}

// The two-digit form of the key's date and time, 20 bytes at a place of the buffer; or 3, 11.
pub fn pannuqreik_write_text(buffer: &mut [u8], place: usize, key: u64) -> u64
    ensures { (result ≡ number (writes buffer.old place key)) × (buffer.new ≡ leaves (writes buffer.old place key) buffer.old) }
{
    let written = exif::write_text(buffer, place, key);
    numbers::of_reply(written)
}

// The hundredths of the sub-second text that is that part of the block; or 11, 10.
pub fn pannuqreik_read_sub_second(
    block: &[u8],
    place: usize,
    length: usize,
    hundredths: &mut u64,
) -> u64
    ensures { (result ≡ number (reads_sub_second block.now place length)) × (hundredths.new ≡ value_or (reads_sub_second block.now place length) hundredths.old) }
{
    hand_back(exif::read_sub_second(block, place, length), hundredths)
}
