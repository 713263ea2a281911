// What a key is: the nine fields of a frame, legal by the Gregorian calendar, packed into one number from the top bit
// down. Nothing here refuses by itself but `pack`, and every function answers for any numbers.
#![tactic(auto)]

ghost use Rattle.std.specs.Prelude.{◌≡◌, ◌&&◌, ◌+◌, ◌/◌, ◌%◌, ◌<◌, leb};
ghost use Rattle.moment.specs.Calendar.{leap_of, days_in, date_exists, time_exists, moment_exists};
ghost use Rattle.moment.specs.Key.{key_layout, listed, moment_of, in_range, key_of_fields, packs, fields_of, legal_of, first_key, years_of_keys};
ghost use Rattle.layout.specs.Layout.{Fit};
ghost use Rattle.refusal.specs.Said.{said};

use refusal::Refusal;

// A moment: the date and time of day that a capture text says.
#[derive(Clone, Copy, Debug, PartialEq, Eq, PartialOrd, Ord, Hash)]
pub struct Moment {
    pub year: u64,
    pub month: u64,
    pub day: u64,
    pub hour: u64,
    pub minute: u64,
    pub second: u64,
}

// The nine fields of a key, in the order in which they are packed: so fields in range order as their keys do.
#[derive(Clone, Copy, Debug, PartialEq, Eq, PartialOrd, Ord, Hash)]
pub struct Fields {
    pub moment: Moment,
    pub hundredth: u64,
    pub camera: u64,
    pub number: u64,
}

// A field of a key: its lowest bit, how many values its bits can say, and the most that a legal key has there.
#[derive(Clone, Copy)]
struct Field {
    lowest: u64,
    size: u64,
    most: u64,
}

impl Field {
    // What the field says in a key.
    fn of(self, key: u64) -> u64
        requires { (0 < self.lowest) × (0 < self.size) }
        ensures { result ≡ key / self.lowest % self.size }
    {
        key / self.lowest % self.size
    }
}

// The fields, from the lowest bit up. Months and days begin at 1, years at 1990, all others at 0.
const NUMBER: Field = Field {
    lowest: 1,
    size: 1 << 14,
    most: 9999,
};

const CAMERA: Field = Field {
    lowest: NUMBER.lowest * NUMBER.size,
    size: 1 << 5,
    most: 31,
};

const HUNDREDTH: Field = Field {
    lowest: CAMERA.lowest * CAMERA.size,
    size: 1 << 7,
    most: 99,
};

const SECOND: Field = Field {
    lowest: HUNDREDTH.lowest * HUNDREDTH.size,
    size: 1 << 6,
    most: 59,
};

const MINUTE: Field = Field {
    lowest: SECOND.lowest * SECOND.size,
    size: 1 << 6,
    most: 59,
};

const HOUR: Field = Field {
    lowest: MINUTE.lowest * MINUTE.size,
    size: 1 << 5,
    most: 23,
};

const DAY: Field = Field {
    lowest: HOUR.lowest * HOUR.size,
    size: 1 << 5,
    most: 31,
};

const MONTH: Field = Field {
    lowest: DAY.lowest * DAY.size,
    size: 1 << 4,
    most: 12,
};

const YEAR: Field = Field {
    lowest: MONTH.lowest * MONTH.size,
    size: 1 << 12,
    most: 2999,
};

const LEAST_YEAR: u64 = 1990;

// Every month has the days to this one.
const SURE_DAY: u64 = 28;

// The first moment of the first year, and of the year after the last: month 1, day 1.
const LEAST: u64 = LEAST_YEAR * YEAR.lowest + MONTH.lowest + DAY.lowest;

const END: u64 = LEAST + (YEAR.most + 1 - LEAST_YEAR) * YEAR.lowest;

// The last frame of a day.
const LAST: u64 = HOUR.most * HOUR.lowest
    + MINUTE.most * MINUTE.lowest
    + SECOND.most * SECOND.lowest
    + HUNDREDTH.most * HUNDREDTH.lowest
    + CAMERA.most * CAMERA.lowest
    + NUMBER.most;

// What each field below the year lacks to its size when it is at its most, counted from its least: 4 months, 4 days,
// 8 hours, 4 minutes, 4 seconds, 28 hundredths, no camera, 6384 file numbers. All even. Late: no slack for the day.
const LATE_SLACK: u64 = YEAR.lowest - MONTH.most * MONTH.lowest + DAY.lowest - 1 - LAST;

const SLACK: u64 = LATE_SLACK + MONTH.lowest - SURE_DAY * DAY.lowest;

// The lowest bit of each field but the file number.
const LOWEST: u64 = YEAR.lowest
    + MONTH.lowest
    + DAY.lowest
    + HOUR.lowest
    + MINUTE.lowest
    + SECOND.lowest
    + HUNDREDTH.lowest
    + CAMERA.lowest;

// Is it a leap year?
#[tactic(auto, unfolding(crate::specs::Calendar::leap_of))]
pub fn leap(year: u64) -> bool
    ensures { result ≡ leap_of year }
{
    (year % 400 == 0) | ((year % 4 == 0) & (year % 100 != 0))
}

// The days of a month; a month that does not exist has none.
#[tactic(auto, unfolding(crate::specs::Calendar::days_in))]
pub fn days_in(year: u64, month: u64) -> u64
    ensures { result ≡ days_in year month }
{
    match month {
        2 => { if leap(year) { 29 } else { 28 } }
        4 | 6 | 9 | 11 => 30,
        1..=12 => 31,
        _ => 0,
    }
}

// Has the month that day? Every month has the first 28.
#[tactic(auto, using(crate::proofs::Quick::early, crate::proofs::Quick::late))]
fn day_exists(year: u64, month: u64, day: u64) -> bool
    ensures { result ≡ (leb 1 day && leb day (days_in year month)) }
{
    if (1 <= day) & (day <= SURE_DAY) {
        return (1 <= month) & (month <= MONTH.most);
    }
    (SURE_DAY < day) & (day <= days_in(year, month))
}

// Is it a Gregorian date of the years 1990 to 2999?
#[tactic(auto, unfolding(crate::specs::Calendar::date_exists), using(crate::proofs::Quick::all_four))]
pub fn date_exists(year: u64, month: u64, day: u64) -> bool
    ensures { result ≡ date_exists year month day }
{
    (LEAST_YEAR <= year) & (year <= YEAR.most) & day_exists(year, month, day)
}

// Is it a time of day?
#[tactic(auto, unfolding(crate::specs::Calendar::time_exists))]
pub fn time_exists(hour: u64, minute: u64, second: u64) -> bool
    ensures { result ≡ time_exists hour minute second }
{
    (hour <= HOUR.most) & (minute <= MINUTE.most) & (second <= SECOND.most)
}

// Is it a date and a time of day?
#[tactic(auto, unfolding(crate::specs::Calendar::moment_exists))]
pub fn moment_exists(m: Moment) -> bool
    ensures { result ≡ moment_exists m }
{
    date_exists(m.year, m.month, m.day) & time_exists(m.hour, m.minute, m.second)
}

// The date and time of day of the fields.
#[tactic(auto, unfolding(crate::specs::Key::moment_of))]
pub fn moment_of(fields: Fields) -> Moment
    ensures { result ≡ moment_of fields }
{
    fields.moment
}

// Are the fields those of a legal key?
#[tactic(auto, unfolding(crate::specs::Key::in_range, crate::specs::Key::moment_of))]
pub fn in_range(f: Fields) -> bool
    ensures { result ≡ in_range f }
{
    moment_exists(f.moment)
        & (f.hundredth <= HUNDREDTH.most)
        & (f.camera <= CAMERA.most)
        & (f.number <= NUMBER.most)
}

// The fields put side by side, from the top bit down.
#[tactic(auto, unfolding(crate::specs::Key::key_of_fields))]
fn joined(f: Fields) -> u64
    requires { Fit key_layout (listed f) }
    ensures { result ≡ key_of_fields f }
{
    let m = f.moment;
    let date = (m.year * MONTH.size + m.month) * DAY.size + m.day;
    let time = ((date * HOUR.size + m.hour) * MINUTE.size + m.minute) * SECOND.size + m.second;
    ((time * HUNDREDTH.size + f.hundredth) * CAMERA.size + f.camera) * NUMBER.size + f.number
}

// The key of the fields, or 3 where one is out of range.
#[tactic(auto, unfolding(crate::specs::Key::packs), using(crate::proofs::Ranges::fits_in_range))]
pub fn pack(f: Fields) -> Result<u64, Refusal>
    ensures { said result ≡ packs f }
{
    if !in_range(f) {
        return Err(Refusal::Range);
    }
    Ok(joined(f))
}

// The fields of any key, legal or not.
#[tactic(auto, unfolding(crate::specs::Key::fields_of))]
pub fn unpack(key: u64) -> Fields
    ensures { result ≡ fields_of key }
{
    let moment = Moment {
        year: YEAR.of(key),
        month: MONTH.of(key),
        day: DAY.of(key),
        hour: HOUR.of(key),
        minute: MINUTE.of(key),
        second: SECOND.of(key),
    };
    Fields {
        moment,
        hundredth: HUNDREDTH.of(key),
        camera: CAMERA.of(key),
        number: NUMBER.of(key),
    }
}

// A key that may have one of the last days of a month: its sum leaves the day open, and the month's length decides.
#[tactic(auto, using(crate::proofs::AtOnce::late_legal, crate::proofs::AtOnce::late_not))]
fn last_day_exists(key: u64, k: u64) -> bool
    requires { (key ≡ k + first_key) × (k < years_of_keys) }
    ensures { result ≡ legal_of key }
{
    if (k + LATE_SLACK) & LOWEST != k & LOWEST {
        return false;
    }
    day_exists(YEAR.of(key), MONTH.of(key), DAY.of(key))
}

// Is the key legal? By one sum. Less the first moment of 1990 every field counts from 0; with SLACK added, a field that is
// over its most, and no other, carries into the lowest bit of the field above. Nearly all keys have a day to the 28th.
#[tactic(auto, using(crate::proofs::AtOnce::outside, crate::proofs::AtOnce::early_legal))]
pub fn legal(key: u64) -> bool
    ensures { result ≡ legal_of key }
{
    if !((LEAST <= key) & (key < END)) {
        return false;
    }
    let k = key - LEAST;
    if (k + SLACK) & LOWEST == k & LOWEST {
        return true;
    }
    last_day_exists(key, k)
}
