// Keys: nine numbers, in the order in which they are packed.
ghost use Rattle.std.specs.Prelude.{◌≡◌};
ghost use Rattle.moment.specs.Key.{listed, packs, fields_of, legal_of};
ghost use Rattle.calls.specs.Numbers.{number};
ghost use Rattle.abi.specs.Values.{value_or, fields_at};

use crate::hand_back;
use moment::{Fields, Moment};

// The fields that nine numbers are.
#[tactic(auto, unfolding(crate::specs::Values::fields_at))]
fn fields_at(n: &[u64; 9]) -> Fields
    ensures { result ≡ fields_at n.now }
{
    let &[
        year,
        month,
        day,
        hour,
        minute,
        second,
        hundredth,
        camera,
        number,
    ] = n;
    Fields {
        moment: Moment {
            year,
            month,
            day,
            hour,
            minute,
            second,
        },
        hundredth,
        camera,
        number,
    }
}

// The key of nine fields, in `key`; or 3.
pub fn pannuqreik_pack(fields: &[u64; 9], key: &mut u64) -> u64
    ensures { (result ≡ number (packs (fields_at fields.now))) × (key.new ≡ value_or (packs (fields_at fields.now)) key.old) }
{
    hand_back(moment::pack(fields_at(fields)), key)
}

// The nine fields of any key.
pub fn pannuqreik_unpack(key: u64, fields: &mut [u64; 9])
    ensures { fields.new ≡ listed (fields_of key) }
{
    let f = moment::unpack(key);
    let m = f.moment;
    *fields = [
        m.year,
        m.month,
        m.day,
        m.hour,
        m.minute,
        m.second,
        f.hundredth,
        f.camera,
        f.number,
    ];
}

// Is the key legal?
pub fn pannuqreik_legal(key: u64) -> bool
    ensures { result ≡ legal_of key }
{
    moment::legal(key)
}
