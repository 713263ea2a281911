// Keys, as exported: each is the call of the same name in `abi`, under the same promise.
ghost use Rattle.std.specs.Prelude.{◌≡◌};
ghost use Rattle.moment.specs.Key.{listed, packs, fields_of, legal_of};
ghost use Rattle.calls.specs.Numbers.{number};
ghost use Rattle.abi.specs.Values.{value_or, fields_at};

use abi::keys;

// The key of nine fields, in `key`; or 3.
#[unsafe(no_mangle)]
pub extern "C" fn pannuqreik_pack(fields: &[u64; 9], key: &mut u64) -> u64
    ensures { (result ≡ number (packs (fields_at fields.now))) × (key.new ≡ value_or (packs (fields_at fields.now)) key.old) }
{
    keys::pannuqreik_pack(fields, key)
}

// The nine fields of any key.
#[unsafe(no_mangle)]
pub extern "C" fn pannuqreik_unpack(key: u64, fields: &mut [u64; 9])
    ensures { fields.new ≡ listed (fields_of key) }
{
    keys::pannuqreik_unpack(key, fields)
}

// Is the key legal?
#[unsafe(no_mangle)]
pub extern "C" fn pannuqreik_legal(key: u64) -> bool
    ensures { result ≡ legal_of key }
{
    keys::pannuqreik_legal(key)
}
