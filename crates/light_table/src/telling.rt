// One line a case: whether it holds, and what it says.
ghost use Rattle.std.specs.Prelude.{◌≡◌, true, false, OnOk, ◌++◌, codes};
ghost use Rattle.std.specs.Io.KnownBytes.{Appends};

use std::io::{self, Write};

pub fn tell<W: Write>(out: &mut W, case: &[u8], holds: bool) -> io::Result<()>
    ensures holds { holds ≡ true → OnOk result (Appends (W.contents out.old) (W.contents out.new) (codes "holds: " ++ case.now ++ codes "\n")) }
    ensures fails { holds ≡ false → OnOk result (Appends (W.contents out.old) (W.contents out.new) (codes "FAILS: " ++ case.now ++ codes "\n")) }
{
    if holds {
        out.write_all(b"holds: ")?;
    } else {
        out.write_all(b"FAILS: ")?;
    }
    out.write_all(case)?;
    out.write_all(b"\n")
}
