// The numbers that a refusal stands for: a code and a place, or both in one number.
#![tactic(auto)]

ghost use Rattle.std.specs.Prelude.{◌≡◌, ◌≤◌};
ghost use Rattle.model.specs.Rows.{code_of, packed};

use model::{Refusal, Row};

pub fn code_of(r: Row) -> u32
    ensures { result ≡ code_of r }
{
    r as u32
}

// CODE times 65,536 plus PLACE.
pub fn packed(r: Refusal) -> u32
    requires { r.place ≤ 65535 }
    ensures { result ≡ packed r }
{
    code_of(r.row) * 65536 + r.place
}
