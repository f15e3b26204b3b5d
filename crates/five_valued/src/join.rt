// What an operation makes of two values. More of them are joined one by one.
ghost use Rattle.std.specs.Prelude.{◌≡◌, [], ◌∷◌};
ghost use Rattle.five_valued.specs.FiveValues.{controlled, parity_five, joined_five};

use crate::five::{Five, ending_five, steady_five};
use netlist::Op;

/// The value of a gate of this operation whose two pins have these values.
pub fn five_join(op: Op, a: Five, b: Five) -> Five
    ensures { result ≡ joined_five op (a ∷ b ∷ []) }
{
    match op {
        Op::And => controlled(false, a, b),
        Op::Or => controlled(true, a, b),
        Op::Xor => parity_five(a, b),
    }
}

// One value that ends at the controlling bit decides, and steadily where it is steady. Else both have to end at the other bit.
fn controlled(bit: bool, a: Five, b: Five) -> Five
    ensures { result ≡ controlled bit (a ∷ b ∷ []) }
{
    if a.is_steady_at(bit) || b.is_steady_at(bit) {
        steady_five(bit)
    } else if a.is_steady_at(!bit) && b.is_steady_at(!bit) {
        steady_five(!bit)
    } else if a.ends_at(bit) || b.ends_at(bit) {
        ending_five(bit)
    } else if a.ends_at(!bit) && b.ends_at(!bit) {
        ending_five(!bit)
    } else {
        Five::XX
    }
}

// The parity, where both bits under the second vector are known. It is steady where both values are.
fn parity_five(a: Five, b: Five) -> Five
    ensures { result ≡ parity_five (a ∷ b ∷ []) }
{
    let odd = a.ends_at(true) != b.ends_at(true);
    if a.is_steady() && b.is_steady() {
        steady_five(odd)
    } else if a.has_last() && b.has_last() {
        ending_five(odd)
    } else {
        Five::XX
    }
}
