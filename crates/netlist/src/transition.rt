// What a transition leads to.
ghost use Rattle.std.specs.Prelude.{◌≡◌};
ghost use Rattle.netlist.specs.Conditions.{final_bit};

use pd_base::Direction;

/// The value that a source has after its transition.
pub fn final_bit(dir: Direction) -> bool
    ensures { result ≡ final_bit dir }
{
    match dir {
        Direction::Rise => true,
        Direction::Fall => false,
    }
}
