// The three values of hazard analysis, and the operations on one or two of them.
ghost use Rattle.std.specs.Prelude.{◌≡◌, not, Some, is_some, if◌then◌else◌, option_map};
ghost use Rattle.netlist.specs.Steadiness.{is_known_as};
ghost use Rattle.logic_values.specs.Known.{known};

/// What hazard analysis with three values tells of a line under a pair of vectors: the value at which it is steady, if it is.
#[derive(Clone, Copy, Debug, PartialEq, Eq)]
pub enum Steady {
    /// Steady at 0.
    Zero,
    /// Steady at 1.
    One,
    /// Not steady. Its values under the two vectors may be equal all the same.
    Moving,
}

impl Steady {
    // Whether the line is steady at this bit.
    pub(crate) fn is_at(self, bit: bool) -> bool
        ensures { result ≡ is_known_as bit (known self) }
    {
        match self {
            Steady::Zero => !bit,
            Steady::One => bit,
            Steady::Moving => false,
        }
    }

    /// Whether the line is steady, at either value.
    pub fn is_steady(self) -> bool
        ensures { result ≡ is_some (known self) }
    {
        match self {
            Steady::Zero | Steady::One => true,
            Steady::Moving => false,
        }
    }
}

// Steady at this bit.
pub(crate) fn steady_at(bit: bool) -> Steady
    ensures { known result ≡ Some bit }
{
    if bit { Steady::One } else { Steady::Zero }
}

// A source is steady where both vectors have one bit there.
pub(crate) fn agreed(first: bool, second: bool) -> Steady
    ensures { known result ≡ (if is_known_as first (Some second) then Some second else None) }
{
    if first == second {
        steady_at(second)
    } else {
        Steady::Moving
    }
}

// What an inversion makes of a line's steadiness.
pub(crate) fn complement(value: Steady) -> Steady
    ensures { known result ≡ option_map not (known value) }
{
    match value {
        Steady::Zero => Steady::One,
        Steady::One => Steady::Zero,
        Steady::Moving => Steady::Moving,
    }
}
