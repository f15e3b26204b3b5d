// The five values, what each tells of a line, and their inversion.
ghost use Rattle.std.specs.Prelude.{◌≡◌};
ghost use Rattle.five_valued.specs.FiveValues.{is_steady_at, is_known_steady, ends_at, has_last, steady_five, ending_five, inverted};

/// What is known of a line's state under a pair of vectors: the set of states of which it has one.
#[derive(Clone, Copy, Debug, PartialEq, Eq)]
pub enum Five {
    /// Steady at 0.
    S0,
    /// Steady at 1.
    S1,
    /// 0 under the second vector, steady or not.
    U0,
    /// 1 under the second vector, steady or not.
    U1,
    /// Any state.
    XX,
}

impl Five {
    // Whether the line is known to be steady at this bit.
    pub(crate) fn is_steady_at(self, bit: bool) -> bool
        ensures { result ≡ is_steady_at bit self }
    {
        match self {
            Five::S0 => !bit,
            Five::S1 => bit,
            Five::U0 | Five::U1 | Five::XX => false,
        }
    }

    // Whether it is known to be steady, at either bit.
    pub(crate) fn is_steady(self) -> bool
        ensures { result ≡ is_known_steady self }
    {
        match self {
            Five::S0 | Five::S1 => true,
            Five::U0 | Five::U1 | Five::XX => false,
        }
    }

    // Whether its value under the second vector is known to be this bit.
    pub(crate) fn ends_at(self, bit: bool) -> bool
        ensures { result ≡ ends_at bit self }
    {
        match self {
            Five::S0 | Five::U0 => !bit,
            Five::S1 | Five::U1 => bit,
            Five::XX => false,
        }
    }

    // Whether its value under the second vector is known.
    pub(crate) fn has_last(self) -> bool
        ensures { result ≡ has_last self }
    {
        match self {
            Five::S0 | Five::S1 | Five::U0 | Five::U1 => true,
            Five::XX => false,
        }
    }
}

// Steady at this bit.
pub(crate) fn steady_five(bit: bool) -> Five
    ensures { result ≡ steady_five bit }
{
    if bit { Five::S1 } else { Five::S0 }
}

// This bit under the second vector, steady or not.
pub(crate) fn ending_five(bit: bool) -> Five
    ensures { result ≡ ending_five bit }
{
    if bit { Five::U1 } else { Five::U0 }
}

/// The value of an inverter whose pin has this value.
pub fn five_invert(a: Five) -> Five
    ensures { result ≡ inverted a }
{
    match a {
        Five::S0 => Five::S1,
        Five::S1 => Five::S0,
        Five::U0 => Five::U1,
        Five::U1 => Five::U0,
        Five::XX => Five::XX,
    }
}
