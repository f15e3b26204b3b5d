// The files of a call, by their role.
ghost use Rattle.std.specs.Prelude.{◌≡◌};
ghost use Rattle.calls.specs.Lines.{role_word};

/// What a file is to a command. A role may be one that is read by one command and written by another.
#[derive(Clone, Copy, Debug, PartialEq, Eq)]
pub enum Role {
    /// The netlist.
    Net,
    /// The delays.
    Delays,
    /// The scan chains.
    Scan,
    /// The tests.
    Tests,
    /// The report on the listed paths.
    Report,
    /// The proofs.
    Proofs,
    /// A tester's log.
    Log,
    /// The tests that are kept of others.
    Out,
}

impl Role {
    /// The word for the file in a line on err.
    pub fn word(self) -> &'static [u8]
        ensures { result.now ≡ role_word self }
    {
        match self {
            Role::Net => b"NET",
            Role::Delays => b"DELAYS",
            Role::Scan => b"SCAN",
            Role::Tests => b"TESTS",
            Role::Report => b"REPORT",
            Role::Proofs => b"PROOFS",
            Role::Log => b"LOG",
            Role::Out => b"OUT",
        }
    }
}
