// The mode of a run: which pairs of vectors a tester can apply to the circuit.
ghost use Rattle.std.specs.Prelude.{◌≡◌, option_map};
ghost use Rattle.command_line.specs.Modes.{is_skewed, mode_of, run_mode_of};

/// How a tester applies the two vectors of a pair to the flip-flops.
#[derive(Clone, Copy, Debug)]
pub enum Mode<'a> {
    /// Each flip-flop holds a bit of either vector (enhanced scan), so any pair can be applied.
    Enhanced,
    /// The second bit of a flip-flop is what the circuit computes for it from the first vector (launch on capture).
    Broadside,
    /// The second bit of a flip-flop is the first one of the flip-flop before it in its scan chain (launch by the last shift). The file of
    /// this name says which stands before it.
    Skewed(&'a str),
}

// The mode that the value of its option names, with the name that a scan file was given. A value that was taken is the word of a mode, and
// a skewed load has such a name.
pub(crate) fn mode_of<'a>(value: Option<&'a str>, scan: Option<&'a str>) -> Mode<'a>
    ensures { run_mode_of result ≡ mode_of (option_map (λ text. text.now) value.entry) (option_map (λ text. text.now) scan.entry) }
{
    match value {
        Some(word) if word == "broadside" => Mode::Broadside,
        Some(word) if word == "skewed" => Mode::Skewed(scan.unwrap_or("")),
        _ => Mode::Enhanced,
    }
}

// Whether this value names a skewed load.
pub(crate) fn is_skewed(value: Option<&str>) -> bool
    ensures { result ≡ is_skewed (option_map (λ text. text.now) value.entry) }
{
    match value {
        Some(word) => word == "skewed",
        None => false,
    }
}
