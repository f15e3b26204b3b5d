// A refusal: its cause, and what its line on err says. The command that refuses makes both of a reason of its own, beside that reason;
// here nothing is known of any.
ghost use Rattle.std.specs.Prelude.{◌≡◌, ◌≤◌, ◌++◌, length, take};
ghost use Rattle.pd_io.specs.Seen.{sink_seen};
ghost use Rattle.calls.specs.Lines.{refusal_line};
ghost use Rattle.calls.specs.Parts.{parts_text};
ghost use Rattle.calls.specs.Reports.{LineEnds};

use crate::telling::write_line;
use crate::{Cause, Part};
use pd_base::Items;
use pd_io::{FileFault, Sink};
use std::marker::Model;

/// How many parts a line may have, the name at its end not counted.
pub const MOST_PARTS: usize = 6;

/// A refusal of the words or the inputs of a call, before anything was written. It is seen as its cause and the text of its line on err,
/// and owns all that it takes to write that line.
#[derive(Drop)]
pub struct Refusal {
    cause: Cause,
    parts: [Part; MOST_PARTS],
    // How many of the parts there are: the first ones.
    count: usize,
    // What stands behind them.
    name: Option<Items<u8>>,
}

impl Model for Refusal {
    ghost use Rattle.std.specs.Prelude.{◌≤◌};
    ghost use Rattle.calls.specs.CauseAndText.{CauseAndText};

    ghost Value = { CauseAndText };

    ghost use Rattle.calls.specs.RefusalParts.{cause_and_text};
    ghost use Rattle.calls.specs.declared.refusal.TheConstants.{MOST_PARTS};

    ghost view = { cause_and_text };

    ghost invariant = { λ r. r.count ≤ MOST_PARTS };
}

impl Refusal {
    ghost use Rattle.calls.specs.CauseAndText.{refusal_for};

    /// A refusal for this cause, whose line has these parts.
    pub fn new(cause: Cause, parts: &[Part]) -> Refusal
        requires { length parts.now ≤ MOST_PARTS }
        ensures { result ≡ refusal_for cause (parts_text parts.now) }
    {
        Refusal {
            cause,
            parts: array_of(parts),
            count: parts.len(),
            name: None,
        }
    }

    /// A refusal for this cause, whose line has these parts and a name behind them.
    pub fn naming(cause: Cause, parts: &[Part], name: Items<u8>) -> Refusal
        requires { length parts.now ≤ MOST_PARTS }
        ensures { result ≡ refusal_for cause (parts_text parts.now ++ name) }
    {
        Refusal {
            cause,
            parts: array_of(parts),
            count: parts.len(),
            name: Some(name),
        }
    }

    /// Its cause.
    pub fn cause(&self) -> Cause
        ensures { result ≡ self.now.cause }
    {
        self.cause
    }

    // Writes its line.
    pub(crate) fn write<E: Sink>(&self, err: &mut E) -> Result<(), FileFault>
        ensures { LineEnds (refusal_line self.now) result
            (sink_seen E.Sink err.old) (sink_seen E.Sink err.new) }
    {
        let parts = &self.parts[..self.count];
        match &self.name {
            Some(name) => write_line(err, parts, name.as_slice()),
            None => write_line(err, parts, b""),
        }
    }
}

// These parts, in front of an array.
fn array_of(parts: &[Part]) -> [Part; MOST_PARTS]
    requires { length parts.now ≤ MOST_PARTS }
    ensures { take (length parts.now) result ≡ parts.now }
{
    let mut array = [Part::Number(0); MOST_PARTS];
    for (index, part) in parts.iter().enumerate() {
        array[index] = *part;
    }
    array
}
