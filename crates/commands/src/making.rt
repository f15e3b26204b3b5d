// The command `make`: the work of `gen` on a ladder, of which only a line is printed. It is a work without stages: nothing is read, and no
// file is written.
ghost use Rattle.std.specs.Prelude.{◌≡◌, ◌≤◌, [], IfOk};
ghost use Rattle.pd_base.specs.declared.limits.TheConstants.{MOST_STAGES};
ghost use Rattle.pd_io.specs.Seen.{FilesSeen, sink_seen};
ghost use Rattle.ladder.specs.Ladder.{ladder_circuit};
ghost use Rattle.command_line.specs.Commands.{make_call_of};
ghost use Rattle.command_line.specs.Words.{HasMakeNumbers};
ghost use Rattle.calls.specs.Calls.{Performs};
ghost use Rattle.commands.specs.Make.{GivesLadder, make_work};

use crate::preparing::run_of;
use calls::{Ending, print};
use command_line::MakeCommand;
use delay_annotation::Delays;
use ladder::ladder;
use netlist::Netlist;
use pd_base::{OutOfMemory, Rules};
use pd_io::Sink;
use run_files::ladder_line;
use std::alloc::Global;

/// How many paths of a ladder are listed, where it has as many.
pub const LADDER_PATHS: u32 = 100;

/// How many splits each search on a ladder may make.
pub const LADDER_BUDGET: u32 = 1_000;

/// Does the work of `make`, and tells how it ended. No file is touched, and the line is whole before out is.
pub(crate) fn make<O: Sink>(alloc: Global, command: &MakeCommand, out: &mut O) -> Ending
    requires { HasMakeNumbers (make_call_of command.now) }
    ensures { (files : FilesSeen) → Performs (make_work (make_call_of command.now)) result
        (record { files = files; out = sink_seen O.Sink out.old })
        (record { files = files; out = sink_seen O.Sink out.new }) }
{
    match made_line(alloc, command.stages) {
        Ok(text) => print(text.as_slice(), out),
        Err(refused) => Ending::NoMemory(refused),
    }
}

// The line of a good run of the ladder of so many stages.
fn made_line(alloc: Global, stages: u32) -> Result<Vec<u8>, OutOfMemory>
    requires some { 1 ≤ stages }
    requires few { stages ≤ MOST_STAGES }
    ensures { IfOk result (λ text. GivesLadder stages (record { files = []; out = text.items })) }
{
    let net = ladder(alloc, stages)?;
    line_on(alloc, stages, &net)
}

// The line of a good run of this ladder, where sources other than a path's own are held steady.
fn line_on(alloc: Global, stages: u32, net: &Netlist) -> Result<Vec<u8>, OutOfMemory>
    requires { net.now ≡ ladder_circuit stages }
    ensures { IfOk result (λ text. GivesLadder stages (record { files = []; out = text.items })) }
{
    // a netlist has a circuit
    let _ = net.sources();
    let delays = Delays::unit(alloc, net)?;
    let run = run_of(alloc, net, &delays, LADDER_PATHS, LADDER_BUDGET, Rules::Two)?;
    ladder_line(alloc, stages, net, &run)
}
