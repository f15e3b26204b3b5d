// The three claim files, read.
ghost use Rattle.std.specs.Prelude.{IfOk};
ghost use Rattle.pd_io.specs.Seen.{files_seen};
ghost use Rattle.command_line.specs.Commands.{run_call_of};
ghost use Rattle.commands.specs.Inside.Checking.{AreWithinLimit, ReadsClaims};

use crate::inputs::text_from;
use calls::{Ending, Role};
use command_line::RunCommand;
use pd_io::Files;
use std::alloc::Global;

// The bytes of the three files.
#[derive(Drop)]
pub(crate) struct ClaimTexts {
    // Those of TESTS.
    pub(crate) tests: Vec<u8>,
    // Those of REPORT.
    pub(crate) report: Vec<u8>,
    // Those of PROOFS.
    pub(crate) proofs: Vec<u8>,
}

// Reads the three files in their order, up to the first that is not read, or is too long.
pub(crate) fn claim_texts<F: Files>(
    alloc: Global,
    command: &RunCommand,
    files: &mut F,
) -> Result<ClaimTexts, Ending>
    ensures within { IfOk result AreWithinLimit }
    ensures reads { ReadsClaims (run_call_of command.now) result
        (files_seen F.Files files.old) (files_seen F.Files files.new) }
{
    let tests = text_from(alloc, files, Role::Tests, command.tests)?;
    let report = text_from(alloc, files, Role::Report, command.report)?;
    let proofs = text_from(alloc, files, Role::Proofs, command.proofs)?;
    Ok(ClaimTexts {
        tests,
        report,
        proofs,
    })
}
