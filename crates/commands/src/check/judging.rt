// The run that the claim files spell, judged.
ghost use Rattle.std.specs.Prelude.{◌≡◌, IfErr, OnOk};
ghost use Rattle.command_line.specs.Commands.{run_call_of};
ghost use Rattle.command_line.specs.Words.{HasRunNumbers};
ghost use Rattle.delay_annotation.specs.Annotation.{Fits, delays_of};
ghost use Rattle.runs.specs.Lawful.{IsLawfulRun};
ghost use Rattle.netlist.specs.LinkedPairs.{FitRules};
ghost use Rattle.commands.specs.Check.{flaw_item, flaw_word, flawed};
ghost use Rattle.commands.specs.Inside.Checking.{FailsRun, IsGoodAndKeeps};

use calls::{Cause, Ending, Part, Refusal};
use claim_check::{Claim, Reason, check_run};
use command_line::RunCommand;
use delay_annotation::Delays;
use netlist::Netlist;
use runs::Run;
use std::alloc::Global;

// Refuses a run that is not good for the paths and the budget that are asked for.
pub(crate) fn judge_run(
    alloc: Global,
    command: &RunCommand,
    net: &Netlist,
    delays: &Delays,
    run: &Run,
) -> Result<(), Ending>
    requires fits { Fits net.now delays.now }
    requires numbers { HasRunNumbers (run_call_of command.now) }
    requires lawful { IsLawfulRun net.now run.now }
    requires fit { FitRules net.now run.now.rules }
    ensures good { OnOk result (IsGoodAndKeeps net.now (delays_of net.now delays.now) command.now.paths command.now.budget run.now) }
    ensures fails { IfErr result (FailsRun net.now (delays_of net.now delays.now) command.now.paths command.now.budget run.now) }
{
    match check_run(alloc, net, delays, command.paths, command.budget, run) {
        Ok(Claim::Holds) => Ok(()),
        Ok(Claim::Fails(item, flaw)) => Err(Ending::Refused(flawed(item, flaw))),
        Err(refused) => Err(Ending::NoMemory(refused)),
    }
}

// The refusal of a run with this flaw at the item of this number.
fn flawed(item: u32, flaw: Reason) -> Refusal
    ensures { result ≡ flawed item flaw }
{
    Refusal::new(
        Cause::Claims,
        &[
            Part::Words(b"check: "),
            Part::Words(flaw_item(flaw)),
            Part::Number(u64::from(item)),
            Part::Words(flaw_word(flaw)),
        ],
    )
}

// What item of a run has such a flaw.
fn flaw_item(flaw: Reason) -> &'static [u8]
    ensures { result.now ≡ flaw_item flaw }
{
    match flaw {
        Reason::WrongCount => b"count ",
        Reason::WrongPath | Reason::WrongLength => b"path ",
        Reason::BadRefutation | Reason::BadSpent => b"proof ",
        Reason::NotShared | Reason::BadTest | Reason::WrongExpected => b"fault ",
    }
}

// The word for the flaw.
fn flaw_word(flaw: Reason) -> &'static [u8]
    ensures { result.now ≡ flaw_word flaw }
{
    match flaw {
        Reason::WrongCount => b" WrongCount",
        Reason::WrongPath => b" WrongPath",
        Reason::WrongLength => b" WrongLength",
        Reason::BadRefutation => b" BadRefutation",
        Reason::BadSpent => b" BadSpent",
        Reason::NotShared => b" NotShared",
        Reason::BadTest => b" BadTest",
        Reason::WrongExpected => b" WrongExpected",
    }
}
