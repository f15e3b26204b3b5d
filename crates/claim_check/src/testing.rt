// Whether the test of a verdict is one for its fault, judged within the cone of the path's end; and what a flag for each test, told
// before, says of it.
ghost use Rattle.std.specs.Prelude.{◌↔◌, Bool, IsTrue};
ghost use Rattle.pd_base.specs.Target.{target_of};
ghost use Rattle.netlist.specs.Paths.{IsPrefix};
ghost use Rattle.runs.specs.Lawful.{AreLawfulTests, IsLawfulTest};
ghost use Rattle.good_runs.specs.Faults.{IsNumber};
ghost use Rattle.good_runs.specs.GoodRun.{HasNonrobustTest, HasTest, IsTestOf};
ghost use Rattle.pair_judging.specs.Judges.{IsJudgeOf};
ghost use Rattle.claim_check.specs.FaultsInRows.{HasTrueFlag};
ghost use Rattle.claim_check.specs.Right.{HasItsTest};

use crate::fault::Fault;
use crate::numbered::numbered;
use netlist::Netlist;
use pair_judging::{ConeJudge, Target};
use pd_base::{Kind, Test};
use runs::{Run, Verdict};

// Whether the test of the verdict on a fault, if it has one, is a test of the fault.
pub(crate) fn has_its_test(net: &Netlist, run: &Run, fault: &Fault, judge: &mut ConeJudge) -> bool
    requires prefix { IsPrefix net.now fault.now.path.now }
    requires lawful { AreLawfulTests net.now run.now.tests }
    requires judge { IsJudgeOf 4 net.now judge.old }
    ensures tests { IsTrue result ↔ HasItsTest net.now run.now fault.now.number fault.now.direction fault.now.path.now fault.now.verdict }
    ensures judge { IsJudgeOf 4 net.now judge.new }
{
    match fault.verdict {
        Verdict::Robust { test } => has_test(net, run.tests.as_slice(), fault, test, judge),
        Verdict::Nonrobust { test, .. } => {
            has_nonrobust_test(net, run.tests.as_slice(), fault, test, judge)
        }
        _ => true,
    }
}

// Whether the test of this number is a robust one for the fault.
fn has_test(
    net: &Netlist,
    tests: &[Test],
    fault: &Fault,
    number: u32,
    judge: &mut ConeJudge,
) -> bool
    requires prefix { IsPrefix net.now fault.now.path.now }
    requires lawful { AreLawfulTests net.now tests.now }
    requires judge { IsJudgeOf 4 net.now judge.old }
    ensures tests { IsTrue result ↔ HasTest net.now tests.now fault.now.number (target_of fault.now.path.now fault.now.direction Kind.Robust) number }
    ensures judge { IsJudgeOf 4 net.now judge.new }
{
    match numbered(tests, number) {
        Some(test) => is_test_of(net, fault, Kind::Robust, test, judge),
        None => false,
    }
}

// Whether the test of this number is a nonrobust one for the fault, and no robust one.
fn has_nonrobust_test(
    net: &Netlist,
    tests: &[Test],
    fault: &Fault,
    number: u32,
    judge: &mut ConeJudge,
) -> bool
    requires prefix { IsPrefix net.now fault.now.path.now }
    requires lawful { AreLawfulTests net.now tests.now }
    requires judge { IsJudgeOf 4 net.now judge.old }
    ensures tests { IsTrue result ↔ HasNonrobustTest net.now tests.now fault.now.number fault.now.direction fault.now.path.now number }
    ensures judge { IsJudgeOf 4 net.now judge.new }
{
    match numbered(tests, number) {
        Some(test) => {
            let robust = Target {
                path: fault.path,
                direction: fault.direction,
                kind: Kind::Robust,
            };
            is_test_of(net, fault, Kind::Nonrobust, test, judge)
                && !judge.meets(net, &robust, &test.pair)
        }
        None => false,
    }
}

// Whether a test names a fault and this kind, and its pair meets the conditions.
fn is_test_of(net: &Netlist, fault: &Fault, kind: Kind, test: &Test, judge: &mut ConeJudge) -> bool
    requires prefix { IsPrefix net.now fault.now.path.now }
    requires lawful { IsLawfulTest net.now test.now }
    requires judge { IsJudgeOf 4 net.now judge.old }
    ensures tests { IsTrue result ↔ IsTestOf net.now fault.now.number (target_of fault.now.path.now fault.now.direction kind) test.now }
    ensures judge { IsJudgeOf 4 net.now judge.new }
{
    let target = Target {
        path: fault.path,
        direction: fault.direction,
        kind,
    };
    test.path == fault.number
        && test.dir == fault.direction
        && test.kind == kind
        && judge.meets(net, &target, &test.pair)
}

// Whether the flag of a verdict's test is true, where each test has one; a verdict without a test, or whose test has no flag, lacks nothing.
pub(crate) fn has_true_flag(verdict: Verdict, flags: &[bool]) -> bool
    ensures { IsTrue result ↔ HasTrueFlag flags.now verdict }
{
    match verdict {
        Verdict::Robust { test } => is_true_flag(flags, test),
        Verdict::Nonrobust { test, .. } => is_true_flag(flags, test),
        _ => true,
    }
}

// Whether the flag of this number, if there is one, is true.
fn is_true_flag(flags: &[bool], number: u32) -> bool
    ensures { IsTrue result ↔ ((flag : Bool) → IsNumber flags.now number flag → IsTrue flag) }
{
    match numbered(flags, number) {
        Some(flag) => *flag,
        None => true,
    }
}
