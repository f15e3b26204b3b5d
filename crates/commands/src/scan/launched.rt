// Whether the last shift of the chains launches the pairs of all tests, and the first whose pair it does not.
ghost use Rattle.std.specs.Prelude.{◌≡◌, All, IfErr, MatchOption, OnOk};
ghost use Rattle.commands.specs.Grading.{IsFirstWithout};
ghost use Rattle.commands.specs.Inside.InputJudging.{FailsFor};
ghost use Rattle.commands.specs.Inside.ScanJudging.{HasBitsFor, HaveUnlaunchedPair, ShiftsInAll};
ghost use Rattle.commands.specs.Scan.{unlaunched_pair};

use calls::{Cause, Ending, Part, Refusal};
use pd_base::Test;
use scan_load::shifts_on_all;
use scan_order::Chains;

/// Refuses tests of which one has a pair that the last shift does not launch.
pub(crate) fn require_launched(chains: &Chains, tests: &[Test]) -> Result<(), Ending>
    requires { All (λ test. HasBitsFor chains.now test.pair) tests.now }
    ensures shifts { OnOk result (All (ShiftsInAll chains.now) tests.now) }
    ensures fails { IfErr result (FailsFor (HaveUnlaunchedPair chains.now tests.now)) }
{
    match first_unlaunched(chains, tests) {
        None => Ok(()),
        Some(number) => Err(Ending::Refused(unlaunched_pair(number))),
    }
}

// The number of the first test whose pair the last shift does not launch.
fn first_unlaunched(chains: &Chains, tests: &[Test]) -> Option<u64>
    requires { All (λ test. HasBitsFor chains.now test.pair) tests.now }
    ensures { MatchOption result (All (ShiftsInAll chains.now) tests.now) (IsFirstWithout (ShiftsInAll chains.now) tests.now) }
{
    for (place, test) in tests.iter().enumerate() {
        if !shifts_on_all(chains, &test.pair) {
            return Some(place as u64 + 1);
        }
    }
    None
}

// The refusal of the test of this number.
fn unlaunched_pair(number: u64) -> Refusal
    ensures { result ≡ unlaunched_pair number }
{
    Refusal::new(
        Cause::Pair,
        &[
            Part::Words(b"scan: test "),
            Part::Number(number),
            Part::Words(b" pair"),
        ],
    )
}
