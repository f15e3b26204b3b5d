// A whole call of the program, over any files and sinks.
ghost use Rattle.std.specs.Prelude.{◌≡◌};
ghost use Rattle.pd_io.specs.Seen.{outside};
ghost use Rattle.command_line.specs.Commands.{bytes_of_words};
ghost use Rattle.calls.specs.Calls.{Ends, HasAcceptedInputs, IsDone, IsDoneOrNoMemory, NoneFailed};
ghost use Rattle.calls.specs.Laws.{KeepsLaws};
ghost use Rattle.commands.specs.Commands.{KeepsAskedLaws, asked_work};

use crate::dispatch::perform;
use calls::{Status, tell};
use pd_io::{Files, Sink};
use std::alloc::Global;

/// Does what the words ask for. The words are those behind the program's own name.
///
/// `gen NET DELAYS TESTS REPORT PROOFS` reads the first two files and writes the other three, then a summary on out. At status 0
/// the three files hold the texts of one good run: it lists the first paths of NET's circuit by nonincreasing length, each once, with
/// one verdict for each transition. A robust test samples a wrong value under every delay assignment that makes its path late; a
/// nonrobust one does where its side pins have settled, too; the refutation of an untestable fault excludes every pair of vectors of the
/// mode; an aborted fault spent its budget; and a nonrobust or aborted one tells why no robust test was found (`gen_work` in specs/Gen.antt).
///
/// NET, DELAYS, SCAN or LOG of more than 33,554,432 bytes are refused, other files that are read over 268,435,456 bytes, and so are a netlist
/// that has no circuit, a delay file that gives its pins no delays, and a circuit whose texts might grow too long.
///
/// `check NET DELAYS TESTS REPORT PROOFS` reads all five files and writes none. At status 0, and only then, out has the word `good`: the
/// last three spell one run, which is good for NET and DELAYS and for as many paths and the budget as are asked for, judged from NET, DELAYS
/// and, in mode skewed, SCAN alone; so its verdicts promise what those of `gen` do. Status 1 tells the first line of a file that lacks its form, or else the
/// first flaw of the run (`check_work` in specs/Check.antt).
///
/// Both are of a mode, whose pairs of vectors alone count: `--mode enhanced`, where none is given, `--mode broadside`, or
/// `--mode skewed --scan SCAN`. The last reads SCAN behind DELAYS, and is refused where it gives no scan chains of NET's circuit
/// (specs/ModeRules.antt).
///
/// `replay NET DELAYS TESTS TIME` reads these three files and writes none. At status 0 out has a line for each test of TESTS: its number,
/// what each observed line has at TIME under the test's pair and the delays, and `same` or `differs`, by whether these are the bits that
/// the test expects (`replay_work` in specs/Replay.antt).
///
/// `rfreplay NET DELAYS TESTS REPORT TIME` reads these four files and writes none; DELAYS has a rise and a fall delay for each pin. At status
/// 0 out has a line for each test of TESTS, with what `replay` says of it under such delays and a word on the path that REPORT lists under
/// its number: `late` where the test's pair is a robust test for that path and the path is longer than TIME for the values to which its
/// lines go, `met` where it is no longer, and `none` else. Where it says `late`, what was sampled at the path's end isn't its final value;
/// and each path for which a pair meets the robust conditions is shown late in this way under every rise and fall delay of each pin
/// (`rise_fall_replay_work` in specs/RiseFallReplay.antt).
///
/// `compact NET TESTS REPORT OUT` reads the first three files and writes OUT, then how many tests were kept on out. At status 0 OUT has
/// tests of TESTS in their order: each fault of REPORT that a test of TESTS serves is served by one of them, and none could be left out
/// (`compact_work` in specs/Compact.antt).
///
/// `bounds NET TESTS REPORT LOG` reads these four files and writes none. At status 0 out has a line for each fault of REPORT: the least time
/// of a row of LOG by which a test passed that covers the fault, or a dash. Under all delays that agree with LOG the path is no longer than
/// that (`bounds_work` in specs/Bounds.antt). Both refuse a listed path that is no path of NET, a test that expects other bits than the
/// values under its second vector, and more than 1,000,000 tests times faults.
///
/// `scan NET SCAN TESTS` reads these three files and writes none. At status 0 out has a line for each test of TESTS: its number and, for each
/// scan chain of SCAN, the bits to shift in. From every state of the chain all but the last of them load the first vector of the test's pair
/// there, and one more shift launches the second (`scan_work` in specs/Scan.antt). A test whose pair the last shift does not launch is refused,
/// the first such test.
///
/// `make N` does the work of `gen` on a ladder of N stages, with a delay of 1 at each pin, and prints one line that counts the verdicts of a
/// good run (`make_work` in specs/Make.antt). No words but refused ones, failed writes on out and want of memory keep it from status 0.
///
/// Only the files of the command are read or written. Where the status isn't 0, a line on err says why.
pub fn run<F: Files, O: Sink, E: Sink>(
    alloc: Global,
    words: &[&str],
    files: &mut F,
    out: &mut O,
    err: &mut E,
) -> Status
    // Each status: to which ending the call came, what stands in the files and on out then, and what err took.
    ensures ends { Ends (asked_work (bytes_of_words words.now)) result
        (outside F.Files O.Sink E.Sink files.old out.old err.old)
        (outside F.Files O.Sink E.Sink files.new out.new err.new) }

    // Status 0: files and out hold what the command gives for its inputs, and nothing failed.
    ensures done { result ≡ Status.Done → IsDone (asked_work (bytes_of_words words.now))
        (outside F.Files O.Sink E.Sink files.old out.old err.old)
        (outside F.Files O.Sink E.Sink files.new out.new err.new) }

    // Where no read or write fails, inputs that are accepted lead to status 0, if memory suffices.
    ensures complete { HasAcceptedInputs (asked_work (bytes_of_words words.now)) (F.folder files.old)
        → NoneFailed (outside F.Files O.Sink E.Sink files.old out.old err.old)
        (outside F.Files O.Sink E.Sink files.new out.new err.new)
        → IsDoneOrNoMemory result }

    // What each other status means: of refusals, after which nothing was begun or written, of failed reads and of failed writes; and that
    // what the files hold is refused where it leads to a refusal.
    ensures laws { KeepsLaws (asked_work (bytes_of_words words.now)) result
        (outside F.Files O.Sink E.Sink files.old out.old err.old)
        (outside F.Files O.Sink E.Sink files.new out.new err.new) }

    // What the command promises beside this: which inputs it accepts, when check answers 0 and when 1, that the later commands take what gen
    // left, and that compact keeps all of what it left itself.
    ensures own { KeepsAskedLaws (bytes_of_words words.now) result
        (outside F.Files O.Sink E.Sink files.old out.old err.old)
        (outside F.Files O.Sink E.Sink files.new out.new err.new) }
{
    let ending = perform(alloc, words, files, out);
    tell(&ending, err)
}
