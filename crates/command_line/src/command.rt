// The list of the commands, and from the words of the command line to the one that they ask for.
ghost use Rattle.std.specs.Prelude.{◌≡◌, Ok, IfOk, IfErr};
ghost use Rattle.command_line.specs.Commands.{bytes_of_words};
ghost use Rattle.command_line.specs.Taken.{IsFaultOf};
ghost use Rattle.command_line.specs.Words.{HasLawfulNumbers, asked_call, call_of};

use crate::forms::bounds::{BoundsCommand, read_bounds};
use crate::forms::compact::{CompactCommand, read_compact};
use crate::forms::make::{MakeCommand, read_make};
use crate::forms::replay::{ReplayCommand, read_replay};
use crate::forms::rise_fall_replay::{RiseFallReplayCommand, read_rise_fall_replay};
use crate::forms::run::{RunCommand, read_run};
use crate::forms::scan::{ScanCommand, read_scan};
use crate::{WordsFault, WordsRefusal};
use std::alloc::Global;

/// A command of the program.
#[derive(Clone, Copy)]
pub enum Command<'a> {
    /// Lists the first paths of a netlist, and writes their tests, the report on them and the proofs.
    Gen(RunCommand<'a>),
    /// Says whether three files, as `Gen` writes them, spell a run that is good for the netlist and the delays. No file is written.
    Check(RunCommand<'a>),
    /// Samples the observed lines under each test at a time. No file is written.
    Replay(ReplayCommand<'a>),
    /// Does the work of `Gen` on a ladder, and writes no file.
    Make(MakeCommand),
    /// Samples the observed lines under each test at a time, where a pin delays a rise and a fall differently, and says which tests would
    /// show their path late. No file is written.
    RiseFallReplay(RiseFallReplayCommand<'a>),
    /// Keeps the tests that no other kept ones make needless, and writes them.
    Compact(CompactCommand<'a>),
    /// Bounds the paths' delays by what a tester saw. No file is written.
    Bounds(BoundsCommand<'a>),
    /// Prints what a tester shifts into the scan chains for each test. No file is written.
    Scan(ScanCommand<'a>),
}

/// The command that the words ask for, or the first reason why they are refused, or want of memory. The words are those behind the
/// program's own name: `gen NET DELAYS TESTS REPORT PROOFS [--paths N] [--budget N] [--mode M] [--scan SCAN]`, the options in
/// any place behind `gen`, `check` with the same words behind it, `replay NET DELAYS TESTS TIME`, `make N`,
/// `rfreplay NET DELAYS TESTS REPORT TIME`, `compact NET TESTS REPORT OUT`, `bounds NET TESTS REPORT LOG`, or `scan NET SCAN TESTS`.
pub fn read_words<'a>(alloc: Global, words: &'a [&'a str]) -> Result<Command<'a>, WordsFault>
    ensures asked { IfOk result (λ command. asked_call (bytes_of_words words.entry.now) ≡ Ok (call_of command)) }
    ensures fault { IfErr result (IsFaultOf (asked_call (bytes_of_words words.entry.now))) }
    ensures numbers { IfOk result (λ command. HasLawfulNumbers (call_of command)) }
{
    let [first, later @ ..] = words else {
        return Err(WordsFault::Refused(WordsRefusal::Command));
    };
    if *first == "gen" {
        return Ok(Command::Gen(read_run(alloc, words, later)?));
    }
    if *first == "check" {
        return Ok(Command::Check(read_run(alloc, words, later)?));
    }
    if *first == "replay" {
        return Ok(Command::Replay(read_replay(alloc, words, later)?));
    }
    if *first == "make" {
        return Ok(Command::Make(read_make(alloc, words, later)?));
    }
    if *first == "rfreplay" {
        return Ok(Command::RiseFallReplay(read_rise_fall_replay(alloc, words, later)?));
    }
    if *first == "compact" {
        return Ok(Command::Compact(read_compact(alloc, words, later)?));
    }
    if *first == "bounds" {
        return Ok(Command::Bounds(read_bounds(alloc, words, later)?));
    }
    if *first == "scan" {
        return Ok(Command::Scan(read_scan(alloc, words, later)?));
    }
    Err(WordsFault::Refused(WordsRefusal::Command))
}
