// The stages of `gen` in their order, up to the run whose texts are to be written.
ghost use Rattle.std.specs.Prelude.{◌≡◌, ◌≤◌, IfErr, IfOk};
ghost use Rattle.pd_base.specs.declared.limits.TheConstants.{MOST_PATHS};
ghost use Rattle.pd_io.specs.Seen.{files_seen};
ghost use Rattle.command_line.specs.Commands.{run_call_of};
ghost use Rattle.command_line.specs.Words.{HasRunNumbers};
ghost use Rattle.calls.specs.Preparing.{Prepares};
ghost use Rattle.delay_annotation.specs.Annotation.{Fits, delays_of};
ghost use Rattle.commands.specs.Inside.Judging.{FailsShort};
ghost use Rattle.commands.specs.Gen.{CanBeWritten, GivesProductsOf, GivesShort, gen_work, generated_products, told_products};
ghost use Rattle.commands.specs.ModeRules.{FitsLaunch};
ghost use Rattle.good_runs.specs.GoodRun.{IsGoodRun};
ghost use Rattle.good_runs.specs.Shortest.{IsShortestRun};
ghost use Rattle.good_runs.specs.ZeroOutside.{LeavesZeroOutside};
ghost use Rattle.prefix_sensitize.specs.Walks.{IsBudget};
ghost use Rattle.netlist.specs.LinkedPairs.{FitRules};
ghost use Rattle.netlist.specs.Lawful.{IsCircuit};
ghost use Rattle.runs.specs.Lawful.{IsLawfulRun};

use crate::inputs::require_short_texts;
use crate::mode_rules::searched_rules;
use crate::run_inputs::{RunInputs, run_inputs_from};
use calls::Ending;
use command_line::RunCommand;
use delay_annotation::Delays;
use netlist::Netlist;
use path_lister::first_paths;
use pd_base::{OutOfMemory, Rules, Steps};
use pd_io::Files;
use prefix_sensitize::sensitize_all;
use run_files::summary_text;
use runs::Run;
use std::alloc::Global;

/// A run, and the line of counts that tells of it.
#[derive(Drop)]
pub(crate) struct ToldRun {
    /// The run.
    pub(crate) run: Run,
    /// Its summary.
    pub(crate) summary: Vec<u8>,
}

/// What `gen` made of its inputs: all that its products spell.
#[derive(Drop)]
pub(crate) struct Generated {
    /// The netlist.
    pub(crate) net: Netlist,
    /// A good run of it.
    pub(crate) told: ToldRun,
}

/// Reads what a run is of; requires that the texts can't grow too long; and makes a good run and its summary. Nothing is written.
pub(crate) fn prepare_gen<F: Files>(
    alloc: Global,
    command: &RunCommand,
    files: &mut F,
) -> Result<Generated, Ending>
    requires { HasRunNumbers (run_call_of command.now) }
    ensures prepares { Prepares (generated_products (run_call_of command.now)) (gen_work (run_call_of command.now)) result
        (files_seen F.Files files.old) (files_seen F.Files files.new) }
    ensures writable { IfOk result (λ generated. CanBeWritten generated.net generated.told.run) }
{
    let inputs = run_inputs_from(alloc, files, command)?;
    let told = short_run(alloc, command, &inputs)?;
    let RunInputs { net, .. } = inputs;
    Ok(Generated { net, told })
}

// A good run, if its texts can't grow too long.
fn short_run(alloc: Global, command: &RunCommand, inputs: &RunInputs) -> Result<ToldRun, Ending>
    requires circuit { IsCircuit inputs.now.net }
    requires fits { Fits inputs.now.net inputs.now.delays }
    requires launch { FitsLaunch inputs.now.net inputs.now.launch }
    requires numbers { HasRunNumbers (run_call_of command.now) }
    ensures gives { IfOk result (λ told. GivesShort (run_call_of command.now) inputs.now.net (delays_of inputs.now.net inputs.now.delays)
        inputs.now.launch (told_products (run_call_of command.now) inputs.now.net told)) }
    ensures lawful { IfOk result (λ told. IsLawfulRun inputs.now.net told.run) }
    ensures fails { IfErr result (FailsShort command.now.paths inputs.now.net) }
{
    require_short_texts(&inputs.net, command.paths)?;
    Ok(told_run(alloc, command, inputs)?)
}

// A good run for the paths and the budget that are asked for, of pairs that are launched so, with its summary.
fn told_run(alloc: Global, command: &RunCommand, inputs: &RunInputs) -> Result<ToldRun, OutOfMemory>
    requires circuit { IsCircuit inputs.now.net }
    requires fits { Fits inputs.now.net inputs.now.delays }
    requires launch { FitsLaunch inputs.now.net inputs.now.launch }
    requires numbers { HasRunNumbers (run_call_of command.now) }
    ensures gives { IfOk result (λ told. GivesProductsOf (run_call_of command.now) inputs.now.net
        (delays_of inputs.now.net inputs.now.delays) inputs.now.launch (told_products (run_call_of command.now) inputs.now.net told)) }
    ensures lawful { IfOk result (λ told. IsLawfulRun inputs.now.net told.run) }
{
    let RunInputs {
        net,
        delays,
        launch,
    } = inputs;
    let rules = searched_rules(alloc, net, launch)?;
    let run = run_of(alloc, net, delays, command.paths, command.budget, rules)?;
    let summary = summary_text(alloc, &run)?;
    Ok(ToldRun { run, summary })
}

/// A good run for so many paths and this budget, under these rules.
pub(crate) fn run_of(
    alloc: Global,
    net: &Netlist,
    delays: &Delays,
    paths: u32,
    budget: u32,
    rules: Rules,
) -> Result<Run, OutOfMemory>
    requires fits { Fits net.now delays.now }
    requires paths { paths ≤ MOST_PATHS }
    requires budget { IsBudget budget }
    requires fit { FitRules net.now rules }
    ensures good { IfOk result (λ run. IsGoodRun net.now (delays_of net.now delays.now) paths budget run) }
    ensures rules { IfOk result (λ run. run.rules ≡ rules) }
    ensures lawful { IfOk result (λ run. IsLawfulRun net.now run) }
    ensures shortest { IfOk result (λ run. IsShortestRun net.now run) }
    ensures zero_outside { IfOk result (λ run. LeavesZeroOutside net.now run) }
{
    let first = first_paths(alloc, net, delays, paths)?;
    let mut steps = Steps::start(());
    sensitize_all(alloc, net, delays, first, budget, rules, &mut steps)
}
