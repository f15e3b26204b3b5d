// The rules of a run, by how its pairs are launched: those under which `gen` searches, and those of the runs that `check` judges.
ghost use Rattle.std.specs.Prelude.{◌≡◌, ⊤, IfErr, IfOk, MatchOption, option_map};
ghost use Rattle.netlist.specs.Lawful.{IsCircuit};
ghost use Rattle.netlist.specs.LinkedPairs.{AreLinksOf, FitRules};
ghost use Rattle.run_files.specs.ProofsVersions.{version_number, IsVersionOf};
ghost use Rattle.run_files.specs.declared.version.ProofsVersion.{ProofsVersion};
ghost use Rattle.commands.specs.Inside.Checking.{FailsRules};
ghost use Rattle.commands.specs.ModeRules.{AreRulesOf, FitsLaunch, launch_links, searched_rules};

use crate::inputs::malformed;
use crate::launch::Launch;
use calls::{Ending, Role};
use netlist::Netlist;
use path_model::broadside_links;
use pd_base::{Links, OutOfMemory, Rules};
use scan_order::skewed_links;
use std::alloc::Global;

/// The rules under which tests are searched for pairs that are launched so. They fit the circuit. The one error is that memory ran out.
pub(crate) fn searched_rules(
    alloc: Global,
    net: &Netlist,
    launch: &Launch,
) -> Result<Rules, OutOfMemory>
    requires circuit { IsCircuit net.now }
    requires fits { FitsLaunch net.now launch.now }
    ensures rules { IfOk result (λ rules. rules ≡ searched_rules launch.now net.now) }
    ensures fit { IfOk result (FitRules net.now) }
{
    match launch_links(alloc, net, launch)? {
        None => Ok(Rules::Two),
        Some(links) => Ok(Rules::Linked(links)),
    }
}

/// The rules for pairs that are launched so that have the version of this number: two versions are of the rules of a mode, of trees that
/// split at sources alone and of those that split at any line. PROOFS of a version that none of them has is refused for its first line, on
/// which the version stands.
pub(crate) fn judged_rules(
    alloc: Global,
    net: &Netlist,
    launch: &Launch,
    version: u32,
) -> Result<Rules, Ending>
    requires circuit { IsCircuit net.now }
    requires fits { FitsLaunch net.now launch.now }
    ensures rules { IfOk result (AreRulesOf launch.now net.now) }
    ensures version { IfOk result (λ rules. (read : ProofsVersion) × (version_number read ≡ version) × IsVersionOf rules read) }
    ensures fit { IfOk result (FitRules net.now) }
    ensures fails { IfErr result (FailsRules launch.now net.now version) }
{
    match (launch_links(alloc, net, launch)?, version) {
        (None, 1) => Ok(Rules::One),
        (None, 2 | 4) => Ok(Rules::Two),
        (Some(links), 3 | 5) => Ok(Rules::Linked(links)),
        _ => Err(Ending::Refused(malformed(b"check", Role::Proofs, 1))),
    }
}

// The links that pairs keep which are launched so, if they keep any. They are of the circuit.
fn launch_links(alloc: Global, net: &Netlist, launch: &Launch) -> Result<Option<Links>, OutOfMemory>
    requires circuit { IsCircuit net.now }
    requires fits { FitsLaunch net.now launch.now }
    ensures links { IfOk result (λ links. option_map (λ kept. kept.pairs) links ≡ launch_links launch.now net.now) }
    ensures fit { IfOk result (λ links. MatchOption links ⊤ (λ kept. AreLinksOf net.now kept.pairs)) }
{
    match launch {
        Launch::Enhanced => Ok(None),
        Launch::Broadside => Ok(Some(broadside_links(alloc, net)?)),
        Launch::Skewed(chains) => Ok(Some(skewed_links(alloc, chains)?)),
    }
}
