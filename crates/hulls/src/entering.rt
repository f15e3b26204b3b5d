// All steps of a prefix are entered into conditions at once.
ghost use Rattle.std.specs.Prelude.{◌≡◌, []};
ghost use Rattle.netlist.specs.Circuit.{gate_count};
ghost use Rattle.netlist.specs.Lawful.{IsCircuit};
ghost use Rattle.netlist.specs.Levels.{greatest_level};
ghost use Rattle.netlist.specs.Paths.{IsPrefix};
ghost use Rattle.hulls.specs.Conditions.{IsEnteredOn};

use crate::Conditions;
use netlist::Netlist;
use pd_base::Path;

/// Enters all steps of a prefix, into conditions that have none yet. Takes no memory.
pub fn enter_all(conditions: &mut Conditions, net: &Netlist, prefix: &Path)
    requires circuit { IsCircuit net.now }
    requires prefix { IsPrefix net.now prefix.now }
    requires gates { conditions.old.gates ≡ gate_count net.now }
    requires room { conditions.old.room ≡ greatest_level net.now }
    requires none { conditions.old.steps ≡ [] }
    ensures steps { conditions.new ≡ record conditions.old { steps = prefix.now.steps } }
    ensures on { IsEnteredOn net.now conditions.new }
{
    for step in prefix.steps() {
        conditions.enter(*step);
    }
}
