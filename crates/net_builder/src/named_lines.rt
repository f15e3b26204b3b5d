// The lines as far as names tell them: their names, one after another and in order, outputs and flip-flops.
ghost use Rattle.std.specs.Prelude.{◌≡◌, ◌≤◌, length, All, IfOk};
ghost use Rattle.netlist.specs.declared.limits.TheConstants.{MOST_LINES};
ghost use Rattle.netlist.specs.Description.{AreNamed, described, names_by_line};
ghost use Rattle.netlist.specs.Names.{IsName};
ghost use Rattle.netlist.specs.Statements.{IsStatement};
ghost use Rattle.net_builder.specs.Building.{AreNamedLines};
ghost use Rattle.net_builder.specs.KnownNames.{known_names};

use crate::RawNet;
use crate::by_name::lines_by_name;
use crate::measures::longest_of;
use crate::name_set::{NameSet, name_count, name_texts};
use crate::once::once;
use crate::parts::{flops_of, named_outputs};
use pd_base::{FlatLists, LineId, OutOfMemory};
use std::alloc::Global;

/// What names tell of a circuit's lines.
#[derive(Drop)]
pub(crate) struct NamedLines {
    /// The names of the lines, by line number.
    pub(crate) names: FlatLists<u8>,
    /// All lines, in the order of their names' bytes.
    pub(crate) by_name: Vec<LineId>,
    /// The length of the longest name.
    pub(crate) longest_name: u32,
    /// The output lines, each once.
    pub(crate) outputs: Vec<LineId>,
    /// The flip-flops, each as its own line and its data line.
    pub(crate) flops: Vec<(LineId, LineId)>,
}

/// What is known of the lines before they are sorted by name: all for which the set of names is needed.
#[derive(Drop)]
pub(crate) struct UnsortedLines {
    /// The names of the lines, by line number.
    pub(crate) names: FlatLists<u8>,
    /// The output lines, each once.
    pub(crate) outputs: Vec<LineId>,
    /// The flip-flops, each as its own line and its data line.
    pub(crate) flops: Vec<(LineId, LineId)>,
}

/// The lines, sorted by name.
pub(crate) fn named_lines(
    alloc: Global,
    raw: &RawNet,
    lines: UnsortedLines,
) -> Result<NamedLines, OutOfMemory>
    requires named { AreNamed raw.now }
    requires lawful { All (λ s. IsStatement s.statement) raw.now }
    requires names { lines.names ≡ names_by_line raw.now }
    requires outputs { lines.outputs.items ≡ (described raw.now).outputs }
    requires flops { lines.flops.items ≡ (described raw.now).flops }
    ensures { IfOk result (AreNamedLines (described raw.now)) }
{
    let by_name = lines_by_name(alloc, &lines.names)?;
    let longest_name = longest_of(&lines.names);
    Ok(NamedLines {
        names: lines.names,
        by_name,
        longest_name,
        outputs: lines.outputs,
        flops: lines.flops,
    })
}

/// What the names of the lines, by line, tell of them.
pub(crate) fn unsorted_lines(
    alloc: Global,
    raw: &RawNet,
    names: &NameSet,
) -> Result<UnsortedLines, OutOfMemory>
    requires named { AreNamed raw.now }
    requires lawful { All (λ s. IsStatement s.statement) raw.now }
    requires names { known_names names.now ≡ names_by_line raw.now }
    ensures names { IfOk result (λ lines. lines.names ≡ names_by_line raw.now) }
    ensures outputs { IfOk result (λ lines. lines.outputs.items ≡ (described raw.now).outputs) }
    ensures flops { IfOk result (λ lines. lines.flops.items ≡ (described raw.now).flops) }
{
    let outputs = outputs_of(alloc, raw, names)?;
    let flops = flops_of(alloc, raw, names)?;
    let names = flat_names(alloc, names)?;
    Ok(UnsortedLines {
        names,
        outputs,
        flops,
    })
}

// The output lines, each once.
fn outputs_of(alloc: Global, raw: &RawNet, names: &NameSet) -> Result<Vec<LineId>, OutOfMemory>
    requires named { AreNamed raw.now }
    requires names { known_names names.now ≡ names_by_line raw.now }
    ensures { IfOk result (λ lines. lines.items ≡ (described raw.now).outputs) }
{
    let listed = named_outputs(alloc, raw, names)?;
    once(alloc, listed.as_slice(), name_count(names) as u32)
}

// The names of a set, one after another.
fn flat_names(alloc: Global, names: &NameSet) -> Result<FlatLists<u8>, OutOfMemory>
    requires few { length (known_names names.now) ≤ MOST_LINES }
    requires names { All IsName (known_names names.now) }
    ensures { IfOk result (λ flat. flat ≡ known_names names.now) }
{
    let mut flat = FlatLists::with_capacity(alloc, name_count(names), byte_count(names))?;
    for name in name_texts(names) {
        flat.push(name.as_slice())?;
    }
    Ok(flat)
}

// How many bytes the names of a set have: so much room is taken for them.
fn byte_count(names: &NameSet) -> usize {
    let mut count: usize = 0;
    for name in name_texts(names) {
        count = count.saturating_add(name.len());
    }
    count
}
