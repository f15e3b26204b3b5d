// The parts of the circuit for which names are looked up: pins, outputs and flip-flops, and the names themselves. The set of names
// ends before the lines are sorted, so that not all is kept at once.
ghost use Rattle.std.specs.Prelude.{◌≡◌, map, All, IfOk, IfErr};
ghost use Rattle.netlist.specs.Circuit.{source_count};
ghost use Rattle.netlist.specs.Description.{AreDistinct, AreNamed, IsWithinLimits, described, gates, line_named, names_by_line};
ghost use Rattle.netlist.specs.Statements.{IsStatement};
ghost use Rattle.net_builder.specs.Building.{AreNamedLines};
ghost use Rattle.net_builder.specs.KnownNames.{known_names};
ghost use Rattle.net_builder.specs.Refusals.{MayRefuse};

use crate::defined::{check_uses, distinct_names};
use crate::name_set::NameSet;
use crate::named_lines::{NamedLines, UnsortedLines, named_lines, unsorted_lines};
use crate::parts::pins_of;
use crate::{BuildFault, RawNet};
use pd_base::{FlatLists, LineId};
use std::alloc::Global;

/// What names tell of a circuit.
#[derive(Drop)]
pub(crate) struct NamedParts {
    /// The number of sources.
    pub(crate) sources: u32,
    /// The lines that the pins read, by gate.
    pub(crate) pins: FlatLists<LineId>,
    /// The lines.
    pub(crate) lines: NamedLines,
}

// What is known before the lines are sorted by name.
#[derive(Drop)]
struct UnsortedParts {
    pins: FlatLists<LineId>,
    lines: UnsortedLines,
}

/// What names tell of these statements' circuit, or the first name that is defined twice or, else, used with no definition.
pub(crate) fn named_parts(alloc: Global, raw: &RawNet) -> Result<NamedParts, BuildFault>
    requires limits { IsWithinLimits raw.now }
    requires lawful { All (λ s. IsStatement s.statement) raw.now }
    ensures named { IfOk result (λ _. AreNamed raw.now) }
    ensures sources { IfOk result (λ parts. parts.sources ≡ source_count (described raw.now)) }
    ensures pins { IfOk result (λ parts. parts.pins
        ≡ map (λ gate. map (line_named (names_by_line raw.now)) gate.arguments) (gates raw.now)) }
    ensures lines { IfOk result (λ parts. AreNamedLines (described raw.now) parts.lines) }
    ensures refused { IfErr result (MayRefuse raw.now) }
{
    let UnsortedParts { pins, lines } = unsorted_parts(alloc, raw)?;
    let lines = named_lines(alloc, raw, lines)?;
    let sources = (lines.names.len() - pins.len()) as u32;
    Ok(NamedParts {
        sources,
        pins,
        lines,
    })
}

// What is looked up in the set of names, which ends here.
fn unsorted_parts(alloc: Global, raw: &RawNet) -> Result<UnsortedParts, BuildFault>
    requires limits { IsWithinLimits raw.now }
    requires lawful { All (λ s. IsStatement s.statement) raw.now }
    ensures named { IfOk result (λ _. AreNamed raw.now) }
    ensures pins { IfOk result (λ parts. parts.pins
        ≡ map (λ gate. map (line_named (names_by_line raw.now)) gate.arguments) (gates raw.now)) }
    ensures names { IfOk result (λ parts. parts.lines.names ≡ names_by_line raw.now) }
    ensures ports { IfOk result (λ parts. (parts.lines.outputs.items ≡ (described raw.now).outputs)
        × (parts.lines.flops.items ≡ (described raw.now).flops)) }
    ensures refused { IfErr result (MayRefuse raw.now) }
{
    let names = distinct_names(alloc, raw)?;
    look_up(alloc, raw, &names)
}

// What is looked up in the set of the names of the lines, by line.
fn look_up(alloc: Global, raw: &RawNet, names: &NameSet) -> Result<UnsortedParts, BuildFault>
    requires limits { IsWithinLimits raw.now }
    requires lawful { All (λ s. IsStatement s.statement) raw.now }
    requires distinct { AreDistinct raw.now }
    requires names { known_names names.now ≡ names_by_line raw.now }
    ensures named { IfOk result (λ _. AreNamed raw.now) }
    ensures pins { IfOk result (λ parts. parts.pins
        ≡ map (λ gate. map (line_named (names_by_line raw.now)) gate.arguments) (gates raw.now)) }
    ensures names { IfOk result (λ parts. parts.lines.names ≡ names_by_line raw.now) }
    ensures ports { IfOk result (λ parts. (parts.lines.outputs.items ≡ (described raw.now).outputs)
        × (parts.lines.flops.items ≡ (described raw.now).flops)) }
    ensures refused { IfErr result (MayRefuse raw.now) }
{
    let pins = defined_pins(alloc, raw, names)?;
    let lines = unsorted_lines(alloc, raw, names)?;
    Ok(UnsortedParts { pins, lines })
}

// The lines that the pins read, by gate, where all names that are used are defined.
fn defined_pins(
    alloc: Global,
    raw: &RawNet,
    names: &NameSet,
) -> Result<FlatLists<LineId>, BuildFault>
    requires limits { IsWithinLimits raw.now }
    requires distinct { AreDistinct raw.now }
    requires names { known_names names.now ≡ names_by_line raw.now }
    ensures named { IfOk result (λ _. AreNamed raw.now) }
    ensures pins { IfOk result (λ pins. pins
        ≡ map (λ gate. map (line_named (names_by_line raw.now)) gate.arguments) (gates raw.now)) }
    ensures refused { IfErr result (MayRefuse raw.now) }
{
    let pins = pins_of(alloc, raw, names)?;
    check_uses(alloc, raw, names, &pins)?;
    Ok(pins)
}
