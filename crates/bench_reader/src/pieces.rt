// Lines of the canonical text. Where memory is refused, a part of a line may have been written.
ghost use Rattle.std.specs.Prelude.{◌≡◌, ◌++◌, codes, OnOk};
ghost use Rattle.netlist.specs.Circuit.{HasLines};
ghost use Rattle.netlist.specs.declared.raw_net.RawStmt.TheVariants.{Flop};
ghost use Rattle.bench_reader.specs.Canonical.{arguments_text, with_line_end, gate_head, kind_text, more_arguments, names_at, statement_text};

use netlist::{GateKind, Netlist};
use pd_base::{LineId, OutOfMemory};

// How a kind is spelled.
pub(crate) fn kind_text(kind: GateKind) -> &'static [u8]
    ensures { result.now ≡ kind_text kind }
{
    match kind {
        GateKind::And => b"AND",
        GateKind::Nand => b"NAND",
        GateKind::Or => b"OR",
        GateKind::Nor => b"NOR",
        GateKind::Xor => b"XOR",
        GateKind::Xnor => b"XNOR",
        GateKind::Not => b"NOT",
        GateKind::Buff => b"BUFF",
    }
}

// The line of an input or an output: what opens it, a name and a closing bracket.
#[tactic(auto, using(std::proofs::Common::append_assoc))]
pub(crate) fn push_port(text: &mut Vec<u8>, opening: &[u8], name: &[u8]) -> Result<(), OutOfMemory>
    ensures { OnOk result (text.new.items ≡ text.old.items ++ with_line_end (opening.now ++ name.now ++ codes ")")) }
{
    text.extend_from_slice(opening)?;
    text.extend_from_slice(name)?;
    text.extend_from_slice(b")\n")?;
    Ok(())
}

// The line of a flip-flop.
#[tactic(auto, using(std::proofs::Common::append_assoc))]
pub(crate) fn push_flop(
    text: &mut Vec<u8>,
    name: &[u8],
    data_line: &[u8],
) -> Result<(), OutOfMemory>
    ensures { OnOk result (text.new.items ≡ text.old.items ++ with_line_end (statement_text (Flop name.now data_line.now))) }
{
    text.extend_from_slice(name)?;
    text.extend_from_slice(b" = DFF(")?;
    text.extend_from_slice(data_line)?;
    text.extend_from_slice(b")\n")?;
    Ok(())
}

// The line of a gate up to its arguments.
#[tactic(auto, using(std::proofs::Common::append_assoc))]
pub(crate) fn push_gate_head(
    text: &mut Vec<u8>,
    name: &[u8],
    kind: GateKind,
) -> Result<(), OutOfMemory>
    ensures { OnOk result (text.new.items ≡ text.old.items ++ gate_head name.now kind) }
{
    text.extend_from_slice(name)?;
    text.extend_from_slice(b" = ")?;
    text.extend_from_slice(kind_text(kind))?;
    text.push(b'(')?;
    Ok(())
}

// The arguments of a gate, with a comma and a space between two.
pub(crate) fn push_arguments(
    text: &mut Vec<u8>,
    net: &Netlist,
    pins: &[LineId],
) -> Result<(), OutOfMemory>
    requires { HasLines net.now pins.now }
    ensures { OnOk result (text.new.items ≡ text.old.items ++ arguments_text (names_at net.now pins.now)) }
{
    let Some((first, others)) = pins.split_first() else {
        return Ok(());
    };
    text.extend_from_slice(net.name(*first))?;
    push_more_arguments(text, net, others)
}

// The rest of the arguments, each behind a comma and a space.
fn push_more_arguments(
    text: &mut Vec<u8>,
    net: &Netlist,
    pins: &[LineId],
) -> Result<(), OutOfMemory>
    requires { HasLines net.now pins.now }
    ensures { OnOk result (text.new.items ≡ text.old.items ++ more_arguments (names_at net.now pins.now)) }
{
    for line in pins {
        text.extend_from_slice(b", ")?;
        text.extend_from_slice(net.name(*line))?;
    }
    Ok(())
}
