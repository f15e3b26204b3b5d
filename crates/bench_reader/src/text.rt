// The canonical text of a netlist: inputs, outputs, flip-flops, gates. Where memory is refused, a part of a group may have
// been written.
ghost use Rattle.std.specs.Prelude.{◌≡◌, ◌<◌, ◌++◌, IfOk, OnOk};
ghost use Rattle.netlist.specs.Circuit.{gate_at, gate_count};
ghost use Rattle.bench_reader.specs.Canonical.{bench_text, with_line_end, flop_statements, gate_statement, gate_statements, input_statements, output_statements, statement_text, statements_text};

use crate::pieces::{push_arguments, push_flop, push_gate_head, push_port};
use netlist::Netlist;
use pd_base::{GateId, LineId, OutOfMemory};
use std::alloc::Global;

/// The canonical text of a netlist: a line for each input, then for each output, each flip-flop and each gate, each group in
/// order. Its circuit is that of the netlist. It fails only where memory runs out.
pub fn bench_text(alloc: Global, net: &Netlist) -> Result<Vec<u8>, OutOfMemory>
    ensures { IfOk result (λ text. text.items ≡ bench_text net.now) }
{
    let mut text = Vec::new(alloc);
    push_inputs(&mut text, net)?;
    push_outputs(&mut text, net)?;
    push_flops(&mut text, net)?;
    push_gates(&mut text, net)?;
    Ok(text)
}

// The lines of the inputs.
fn push_inputs(text: &mut Vec<u8>, net: &Netlist) -> Result<(), OutOfMemory>
    ensures { OnOk result (text.new.items ≡ text.old.items ++ statements_text (input_statements net.now)) }
{
    let inputs = net.sources() - net.flops().len() as u32;
    for line in 0..inputs {
        push_port(text, b"INPUT(", net.name(LineId(line)))?;
    }
    Ok(())
}

// The lines of the outputs.
fn push_outputs(text: &mut Vec<u8>, net: &Netlist) -> Result<(), OutOfMemory>
    ensures { OnOk result (text.new.items ≡ text.old.items ++ statements_text (output_statements net.now)) }
{
    let outputs = net.outputs();
    for line in outputs {
        push_port(text, b"OUTPUT(", net.name(*line))?;
    }
    Ok(())
}

// The lines of the flip-flops.
fn push_flops(text: &mut Vec<u8>, net: &Netlist) -> Result<(), OutOfMemory>
    ensures { OnOk result (text.new.items ≡ text.old.items ++ statements_text (flop_statements net.now)) }
{
    let flops = net.flops();
    for flop in flops {
        push_flop(text, net.name(flop.0), net.name(flop.1))?;
    }
    Ok(())
}

// The lines of the gates.
fn push_gates(text: &mut Vec<u8>, net: &Netlist) -> Result<(), OutOfMemory>
    ensures { OnOk result (text.new.items ≡ text.old.items ++ statements_text (gate_statements net.now)) }
{
    for gate in 0..net.gates() {
        push_gate(text, net, GateId(gate))?;
    }
    Ok(())
}

// The line of a gate.
fn push_gate(text: &mut Vec<u8>, net: &Netlist, gate: GateId) -> Result<(), OutOfMemory>
    requires { gate.0 < gate_count net.now }
    ensures { OnOk result (text.new.items ≡ text.old.items ++ with_line_end (statement_text (gate_statement net.now (gate_at net.now gate.0)))) }
{
    push_gate_head(text, net.name(net.line_of(gate)), net.kind(gate))?;
    push_arguments(text, net, net.pins(gate))?;
    text.extend_from_slice(b")\n")?;
    Ok(())
}
