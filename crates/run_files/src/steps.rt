// The steps of a path, as the report names them.
ghost use Rattle.std.specs.Prelude.{◌≡◌, ◌++◌, All, IfOk, OnOk, flat_map};
ghost use Rattle.netlist.specs.Pins.{IsPin};
ghost use Rattle.run_files.specs.ReportText.{step_text, steps_text};
ghost use Rattle.text_pieces.specs.Tokens.{after_space};

use netlist::Netlist;
use pd_base::{OutOfMemory, PinRef, push_decimal};
use std::alloc::Global;

/// The steps of a path with single spaces between, or a dash where there are none.
pub fn steps_text(alloc: Global, net: &Netlist, steps: &[PinRef]) -> Result<Vec<u8>, OutOfMemory>
    requires { All (IsPin net.now) steps.now }
    ensures { IfOk result (λ text. text.items ≡ steps_text net.now steps.now) }
{
    match steps {
        [] => Ok(Vec::from_slice(alloc, b"-")?),
        [first, rest @ ..] => {
            let mut text = Vec::new(alloc);
            push_step(&mut text, net, *first)?;
            push_more_steps(&mut text, net, rest)?;
            Ok(text)
        }
    }
}

// Appends steps, each behind a space. If memory runs out, a part may have been written; so too below.
fn push_more_steps(out: &mut Vec<u8>, net: &Netlist, steps: &[PinRef]) -> Result<(), OutOfMemory>
    requires { All (IsPin net.now) steps.now }
    ensures { OnOk result (out.new.items
        ≡ out.old.items ++ flat_map (λ step. after_space (step_text net.now step)) steps.now) }
{
    for step in steps {
        out.push(b' ')?;
        push_step(out, net, *step)?;
    }
    Ok(())
}

// Appends a step: the name of its gate, a colon, and the number of its pin.
fn push_step(out: &mut Vec<u8>, net: &Netlist, step: PinRef) -> Result<(), OutOfMemory>
    requires { IsPin net.now step }
    ensures { OnOk result (out.new.items ≡ out.old.items ++ step_text net.now step) }
{
    out.extend_from_slice(net.name(net.line_of(step.gate)))?;
    out.push(b':')?;
    push_decimal(out, u64::from(step.pin))?;
    Ok(())
}
