// Sets of the six states at a source and at the line to which it is linked, narrowed along the link.
use hulls::narrow_link;
use netlist::Netlist;
use pd_base::LineId;
use row_answers::{Text, Trouble, add_labels};
use state_sets::{Labels, Narrowed, SixStates, StateSet};
use std::alloc::Global;

/// Adds what narrowing along a link tells, and then a line for each line of the circuit: its name, and the numbers of its states. The row: the
/// names of a source and of a line, each with the numbers of the states that it begins with behind it; the other lines begin with all.
pub fn narrowed(alloc: Global, net: &Netlist, row: &str, answer: &mut Text) -> Result<(), Trouble> {
    let (source, line) = row.split_once(" > ").ok_or(Trouble::NoRow)?;
    let mut labels = Labels::<SixStates>::full(alloc, net)?;
    let source = begun(net, source, &mut labels)?;
    let line = begun(net, line, &mut labels)?;
    answer.add(told(&mut labels, source, line)?);
    add_labels(net, labels.as_slice(), answer);
    Ok(())
}

// Cuts the set of a line down to states that a row gives, behind the line's name.
fn begun(net: &Netlist, row: &str, labels: &mut Labels<SixStates>) -> Result<LineId, Trouble> {
    let (name, states) = row.split_once(' ').ok_or(Trouble::NoRow)?;
    let line = net.find(name.as_bytes()).ok_or(Trouble::NoRow)?;
    if line.0 as usize >= labels.as_slice().len() {
        return Err(Trouble::NoRow);
    }
    labels.cut(line, states_of(states));
    Ok(line)
}

// The states whose numbers stand in a row.
fn states_of(row: &str) -> StateSet {
    let mut found = StateSet::EMPTY;
    for digit in row.bytes() {
        if digit >= b'0' && digit < b'6' {
            found = found.unite(StateSet(1 << (digit - b'0')));
        }
    }
    found
}

// What narrowing tells, as a line.
fn told(
    labels: &mut Labels<SixStates>,
    source: LineId,
    line: LineId,
) -> Result<&'static str, Trouble> {
    let count = labels.as_slice().len();
    if source.0 as usize >= count || line.0 as usize >= count {
        return Err(Trouble::NoRow);
    }
    Ok(match narrow_link(labels, source, line) {
        Narrowed::Same => "  Same\n",
        Narrowed::Shrunk => "  Shrunk\n",
        Narrowed::Empty(_) => "  Empty\n",
    })
}
