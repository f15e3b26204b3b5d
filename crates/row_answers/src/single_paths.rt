// What is asked of single paths. The calls of functions with long contracts stand alone, in functions that promise nothing, so
// that the answers are not proved over again under these contracts.
ghost use Rattle.std.specs.Prelude.{◌≡◌, length};
ghost use Rattle.delay_annotation.specs.Annotation.{Fits};
ghost use Rattle.netlist.specs.Circuit.{source_count};
ghost use Rattle.netlist.specs.Paths.{IsPath};

use crate::circuits::pair;
use crate::faults::{Fault, fault_of};
use crate::paths::{accepted_delays, path, route};
use crate::text::Text;
use crate::texts::parted;
use crate::trouble::Trouble;
use delay_annotation::Delays;
use netlist::Netlist;
use path_model::{Scratch, compare, is_path, length, meets};
use pd_base::{OutOfMemory, Pair, Path};
use std::alloc::Global;
use std::cmp::Ordering;

/// Adds whether the route is a path, and how long it is.
pub fn path_facts(
    alloc: Global,
    net: &Netlist,
    file: Option<&str>,
    row: &str,
    answer: &mut Text,
) -> Result<(), Trouble> {
    let route = route(alloc, net, row)?;
    if is_path(net, &route) {
        add_length_under(alloc, net, file, &route, answer)
    } else {
        answer.add("  no path\n");
        Ok(())
    }
}

// How long a path is under the delays of a file.
fn add_length_under(
    alloc: Global,
    net: &Netlist,
    file: Option<&str>,
    path: &Path,
    answer: &mut Text,
) -> Result<(), Trouble>
    requires { IsPath net.now path.now }
{
    let delays = accepted_delays(alloc, net, file)?;
    answer.add_number("  length ", length_of(net, &delays, path));
    answer.add("\n");
    Ok(())
}

// The length of a path.
pub(crate) fn length_of(net: &Netlist, delays: &Delays, path: &Path) -> u64
    requires fits { Fits net.now delays.now }
    requires path { IsPath net.now path.now }
{
    length(net, delays, path)
}

/// Adds how two paths compare, between which a slash stands.
pub fn comparison(
    alloc: Global,
    net: &Netlist,
    file: Option<&str>,
    row: &str,
    answer: &mut Text,
) -> Result<(), Trouble> {
    let delays = accepted_delays(alloc, net, file)?;
    answer.add(compared(alloc, net, &delays, row)?);
    Ok(())
}

// How the two paths of a row compare, as a line.
fn compared(
    alloc: Global,
    net: &Netlist,
    delays: &Delays,
    row: &str,
) -> Result<&'static str, Trouble>
    requires { Fits net.now delays.now }
{
    let (one, other) = row.split_once(" / ").ok_or(Trouble::NoRow)?;
    let one = path(alloc, net, one)?;
    let other = path(alloc, net, other)?;
    Ok(order_line(net, delays, &one, &other))
}

// How two paths compare, as a line.
fn order_line(net: &Netlist, delays: &Delays, one: &Path, other: &Path) -> &'static str
    requires fits { Fits net.now delays.now }
    requires one { IsPath net.now one.now }
    requires other { IsPath net.now other.now }
{
    match compare(net, delays, one, other) {
        Ordering::Less => "  before\n",
        Ordering::Equal => "  the same\n",
        Ordering::Greater => "  behind\n",
    }
}

/// Adds whether a pair is a test: transition, kind, both vectors, and the path.
pub fn verdict(alloc: Global, net: &Netlist, row: &str, answer: &mut Text) -> Result<(), Trouble> {
    let is_test = is_met(alloc, net, question_of(row)?)?;
    answer.add_yes_or_no(is_test);
    Ok(())
}

// A question to a pair of vectors: is it a test of this kind, for this transition and path.
#[derive(Clone, Copy)]
struct Question<'a> {
    fault: Fault,
    first: &'a str,
    second: &'a str,
    path: &'a str,
}

// The question of a row.
fn question_of(row: &str) -> Result<Question<'_>, Trouble> {
    let (fault, rest) = fault_of(row)?;
    let (first, rest) = parted(rest)?;
    let (second, path) = parted(rest)?;
    Ok(Question {
        fault,
        first,
        second,
        path,
    })
}

// The answer to a question.
fn is_met(alloc: Global, net: &Netlist, question: Question<'_>) -> Result<bool, Trouble> {
    let pair = pair(alloc, net, question.first, question.second)?;
    let path = path(alloc, net, question.path)?;
    Ok(is_test(alloc, net, &path, question.fault, &pair)?)
}

// Whether a pair is a test.
fn is_test(
    alloc: Global,
    net: &Netlist,
    path: &Path,
    fault: Fault,
    pair: &Pair,
) -> Result<bool, OutOfMemory>
    requires path { IsPath net.now path.now }
    requires bits { length pair.now.first ≡ source_count net.now }
{
    let mut scratch = Scratch::new(alloc, net)?;
    Ok(meets(net, path, fault.direction, fault.kind, pair, &mut scratch))
}
