// How a call ends whose netlist has no circuit: refused for a fault of the text, or for want of memory.
ghost use Rattle.std.specs.Prelude.{◌≡◌, ◌++◌};
ghost use Rattle.commands.specs.InputRefusals.{build_ending, netlist_ending, too_many, wrong_at};

use bench_reader::BenchFault;
use calls::{Cause, Ending, Part, Refusal};
use net_builder::BuildFault;
use pd_base::Items;

// How it ends for this fault.
pub(crate) fn netlist_ending(fault: BenchFault) -> Ending
    ensures { result ≡ netlist_ending fault }
{
    match fault {
        BenchFault::BadByte(place) => wrong_at(place, b" bad byte"),
        BenchFault::NameTooLong(place) => wrong_at(place, b" name too long"),
        BenchFault::Syntax(place) => wrong_at(place, b" syntax"),
        BenchFault::UnknownKind(place) => wrong_at(place, b" unknown kind"),
        BenchFault::FanIn(place) => wrong_at(place, b" fan-in"),
        BenchFault::Build(fault) => build_ending(fault),
        BenchFault::NoMemory(refused) => Ending::NoMemory(refused),
    }
}

// How it ends where statements describe no circuit.
fn build_ending(fault: BuildFault) -> Ending
    ensures { result ≡ build_ending fault }
{
    match fault {
        BuildFault::TooManyLines(count) => too_many(b"too many lines ", count),
        BuildFault::TooManyPins(count) => too_many(b"too many pins ", count),
        BuildFault::Twice(place, name) => wrong_name_at(place, b" twice ", name),
        BuildFault::Undefined(place, name) => wrong_name_at(place, b" undefined ", name),
        BuildFault::Loop(place, name) => wrong_name_at(place, b" loop ", name),
        BuildFault::TooDeep(place, name) => wrong_name_at(place, b" too deep ", name),
        BuildFault::NoMemory(refused) => Ending::NoMemory(refused),
    }
}

// A line of the netlist, and what is wrong there.
fn wrong_at(place: u32, reason: &'static [u8]) -> Ending
    ensures { result ≡ wrong_at place reason.now }
{
    Ending::Refused(Refusal::new(
        Cause::Netlist,
        &[
            Part::Words(b"netlist: line "),
            Part::Number(u64::from(place)),
            Part::Words(reason),
        ],
    ))
}

// The same of a name that stands there.
fn wrong_name_at(place: u32, reason: &'static [u8], name: Items<u8>) -> Ending
    ensures { result ≡ wrong_at place (reason.now ++ name) }
{
    Ending::Refused(Refusal::naming(
        Cause::Netlist,
        &[
            Part::Words(b"netlist: line "),
            Part::Number(u64::from(place)),
            Part::Words(reason),
        ],
        name,
    ))
}

// What the netlist has too many of.
fn too_many(what: &'static [u8], count: u64) -> Ending
    ensures { result ≡ too_many what.now count }
{
    Ending::Refused(Refusal::new(
        Cause::Netlist,
        &[
            Part::Words(b"netlist: "),
            Part::Words(what),
            Part::Number(count),
        ],
    ))
}
