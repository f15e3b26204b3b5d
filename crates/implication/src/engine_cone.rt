// The cone of an engine: the gates and links that it narrows, which the crate cones finds, or all of them; and the lines that are told.
ghost use Rattle.std.specs.Prelude.{◌≡◌, ◌<◌, ◌↔◌, ◌⊎◌, ◌++◌, true, false, IsTrue, None, Some, length, map, IfOk, All};
ghost use Rattle.std.specs.List.{filter};
ghost use Rattle.pd_base.specs.Links.{links_of};
ghost use Rattle.netlist.specs.Circuit.{source_count, gate_count, line_count};
ghost use Rattle.netlist.specs.LinkedPairs.{AreLinksOf, FitRules};
ghost use Rattle.hulls.specs.Awaiting.{is_inside};
ghost use Rattle.implication.specs.Inside.{AreFlagged};
ghost use Rattle.implication.specs.Standing.{told_ends};
ghost use Rattle.implication.specs.Kept.{AreToldGates, AreNearGates, AreToldLines};

use cones::{FoundLines, SourceLinks, find_back};
use netlist::Netlist;
use pd_base::{LineId, OutOfMemory, Rules};
use std::alloc::Global;

// The ends behind which an engine tells, and whether near lines alone are told.
#[derive(Drop)]
pub(crate) struct Ends {
    pub(crate) lines: Vec<LineId>,
    pub(crate) near: bool,
}

// A flag for each gate, true at those inside, the links inside, and a flag for each line, true where it is told.
#[derive(Drop)]
pub(crate) struct EngineCone {
    pub(crate) inside: Vec<bool>,
    pub(crate) links: Vec<(LineId, LineId)>,
    pub(crate) told: Vec<bool>,
}

// All gates and links. It fails only where memory runs out.
pub(crate) fn all_of(alloc: Global, net: &Netlist, rules: &Rules) -> Result<EngineCone, OutOfMemory>
    requires { FitRules net.now rules.now }
    ensures told { IfOk result (λ cone. AreToldGates net.now (links_of rules.now) None cone.inside.items cone.links.items) }
    ensures one_each { IfOk result (λ cone. length cone.inside.items ≡ gate_count net.now) }
    ensures links { IfOk result (λ cone. cone.links.items ≡ links_of rules.now) }
    ensures lines { IfOk result (λ cone. AreToldLines net.now (links_of rules.now) None cone.told.items) }
{
    let gates = net.lines() - net.sources();
    let inside = vec![in alloc; true; gates as usize]?;
    let links = Vec::from_slice(alloc, rules.links())?;
    let told = vec![in alloc; true; net.lines() as usize]?;
    Ok(EngineCone {
        inside,
        links,
        told,
    })
}

// The gates and links behind these lines: those whose lines and sources are in the support of one of them. It costs what is found, and
// once the lines and links; it fails only where memory runs out.
pub(crate) fn cone_of(
    alloc: Global,
    net: &Netlist,
    links: &[(LineId, LineId)],
    ends: &[LineId],
) -> Result<EngineCone, OutOfMemory>
    requires ends { All (λ end. end.0 < line_count net.now) ends.now }
    requires of { AreLinksOf net.now links.now }
    ensures told { IfOk result (λ cone. AreToldGates net.now links.now (Some (told_ends ends.now false)) cone.inside.items cone.links.items) }
    ensures one_each { IfOk result (λ cone. length cone.inside.items ≡ gate_count net.now) }
    ensures of { IfOk result (λ cone. AreLinksOf net.now cone.links.items) }
    ensures lines { IfOk result (λ cone. AreToldLines net.now links.now (Some (told_ends ends.now false)) cone.told.items) }
{
    let behind = SourceLinks::new(alloc, net.sources() as usize, links)?;
    let mut found = FoundLines::new(alloc, net.lines() as usize)?;
    find_back(net, &behind, ends, &mut found);
    let marks = found.marks();
    let inside = Vec::from_slice(alloc, &marks[net.sources() as usize..])?;
    let inner = marked_links(alloc, links, marks)?;
    let told = told_lines(alloc, net, &behind, marks)?;
    Ok(EngineCone {
        inside,
        links: inner,
        told,
    })
}

// The gates near these lines, which stand behind one of them over no link, with the links of near sources and the gates behind the lines
// to which those go. It costs and fails as `cone_of`.
pub(crate) fn near_cone(
    alloc: Global,
    net: &Netlist,
    links: &[(LineId, LineId)],
    ends: &[LineId],
) -> Result<EngineCone, OutOfMemory>
    requires ends { All (λ end. end.0 < line_count net.now) ends.now }
    requires of { AreLinksOf net.now links.now }
    ensures told { IfOk result (λ cone. AreNearGates net.now links.now (Some (told_ends ends.now true)) cone.inside.items cone.links.items) }
    ensures one_each { IfOk result (λ cone. length cone.inside.items ≡ gate_count net.now) }
    ensures lines { IfOk result (λ cone. AreToldLines net.now links.now (Some (told_ends ends.now true)) cone.told.items) }
{
    let sources = net.sources() as usize;
    let behind = SourceLinks::new(alloc, sources, links)?;
    let over_none = SourceLinks::new(alloc, sources, &[])?;
    let mut found = FoundLines::new(alloc, net.lines() as usize)?;
    find_back(net, &over_none, ends, &mut found);
    let near = found.marks();
    let inner = marked_links(alloc, links, near)?;
    let told = told_lines(alloc, net, &behind, near)?;
    let all_ends = with_linked(alloc, ends, inner.as_slice())?;
    find_back(net, &over_none, all_ends.as_slice(), &mut found);
    let inside = Vec::from_slice(alloc, &found.marks()[sources..])?;
    Ok(EngineCone {
        inside,
        links: inner,
        told,
    })
}

// These lines, and those to which the links go.
fn with_linked(
    alloc: Global,
    ends: &[LineId],
    links: &[(LineId, LineId)],
) -> Result<Vec<LineId>, OutOfMemory>
    ensures { IfOk result (λ lines. lines.items ≡ ends.now ++ map (λ link. link.1) links.now) }
{
    let mut lines = Vec::from_slice(alloc, ends)?;
    for link in links {
        lines.push(link.1)?;
    }
    Ok(lines)
}

// The links of sources that are marked.
fn marked_links(
    alloc: Global,
    links: &[(LineId, LineId)],
    marks: &[bool],
) -> Result<Vec<(LineId, LineId)>, OutOfMemory>
    requires { All (λ link. link.0.0 < length marks.now) links.now }
    ensures { IfOk result (λ inner. inner.items ≡ filter (λ link. is_inside marks.now link.0.0) links.now) }
{
    let mut inner = Vec::new(alloc);
    for link in links {
        if marks[link.0.0 as usize] {
            inner.push(*link)?;
        }
    }
    Ok(inner)
}

// One flag for each line, true where it is marked, and at sources without a link.
fn told_lines(
    alloc: Global,
    net: &Netlist,
    links: &SourceLinks,
    marks: &[bool],
) -> Result<Vec<bool>, OutOfMemory>
    requires { length marks.now ≡ line_count net.now }
    ensures { IfOk result (λ told. AreFlagged (source_count net.now) links.now marks.now told.items) }
{
    let mut told = Vec::from_slice(alloc, marks)?;
    flag_told(net, links, told.as_mut_slice());
    Ok(told)
}

// Sets the flags of sources without a link, too.
fn flag_told(net: &Netlist, links: &SourceLinks, told: &mut [bool])
    requires { length told.old ≡ line_count net.now }
    ensures { AreFlagged (source_count net.now) links.now told.old told.new }
{
    for source in 0..net.sources() {
        let at = source as usize;
        told[at] = is_told(told[at], links.line_of(LineId(source)));
    }
}

// Whether a source is told that is marked or not, with the line to which it is linked.
fn is_told(mark: bool, link: Option<LineId>) -> bool
    ensures { IsTrue result ↔ ((mark ≡ true) ⊎ (link ≡ None)) }
{
    mark || link.is_none()
}
