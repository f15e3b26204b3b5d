// Links, and for each line the links that have it among their two, so that a changed line lets these wait at the cost of their number.
// They stand in chains: a line leads to the last of its links, and each link to the one before it at the same line. No line is listed where
// there is no link.
ghost use Rattle.std.specs.Prelude.{◌≡◌, ◌<◌, ◌≤◌, ◌+◌, ◌^◌, [], ℕ, true, length, slice_index_or, All, Contains, IfOk};
ghost use Rattle.hulls.specs.Awaiting.{is_inside, IsMore};
ghost use Rattle.hulls.specs.Links.{IsChained, IsInChain, chained_line, link_at, link_lines};

use crate::Turn;
use crate::waiting::Waiting;
use pd_base::{LineId, OutOfMemory};
use std::alloc::Global;
use std::marker::Model;

/// Links of sources and lines. Contracts see them in order.
#[derive(Drop)]
pub(crate) struct LinkLists {
    links: Vec<(LineId, LineId)>,
    by_source: Chains,
    by_line: Chains,
}

// For each line one more than the number of the last link there, or 0; and for each link one more than that of the one before it.
#[derive(Drop)]
struct Chains {
    heads: Vec<u32>,
    nexts: Vec<u32>,
}

impl Model for LinkLists {
    ghost use Rattle.std.specs.Prelude.{length};
    ghost use Rattle.std.specs.Prelude.{true};
    ghost use Rattle.pd_base.specs.Links.{LinkList};
    ghost use Rattle.hulls.specs.Links.{AreChained};

    ghost Value = { LinkList };

    ghost view = { λ l. l.links.items };

    ghost invariant = { λ l. AreChained l.links.items l.by_source.heads.items l.by_source.nexts.items l.by_line.heads.items l.by_line.nexts.items };
}

impl LinkLists {
    /// These links of a netlist with so many lines. It fails only where memory runs out.
    pub(crate) fn new(
        alloc: Global,
        lines: usize,
        links: &[(LineId, LineId)],
    ) -> Result<LinkLists, OutOfMemory>
        requires few { length links.now < 2 ^ 31 }
        requires sources { All (λ link. link.0.0 < lines) links.now }
        requires lines { All (λ link. link.1.0 < lines) links.now }
        ensures { IfOk result (λ lists. lists ≡ links.now) }
    {
        let by_source = chain(alloc, lines, links, false)?;
        let by_line = chain(alloc, lines, links, true)?;
        Ok(LinkLists {
            links: Vec::from_slice(alloc, links)?,
            by_source,
            by_line,
        })
    }

    /// The number of links.
    pub(crate) fn len(&self) -> usize
        ensures { result ≡ length self.now }
    {
        self.links.len()
    }

    /// The link of this number.
    pub(crate) fn link(&self, link: u32) -> (LineId, LineId)
        requires { link < length self.now }
        ensures { result ≡ link_at self.now link }
    {
        self.links[link as usize]
    }

    /// Lets all links wait that have this line among their two. They are numbered on from the number of gates. Takes no memory, and
    /// costs what there are of them. Inlined: each cut that takes states comes here. Without links no head is read, and most lines have no link.
    #[inline(always)]
    pub(crate) fn wake(&self, waiting: &mut Waiting, gates: u32, line: LineId)
        requires room { gates + length self.now ≤ length waiting.old.inside }
        requires few { length waiting.old.inside < 2 ^ 32 }
        requires links_inside { (link : ℕ) → link < length self.now → is_inside waiting.old.inside (gates + link) ≡ true }
        ensures more { IsMore waiting.old waiting.new }
        ensures waits { (link : ℕ) → link < length self.now → Contains (link_lines self.now link) line
            → Contains waiting.new.waiting (record { 0 = gates + link }) }
    {
        if self.links.is_empty() {
            return;
        }
        let of_source = head(self.by_source.heads.as_slice(), line);
        let of_line = head(self.by_line.heads.as_slice(), line);
        if of_source == 0 && of_line == 0 {
            return;
        }
        self.wake_some(waiting, gates, line);
    }

    // The same where the line may have links: a call, so that a cut is small where it has none.
    #[inline(never)]
    fn wake_some(&self, waiting: &mut Waiting, gates: u32, line: LineId)
        requires room { gates + length self.now ≤ length waiting.old.inside }
        requires few { length waiting.old.inside < 2 ^ 32 }
        requires links_inside { (link : ℕ) → link < length self.now → is_inside waiting.old.inside (gates + link) ≡ true }
        ensures more { IsMore waiting.old waiting.new }
        ensures waits { (link : ℕ) → link < length self.now → Contains (link_lines self.now link) line
            → Contains waiting.new.waiting (record { 0 = gates + link }) }
    {
        walk(&self.by_source, waiting, gates, line);
        walk(&self.by_line, waiting, gates, line);
    }
}

// Lets all links of the chain of this line wait.
fn walk(chains: &Chains, waiting: &mut Waiting, gates: u32, line: LineId)
    requires room { gates + length chains.now.nexts.items ≤ length waiting.old.inside }
    requires few { length waiting.old.inside < 2 ^ 32 }
    requires links_inside { (link : ℕ) → link < length chains.now.nexts.items → is_inside waiting.old.inside (gates + link) ≡ true }
    requires falls { (link : ℕ) → link < length chains.now.nexts.items → slice_index_or chains.now.nexts.items link 0 ≤ link }
    requires heads { (at : ℕ) → slice_index_or chains.now.heads.items at 0 ≤ length chains.now.nexts.items }
    ensures more { IsMore waiting.old waiting.new }
    ensures waits { (link : ℕ) → IsInChain chains.now.nexts.items link (slice_index_or chains.now.heads.items line.0 0)
        → Contains waiting.new.waiting (record { 0 = gates + link }) }
{
    let mut at = head(chains.heads.as_slice(), line);
    while at > 0 {
        let link = at - 1;
        waiting.add(Turn::of_link(gates, link));
        at = chains.nexts[link as usize];
    }
}

// One more than the number of the last link at a line, or 0.
fn head(heads: &[u32], line: LineId) -> u32
    ensures { result ≡ slice_index_or heads.now line.0 0 }
{
    let at = line.0 as usize;
    if at < heads.len() { heads[at] } else { 0 }
}

// The chains of these links by their second lines, or by their first ones.
fn chain(
    alloc: Global,
    lines: usize,
    links: &[(LineId, LineId)],
    second: bool,
) -> Result<Chains, OutOfMemory>
    requires few { length links.now < 2 ^ 31 }
    requires lines { All (λ link. (chained_line second link).0 < lines) links.now }
    ensures { IfOk result (λ c. IsChained second links.now (length links.now) c.heads.items c.nexts.items) }
{
    if links.is_empty() {
        return Ok(no_chains(alloc));
    }
    let mut heads = vec![in alloc; 0u32; lines]?;
    let mut nexts = Vec::new(alloc);
    for link in 0..links.len() {
        let line = line_of(links[link], second).0 as usize;
        nexts.push(heads[line])?;
        heads[line] = link as u32 + 1;
    }
    Ok(Chains { heads, nexts })
}

// Chains of no links.
fn no_chains(alloc: Global) -> Chains
    ensures heads { result.heads.items ≡ [] }
    ensures nexts { result.nexts.items ≡ [] }
{
    Chains {
        heads: Vec::new(alloc),
        nexts: Vec::new(alloc),
    }
}

// The second line of a link, or the first.
fn line_of(link: (LineId, LineId), second: bool) -> LineId
    ensures { result ≡ chained_line second link }
{
    if second { link.1 } else { link.0 }
}
