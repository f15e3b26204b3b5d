// The links of sources and lines, and for each source the line to which it is linked, so that a search for what stands behind a line
// follows a link at the cost of one read.
ghost use Rattle.std.specs.Prelude.{◌≡◌, ◌≢◌, ◌<◌, ℕ, Some, length, All, AllPairs, IfOk, IfSome, IfNone};
ghost use Rattle.pd_base.specs.Links.{IsLink};
ghost use Rattle.pd_base.specs.declared.ids.LineId.{LineId};
ghost use Rattle.cones.specs.SourceLinks.{AreHeads, head_at};

use pd_base::{LineId, OutOfMemory};
use std::alloc::Global;
use std::marker::Model;

/// Links of sources and lines. Contracts see them in order.
#[derive(Drop)]
pub struct SourceLinks {
    links: Vec<(LineId, LineId)>,
    // by source, as far as there is a linked one; with no link it has no place
    heads: Vec<Option<LineId>>,
}

impl Model for SourceLinks {
    ghost use Rattle.pd_base.specs.Links.{LinkList};
    ghost use Rattle.cones.specs.SourceLinks.{AreHeads};

    ghost Value = { LinkList };

    ghost view = { λ s. s.links.items };

    ghost invariant = { λ s. AreHeads s.links.items s.heads.items };
}

impl SourceLinks {
    /// These links of a netlist with so many sources, none of which has two. The one error is that memory ran out.
    pub fn new(
        alloc: Global,
        sources: usize,
        links: &[(LineId, LineId)],
    ) -> Result<SourceLinks, OutOfMemory>
        requires sources { All (λ link. link.0.0 < sources) links.now }
        requires once { AllPairs (λ a b. a.0 ≢ b.0) links.now }
        ensures { IfOk result (λ s. s ≡ links.now) }
    {
        let room = if links.is_empty() { 0 } else { sources };
        let mut heads = vec![in alloc; None; room]?;
        set_heads(links, heads.as_mut_slice());
        Ok(SourceLinks {
            links: Vec::from_slice(alloc, links)?,
            heads,
        })
    }

    /// All links, in order.
    pub fn pairs(&self) -> &[(LineId, LineId)]
        ensures { result.now ≡ self.now }
    {
        self.links.as_slice()
    }

    /// The line to which a source is linked, if it is.
    pub fn line_of(&self, source: LineId) -> Option<LineId>
        ensures linked { IfSome result (λ line. IsLink self.now source.0 line.0) }
        ensures alone { IfSome result (λ line. (other : ℕ) → IsLink self.now source.0 other → other ≡ line.0) }
        ensures free { IfNone result ((line : ℕ) → ¬ IsLink self.now source.0 line) }
    {
        head(self.heads.as_slice(), source)
    }
}

// What stands there at a source, and nothing at a source without a place.
fn head(heads: &[Option<LineId>], source: LineId) -> Option<LineId>
    ensures { result ≡ head_at heads.now source.0 }
{
    let at = source.0 as usize;
    if at < heads.len() { heads[at] } else { None }
}

// Writes for each source of these links the line to which it is linked.
fn set_heads(links: &[(LineId, LineId)], heads: &mut [Option<LineId>])
    requires sources { All (λ link. link.0.0 < length heads.old) links.now }
    requires once { AllPairs (λ a b. a.0 ≢ b.0) links.now }
    requires none { (source : ℕ) (line : LineId) → ¬ (head_at heads.old source ≡ Some line) }
    ensures places { length heads.new ≡ length heads.old }
    ensures heads { AreHeads links.now heads.new }
{
    for link in links {
        heads[link.0.0 as usize] = Some(link.1);
    }
}
