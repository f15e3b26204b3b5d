// The choice of a split. Any source of the support will do that is told and whose label has a state of each half: the one that is led to,
// else the first one that can be split, by its last value if it has both. Below a node none can be split that could not be split there, so
// it is looked for first where the node above left off.
ghost use Rattle.std.specs.Prelude.{◌<◌, IfSome, IfNone, length};
ghost use Rattle.trees.specs.Spent.{IsInSupport};
ghost use Rattle.implication.specs.Scopes.{standing};
ghost use Rattle.implication.specs.Standing.{IsTold};
ghost use Rattle.pair_judging.specs.Targets.{seen_target};
ghost use Rattle.implication.specs.NodeScopes.{StandsAtNode};
ghost use Rattle.justify.specs.Desks.{IsDesk, AreInSupport};
ghost use Rattle.justify.specs.Scoping.{SuitsSearch};
ghost use Rattle.justify.specs.Choices.{IsUsefulSplit, AreSingle, AreSingleAmong, IsSingleAt};

use crate::desk::Desk;
use crate::halves::kind_to_split;
use implication::{Scope, Setting};
use pair_judging::Target;
use pd_base::LineId;
use state_laws::Split;
use state_sets::Algebra;

// A split that was chosen, and the place among the cone's sources from which on to look below it.
#[derive(Clone, Copy)]
pub(crate) struct Chosen {
    pub(crate) split: Split,
    pub(crate) place: usize,
}

// A split at a source of the support that is told, of which each half has a state in the source's label: at the lead, if that can be split,
// else at a source of the cone, looked for from this place on first. There is none where each such source has less than two states.
pub(crate) fn choose<A: Algebra, S: Setting>(
    scope: &Scope<A, S>,
    target: &Target,
    desk: &Desk,
    lead: Option<LineId>,
    from: usize,
) -> Option<Chosen>
    requires suits { SuitsSearch A.algebra (seen_target target.now) (standing scope.now) }
    requires node { StandsAtNode A.algebra (seen_target target.now) (standing scope.now) }
    requires desk { IsDesk A.algebra (standing scope.now).net (standing scope.now).rules target.now.path.now desk.now }
    ensures some { IfSome result (λ chosen. IsUsefulSplit A.algebra (seen_target target.now) (standing scope.now) chosen.split) }
    ensures none { IfNone result (AreSingle A.algebra (seen_target target.now) (standing scope.now)) }
{
    if let Some(source) = lead {
        if let Some(split) = split_at_lead(scope, target, desk, source) {
            return Some(Chosen { split, place: from });
        }
    }
    first_from(scope, target, desk.cone.sources(), from)
}

// The first split at one of these sources from this place on, or where there is none, at one before.
fn first_from<A: Algebra, S: Setting>(
    scope: &Scope<A, S>,
    target: &Target,
    sources: &[LineId],
    from: usize,
) -> Option<Chosen>
    requires suits { SuitsSearch A.algebra (seen_target target.now) (standing scope.now) }
    requires node { StandsAtNode A.algebra (seen_target target.now) (standing scope.now) }
    requires sources { AreInSupport (standing scope.now).net (standing scope.now).rules target.now.path.now sources.now }
    ensures some { IfSome result (λ chosen. IsUsefulSplit A.algebra (seen_target target.now) (standing scope.now) chosen.split) }
    ensures none { IfNone result (AreSingleAmong A.algebra (standing scope.now) sources.now) }
{
    let from = from.min(sources.len());
    match first_split(scope, target, &sources[from..]) {
        Some(chosen) => Some(Chosen {
            split: chosen.split,
            place: from + chosen.place,
        }),
        None => first_split(scope, target, &sources[..from]),
    }
}

// The first split at one of these sources, and its place among them.
fn first_split<A: Algebra, S: Setting>(
    scope: &Scope<A, S>,
    target: &Target,
    sources: &[LineId],
) -> Option<Chosen>
    requires suits { SuitsSearch A.algebra (seen_target target.now) (standing scope.now) }
    requires node { StandsAtNode A.algebra (seen_target target.now) (standing scope.now) }
    requires sources { AreInSupport (standing scope.now).net (standing scope.now).rules target.now.path.now sources.now }
    ensures some { IfSome result (λ chosen. IsUsefulSplit A.algebra (seen_target target.now) (standing scope.now) chosen.split) }
    ensures place { IfSome result (λ chosen. chosen.place < length sources.now) }
    ensures none { IfNone result (AreSingleAmong A.algebra (standing scope.now) sources.now) }
{
    for (place, source) in sources.iter().enumerate() {
        if let Some(split) = split_at(scope, target, *source) {
            return Some(Chosen { split, place });
        }
    }
    None
}

// A split at the source that is led to, if it is one of the cone and can be split.
fn split_at_lead<A: Algebra, S: Setting>(
    scope: &Scope<A, S>,
    target: &Target,
    desk: &Desk,
    source: LineId,
) -> Option<Split>
    requires suits { SuitsSearch A.algebra (seen_target target.now) (standing scope.now) }
    requires node { StandsAtNode A.algebra (seen_target target.now) (standing scope.now) }
    requires desk { IsDesk A.algebra (standing scope.now).net (standing scope.now).rules target.now.path.now desk.now }
    ensures { IfSome result (IsUsefulSplit A.algebra (seen_target target.now) (standing scope.now)) }
{
    if source.0 < scope.net().sources() && desk.cone.marks()[source.0 as usize] {
        split_at(scope, target, source)
    } else {
        None
    }
}

// A split at a source of the support, if it is told and its label has two states.
fn split_at<A: Algebra, S: Setting>(
    scope: &Scope<A, S>,
    target: &Target,
    source: LineId,
) -> Option<Split>
    requires suits { SuitsSearch A.algebra (seen_target target.now) (standing scope.now) }
    requires node { StandsAtNode A.algebra (seen_target target.now) (standing scope.now) }
    requires source { IsInSupport (standing scope.now).net (standing scope.now).rules target.now.path.now source.0 }
    ensures some { IfSome result (IsUsefulSplit A.algebra (seen_target target.now) (standing scope.now)) }
    ensures none { IfNone result (IsTold (standing scope.now) source.0 → IsSingleAt A.algebra (standing scope.now) source.0) }
{
    if !scope.engine.tells(source) {
        return None;
    }
    let kind = kind_to_split::<A>(scope.label(source))?;
    Some(Split { line: source, kind })
}
