// The rules under which pairs of vectors are looked for and excluded.
ghost use Rattle.std.specs.Prelude.{◌≡◌};
ghost use Rattle.pd_base.specs.Links.{links_of};

use crate::{LineId, Links};

/// What a search assumes of the sources other than the path's own (this project's own).
#[derive(Debug, Drop)]
pub enum Rules {
    /// They may change or not.
    One,
    /// They are held steady.
    Two,
    /// They may change or not, and some have after the transition the value that a line has before it.
    Linked(Links),
}

impl Rules {
    /// The links that stand under the rules: none but under linked ones.
    pub fn links(&self) -> &[(LineId, LineId)]
        ensures { result.now ≡ links_of self.now }
    {
        match self {
            Rules::One | Rules::Two => &[],
            Rules::Linked(links) => links.pairs(),
        }
    }
}
