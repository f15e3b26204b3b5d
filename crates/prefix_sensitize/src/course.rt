// What a walk goes by: the listed paths in an order, and what is searched for on them. Paths with their order serve all four walks; a
// course is that of one.
ghost use Rattle.std.specs.Prelude.{◌<◌, ◌↔◌, All, IsTrue, length};
ghost use Rattle.prefix_sensitize.specs.Courses.{BeginsAt};

use crate::outcome::Aim;
use crate::path_tree::PathTree;
use pd_base::{LineId, Path};
use std::alloc::Global;

/// The listed paths, with the order in which each walk goes over them.
#[derive(Clone, Copy)]
pub(crate) struct PathsInOrder<'a> {
    /// What memory is taken from.
    pub(crate) alloc: Global,
    /// The listed paths.
    pub(crate) paths: &'a [Path],
    /// The order of their rows, and how many prefixes they have.
    pub(crate) tree: &'a PathTree,
}

/// The listed paths in the order of a walk, those of them for which an outcome is asked, and what is searched for.
#[derive(Clone, Copy)]
pub(crate) struct Course<'a> {
    /// What memory is taken from.
    pub(crate) alloc: Global,
    /// The listed paths.
    pub(crate) paths: &'a [Path],
    /// Their rows, in the order of the walk.
    pub(crate) order: &'a [usize],
    /// For each row, whether an outcome is asked for.
    pub(crate) needed: &'a [bool],
    /// What is searched for.
    pub(crate) aim: Aim,
}

/// Whether a path stands at this place, and begins at this source.
pub(crate) fn begins_at(course: &Course, place: usize, source: LineId) -> bool
    requires { All (λ row. row < length course.now.paths.now) course.now.order.now }
    ensures { IsTrue result ↔ BeginsAt course.now place source }
{
    place < course.order.len() && course.paths[course.order[place]].source() == source
}
