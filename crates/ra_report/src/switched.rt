//! Paths that stand as other URLs'.

ghost use Rattle.std.specs.Prelude.{◌≡◌, ◌++◌};
ghost use Rattle.std.specs.Option.{option_map_or};
ghost use Rattle.node_base.specs.Path.{rest_after};
ghost use Rattle.ra_report.specs.Given.{GivesPath};
ghost use Rattle.ra_report.specs.Switches.{lies};
ghost use Rattle.ra_report.specs.Splits.{whole_split};

use crate::take::path_below;
use node_base::{NodeName, NodePath, rest_after};
use ra_denial::Stop;
use std::alloc::Global;

/// A path at which another URL's place stands.
#[derive(Drop)]
pub struct Switched {
    pub path: NodePath,
    pub place: NodePath,
}

// A path in two parts.
#[derive(Clone, Copy)]
struct Split<'a> {
    front: &'a NodePath,
    rest: &'a [NodeName],
}

/// Where a path lies that is below a folder: below the place of the last switched path that is a front of it.
pub fn lying(
    alloc: Global,
    here: &NodePath,
    switches: &[Switched],
    path: &NodePath,
) -> Result<NodePath, Stop>
    ensures { GivesPath (lies path.now (here.now ++ path.now) switches.now) result }
{
    let mut place = Split {
        front: here,
        rest: path.names(),
    };
    for switched in switches {
        place = nearer(switched, path, place);
    }
    path_below(alloc, place.front, place.rest)
}

// Where a path lies by one switched path more.
fn nearer<'a>(switched: &'a Switched, path: &'a NodePath, place: Split<'a>) -> Split<'a>
    ensures { whole_split result ≡ option_map_or (λ r. switched.now.place ++ r) (rest_after switched.now.path path.now)
        (whole_split place.entry) }
{
    match rest_after(switched.path.names(), path.names()) {
        Some(rest) => Split {
            front: &switched.place,
            rest,
        },
        None => place,
    }
}
