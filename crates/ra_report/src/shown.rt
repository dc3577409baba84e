//! How much of a path a working copy has.

ghost use Rattle.std.specs.Prelude.{◌≡◌};
ghost use Rattle.browse_wire.specs.Reports.{reported_as};
ghost use Rattle.ra_report.specs.Shown.{depth_as, part_as, shown_of};

use browse_wire::depth::{Depth as Below, Reach};
use browse_wire::report::Reported;
use tree_reports::{Depth, Part};

/// What a working copy has at a path.
#[derive(Clone, Copy)]
pub enum Shown {
    /// The node alone: a folder has no entries and no properties.
    Emptied,
    /// What stands at its source, looked at so deep.
    Within(Depth),
    /// Nothing: the path is left out.
    LeftOut,
}

/// What it has at a path that it reports.
pub fn shown_of(path: &Reported) -> Shown
    ensures { result ≡ shown_of (reported_as path.now) }
{
    match path.depth {
        Reach::Excluded => Shown::LeftOut,
        Reach::To(depth) => {
            if path.start_empty {
                return Shown::Emptied;
            }
            Shown::Within(depth_of(depth))
        }
    }
}

/// How much of a path it has, and wants.
pub fn part_of(reach: Reach) -> Part
    ensures { result ≡ part_as reach }
{
    match reach {
        Reach::To(depth) => Part::Within(depth_of(depth)),
        Reach::Excluded => Part::LeftOut,
    }
}

/// A depth of a command as one of trees.
pub fn depth_of(depth: Below) -> Depth
    ensures { result ≡ depth_as depth }
{
    match depth {
        Below::Empty => Depth::Empty,
        Below::Files => Depth::Files,
        Below::Immediates => Depth::Immediates,
        Below::Infinity => Depth::Infinity,
    }
}
