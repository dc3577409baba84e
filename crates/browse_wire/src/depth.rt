//! How far below a directory something reaches.

ghost use Rattle.std.specs.Prelude.{◌≡◌, IfOk, IfErr};
ghost use Rattle.browse_wire.specs.Depths.{word_of, or_files, or_empty, or_all};
ghost use Rattle.browse_wire.specs.declared.depth.DepthWord.TheVariants.{Excluded};
ghost use Rattle.browse_wire.specs.declared.fault.BrowseFault.TheVariants.{ExcludedDepth};

use crate::fault::BrowseFault;

/// How far below a directory something reaches.
#[derive(Clone, Copy, Debug, PartialEq, Eq, Drop)]
pub enum Depth {
    /// The directory alone.
    Empty,
    /// The directory and its files.
    Files,
    /// The directory and what stands right below it, directories without what they hold.
    Immediates,
    /// All below it.
    Infinity,
}

/// How much of a path a working copy has.
#[derive(Clone, Copy, Debug, PartialEq, Eq, Drop)]
pub enum Reach {
    /// It reaches so far below it.
    To(Depth),
    /// `exclude`: the path is left out.
    Excluded,
}

/// A word for a depth.
#[derive(Clone, Copy, Debug, PartialEq, Eq, Drop)]
pub enum DepthWord {
    /// A depth.
    Known(Depth),
    /// `unknown`: as it was reported.
    AsReported,
    /// `exclude`
    Excluded,
}

impl DepthWord {
    /// The depth, or none where it is as reported. `ExcludedDepth` for `exclude`.
    pub(crate) fn wanted(self) -> Result<Option<Depth>, BrowseFault>
        ensures depth { IfOk result (λ d. self ≡ word_of d) }
        ensures excluded { IfErr result (λ f. (self ≡ Excluded) × (f ≡ ExcludedDepth)) }
    {
        match self {
            DepthWord::Known(depth) => Ok(Some(depth)),
            DepthWord::AsReported => Ok(None),
            DepthWord::Excluded => Err(BrowseFault::ExcludedDepth),
        }
    }
}

/// The depth where none is named: everything, or a directory and its files where a client doesn't want recursion.
pub(crate) fn or_files(recurse: bool) -> DepthWord
    ensures { result ≡ or_files recurse }
{
    if recurse {
        DepthWord::Known(Depth::Infinity)
    } else {
        DepthWord::Known(Depth::Files)
    }
}

/// The same where a client that doesn't want recursion means the directory alone.
pub(crate) fn or_empty(recurse: bool) -> DepthWord
    ensures { result ≡ or_empty recurse }
{
    if recurse {
        DepthWord::Known(Depth::Infinity)
    } else {
        DepthWord::Known(Depth::Empty)
    }
}

/// The depth in brackets, or everything where none is named there.
pub(crate) fn or_all(found: Option<DepthWord>) -> DepthWord
    ensures { result ≡ or_all found }
{
    match found {
        Some(depth) => depth,
        None => DepthWord::Known(Depth::Infinity),
    }
}
