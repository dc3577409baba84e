//! An entry of a directory.

ghost use Rattle.std.specs.Prelude.{None};
ghost use Rattle.std.specs.Option.{option_map};
ghost use Rattle.ra_wire.specs.Params.{left_of, Reads, ReadsNext, Misses};
ghost use Rattle.ra_wire.specs.Prototypes.{IsDirent, Judges};
ghost use Rattle.ra_wire.specs.Answers.{node_name_in, dirent_with, dirent_in, dirent_as};

use crate::answer::next_node_kind;
use crate::fault::WireFault;
use crate::params::Params;
use node_base::{NodeKind, NodeName, PathFault};
use ra_item::item::Item;
use std::alloc::Global;

/// An entry of a directory: `( name kind size has-props created-rev [ date ] [ author ] )`.
#[derive(Drop)]
pub struct Dirent {
    pub name: NodeName,
    pub kind: NodeKind,
    /// How long a file's text is; 0 for a directory.
    pub size: u64,
    /// Whether it has properties.
    pub has_props: bool,
    /// The revision that last changed it.
    pub created: u64,
    /// When that was, and by whom.
    pub date: Option<Vec<u8>>,
    pub author: Option<Vec<u8>>,
}

// The next item, which is a name of a file or a directory.
fn next_name(alloc: Global, params: &mut Params) -> Result<NodeName, WireFault>
    ensures read { ReadsNext node_name_in (λ n. n) params.old params.new result }
    ensures none { Misses (node_name_in (left_of params.old)) result }
{
    match NodeName::parse(alloc, params.text()?.as_slice()) {
        Ok(name) => Ok(name),
        Err(PathFault::OutOfMemory) => Err(WireFault::OutOfMemory),
        Err(PathFault::TooLong | PathFault::BadPath) => Err(WireFault::BadShape),
    }
}

// What follows an entry's name, kind and size.
fn rest_of(
    name: NodeName,
    kind: NodeKind,
    size: u64,
    params: &mut Params,
) -> Result<Dirent, WireFault>
    ensures read { Reads (dirent_with name kind size (left_of params.old)) dirent_as result }
    ensures none { Misses (dirent_with name kind size (left_of params.old)) result }
{
    let has_props = params.boolean()?;
    let created = params.number()?;
    let date = params.maybe_text()?;
    let author = params.maybe_text()?;
    Ok(Dirent {
        name,
        kind,
        size,
        has_props,
        created,
        date,
        author,
    })
}

impl Dirent {
    /// The entry that an item is. `BadShape` (48) for another form, a kind that is neither file nor dir, or a name that
    /// is none; `OutOfMemory` (70).
    pub fn parse(alloc: Global, item: Item) -> Result<Dirent, WireFault>
        ensures read { Reads (dirent_in item) dirent_as result }
        ensures none { Misses (dirent_in item) result }
        ensures judged { Judges IsDirent dirent_as item result }
    {
        Dirent::read(alloc, item)
    }

    // The same, by what is read alone.
    pub(crate) fn read(alloc: Global, item: Item) -> Result<Dirent, WireFault>
        ensures read { Reads (dirent_in item) dirent_as result }
        ensures none { Misses (dirent_in item) result }
    {
        let mut parts = Params::of(item)?;
        let name = next_name(alloc, &mut parts)?;
        let kind = next_node_kind(&mut parts)?;
        let size = parts.number()?;
        rest_of(name, kind, size, &mut parts)
    }
}
