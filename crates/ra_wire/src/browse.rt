//! What a client is told of a file or a directory.

ghost use Rattle.std.specs.Prelude.{map, None};
ghost use Rattle.std.specs.Option.{option_map};
ghost use Rattle.ra_item.specs.Items.{row};
ghost use Rattle.ra_wire.specs.Params.{left_of, each, Reads, Misses};
ghost use Rattle.ra_wire.specs.Prototypes.{IsFile, IsDir, Judges};
ghost use Rattle.ra_wire.specs.Answers.{dirent_in, dirent_as, file_in, file_as, dir_in, dir_as};

use crate::dirent::Dirent;
use crate::fault::WireFault;
use crate::params::Params;
use crate::props::next_props;
use node_base::Props;
use ra_item::item::Item;
use std::alloc::Global;

/// An answer to `get-file`: `( [ md5 ] rev ( props ) )`. Where the text was asked for, its strings follow.
#[derive(Drop)]
pub struct FileFound {
    /// The text's MD5 in hexadecimal digits.
    pub sum: Option<Vec<u8>>,
    pub revision: u64,
    pub props: Props,
}

/// An answer to `get-dir`: `( rev ( props ) ( entry .. ) )`.
#[derive(Drop)]
pub struct DirFound {
    pub revision: u64,
    pub props: Props,
    pub entries: Vec<Dirent>,
}

// Items that are all entries.
fn all_entries(alloc: Global, items: Vec<Item>) -> Result<Vec<Dirent>, WireFault>
    ensures read { Reads (each dirent_in (row items.items)) (λ es. map dirent_as es.items) result }
    ensures none { Misses (each dirent_in (row items.items)) result }
{
    let mut entries = Vec::new(alloc);
    for item in items {
        entries.push(Dirent::read(alloc, item)?)?;
    }
    Ok(entries)
}

impl FileFound {
    /// What an answer says of a file. `BadShape` (48) for another form, and properties past the limits;
    /// `OutOfMemory` (70).
    pub fn parse(alloc: Global, content: Params) -> Result<FileFound, WireFault>
        ensures read { Reads (file_in (left_of content)) file_as result }
        ensures none { Misses (file_in (left_of content)) result }
        ensures judged { Judges IsFile file_as (left_of content) result }
    {
        FileFound::read(alloc, content)
    }

    // The same, by what is read alone.
    fn read(alloc: Global, content: Params) -> Result<FileFound, WireFault>
        ensures read { Reads (file_in (left_of content)) file_as result }
        ensures none { Misses (file_in (left_of content)) result }
    {
        let mut content = content;
        let sum = content.maybe_text()?;
        let revision = content.number()?;
        let props = next_props(alloc, &mut content)?;
        Ok(FileFound {
            sum,
            revision,
            props,
        })
    }
}

impl DirFound {
    /// What an answer says of a directory. `BadShape` (48) for another form, and properties past the limits;
    /// `OutOfMemory` (70).
    pub fn parse(alloc: Global, content: Params) -> Result<DirFound, WireFault>
        ensures read { Reads (dir_in (left_of content)) dir_as result }
        ensures none { Misses (dir_in (left_of content)) result }
        ensures judged { Judges IsDir dir_as (left_of content) result }
    {
        DirFound::read(alloc, content)
    }

    // The same, by what is read alone.
    fn read(alloc: Global, content: Params) -> Result<DirFound, WireFault>
        ensures read { Reads (dir_in (left_of content)) dir_as result }
        ensures none { Misses (dir_in (left_of content)) result }
    {
        let mut content = content;
        let revision = content.number()?;
        let props = next_props(alloc, &mut content)?;
        let entries = all_entries(alloc, content.items()?)?;
        Ok(DirFound {
            revision,
            props,
            entries,
        })
    }
}
