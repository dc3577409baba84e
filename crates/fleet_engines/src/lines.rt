//! Lines that the program prints.
ghost use Rattle.std.specs.Prelude.{◌≡◌, ◌++◌, codes, OnOk};
ghost use Rattle.std.specs.Fmt.{decimal};
ghost use Rattle.fleet_engines.specs.Listing.{shown_text, text_line};

use itoa::Buffer;
use node_base::Node;
use std::alloc::AllocError;

// Adds a path's text, each name behind a slash, as it is printed: the first slash goes, and the root is one.
fn push_path(line: &mut Vec<u8>, path: &[u8]) -> Result<(), AllocError>
    ensures { OnOk result (line.new.items ≡ line.old.items ++ shown_text path.now) }
{
    match path.split_first() {
        Some((_, rest)) => Ok(line.extend_from_slice(rest)?),
        None => Ok(line.push(b'/')?),
    }
}

/// Adds a node's line of a listing.
pub fn push_node_line(line: &mut Vec<u8>, path: &[u8], node: &Node) -> Result<(), AllocError>
    ensures { OnOk result (line.new.items ≡ line.old.items ++ text_line (path.now, node.now)) }
{
    let changed = node.changed.get();
    match &node.text {
        Some(text) => push_file_front(line, changed, text.len())?,
        None => push_dir_front(line, changed)?,
    }
    push_path(line, path)?;
    line.push(b'\n')?;
    Ok(())
}

// Adds what stands before a file's path: its revision and its length.
fn push_file_front(line: &mut Vec<u8>, changed: u16, length: usize) -> Result<(), AllocError>
    ensures { OnOk result (line.new.items ≡ line.old.items ++ codes "F " ++ decimal changed ++ codes " "
        ++ decimal length ++ codes " ") }
{
    line.extend_from_slice(b"F ")?;
    push_count(line, usize::from(changed))?;
    line.push(b' ')?;
    push_count(line, length)?;
    line.push(b' ')?;
    Ok(())
}

// Adds what stands before a directory's path: its revision.
fn push_dir_front(line: &mut Vec<u8>, changed: u16) -> Result<(), AllocError>
    ensures { OnOk result (line.new.items ≡ line.old.items ++ codes "D " ++ decimal changed ++ codes " ") }
{
    line.extend_from_slice(b"D ")?;
    push_count(line, usize::from(changed))?;
    line.push(b' ')?;
    Ok(())
}

/// Adds a number.
pub fn push_count(line: &mut Vec<u8>, count: usize) -> Result<(), AllocError>
    ensures { OnOk result (line.new.items ≡ line.old.items ++ decimal count) }
{
    let mut digits = Buffer::new();
    line.extend_from_slice(digits.format(count).as_bytes())?;
    Ok(())
}
