//! Files and directories that are looked at.

ghost use Rattle.std.specs.Prelude.{◌≡◌, IfOk};
ghost use Rattle.std.specs.FinMap as finite;
ghost use Rattle.hex.specs.Hex.{encode_lower};
ghost use Rattle.md5.specs.Md5.{md5};
ghost use Rattle.ra_wire.specs.Replies.{file_found};
ghost use Rattle.ra_wire.specs.Commands.{GetFile, GetDir};
ghost use Rattle.ra_serve.specs.Answers.{file_told, file_with};
ghost use Rattle.ra_serve.specs.Tellings.{GoesOn, Sends, Tells, TellsCommand, GivesMore};
ghost use Rattle.ra_item.specs.Writing.{Writes, WritesItem};

use crate::ask::tree_asked;
use crate::directory::tell_dir;
use crate::fault::ServeFault;
use crate::port::RepoPort;
use crate::text::{hex_of, write_wanted};
use crate::told::{kind_mismatch, no_such_path, refuse};
use node_base::{Node, NodePath, RevNo, Text};
use path_tree::Tree;
use ra_wire::reply_writer::write_file;
use std::alloc::Global;
use std::io;
use std::io::Write;

/// Answers `get-file`.
pub fn get_file<P: RepoPort, W: Write + Drop>(
    port: &mut P,
    path: &NodePath,
    number: Option<u64>,
    props: bool,
    contents: bool,
    out: W,
) -> Result<W, ServeFault>
    ensures told { TellsCommand P.RepoPort W.contents port.old port.new out
        (GetFile path.now number props contents) result }
    ensures adds { GivesMore W.contents out result }
    ensures goes { GoesOn P.refusals P.is_mirror port.old port.new }
{
    match tree_asked(port, number) {
        Ok((number, tree)) => tell_file(&tree, path, number, props, contents, out),
        Err(fault) => refuse(fault, out),
    }
}

// Tells of what stands at a path as of a file.
fn tell_file<W: Write + Drop>(
    tree: &Tree,
    path: &NodePath,
    number: RevNo,
    props: bool,
    contents: bool,
    out: W,
) -> Result<W, ServeFault>
    ensures { Sends W.contents out (file_told number props contents (finite.get tree.now path.now)) result }
{
    let Some(node) = tree.get(path.names()) else {
        return no_such_path(out);
    };
    let Some(text) = &node.text else {
        return kind_mismatch(out);
    };
    let mut out = out;
    write_found(&mut out, node, text, number, props, contents)?;
    Ok(out)
}

// A file with its text, where that is wanted.
fn write_found<W: Write>(
    out: &mut W,
    node: &Node,
    text: &Text,
    number: RevNo,
    props: bool,
    contents: bool,
) -> io::Result<()>
    ensures { Writes W.Write out.old out.new (file_with number props contents node.now text.now) result }
{
    write_summed(out, node, text, number, props)?;
    write_wanted(out, text.as_slice(), contents)
}

// A file's sum, revision and properties.
fn write_summed<W: Write>(
    out: &mut W,
    node: &Node,
    text: &Text,
    number: RevNo,
    props: bool,
) -> io::Result<()>
    ensures { WritesItem W.Write out.old out.new
        (file_found (encode_lower (md5 text.now)) number props node.now.props) result }
{
    let sum = hex_of(text.sum());
    write_file(out, sum.as_slice(), number, &node.props, props)
}

/// Answers `get-dir`.
pub fn get_dir<P: RepoPort, W: Write + Drop>(
    alloc: Global,
    port: &mut P,
    path: &NodePath,
    number: Option<u64>,
    props: bool,
    contents: bool,
    out: W,
) -> Result<W, ServeFault>
    ensures told { IfOk result (Tells P.repository P.refusals P.is_mirror W.contents
        (GetDir path.now number props contents) port.old port.new out) }
    ensures adds { GivesMore W.contents out result }
    ensures goes { GoesOn P.refusals P.is_mirror port.old port.new }
{
    match tree_asked(port, number) {
        Ok((number, tree)) => tell_dir(alloc, &tree, path, number, props, contents, out),
        Err(fault) => refuse(fault, out),
    }
}
