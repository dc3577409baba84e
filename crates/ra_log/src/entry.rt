//! The entries of a log.

ghost use Rattle.std.specs.Option.{option_copied};
ghost use Rattle.ra_log.specs.Entries.{log_as, entry_item, entry_bytes};
ghost use Rattle.ra_log.specs.Rows.{entry_in, entries_in};
ghost use Rattle.ra_item.specs.Writing.{Writes, WritesItem};

use crate::change::write_changes;
use crate::revprops::write_props;
use crate::rows::LogRows;
use browse_wire::ask::LogOrder;
use dump_load::ChangeSet;
use node_base::{Props, RevNo};
use path_tree::Tree;
use ra_item::writer::{write_close, write_number, write_open};
use ra_serve::ServeFault;
use std::alloc::Global;
use std::io::Write;

// The entry of a revision.
fn write_entry<W: Write>(
    alloc: Global,
    out: &mut W,
    order: &LogOrder,
    trees: &[Tree],
    number: RevNo,
    set: &ChangeSet,
    props: &Props,
) -> Result<(), ServeFault>
    ensures { WritesItem W.Write out.old out.new
        (entry_item (log_as order.now) trees.now number set.now props.now) result }
{
    write_open(out)?;
    write_changes(alloc, out, order.changed_paths, trees, number, set)?;
    write_number(out, u64::from(number.get()))?;
    write_props(out, &order.revprops, props)?;
    write_close(out)?;
    Ok(())
}

// The same where the revision is there.
fn write_found<W: Write>(
    alloc: Global,
    out: &mut W,
    order: &LogOrder,
    trees: &[Tree],
    number: RevNo,
    set: Option<&ChangeSet>,
    props: Option<&Props>,
) -> Result<(), ServeFault>
    ensures { Writes W.Write out.old out.new (entry_bytes (log_as order.now) trees.now number (option_copied set.entry)
        (option_copied props.entry)) result }
{
    let Some(set) = set else {
        return Ok(());
    };
    let Some(props) = props else {
        return Ok(());
    };
    write_entry(alloc, out, order, trees, number, set, props)
}

// The entry of the revision of a number, where it is there.
fn write_numbered<W: Write>(
    alloc: Global,
    out: &mut W,
    order: &LogOrder,
    rows: &LogRows,
    number: u16,
) -> Result<(), ServeFault>
    ensures { Writes W.Write out.old out.new (entry_in (log_as order.now) rows.now number) result }
{
    let number = RevNo::new(number);
    let trees = rows.trees.as_slice();
    write_found(
        alloc,
        out,
        order,
        trees,
        number,
        rows.set(number),
        rows.props(number),
    )
}

/// The entries of the revisions of these numbers, in their order; a revision that isn't there has none. `WriteFailed`
/// where the writer failed, `OutOfMemory` where a growth was refused; then some of the bytes may have been written.
pub fn write_entries<W: Write>(
    alloc: Global,
    out: &mut W,
    order: &LogOrder,
    rows: &LogRows,
    numbers: &[u16],
) -> Result<(), ServeFault>
    ensures { Writes W.Write out.old out.new (entries_in (log_as order.now) rows.now numbers.now) result }
{
    for number in numbers {
        write_numbered(alloc, out, order, rows, *number)?;
    }
    Ok(())
}
