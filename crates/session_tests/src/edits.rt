//! Edits of revisions, as they are spelled on the wire.

/// The edit of revision 0, which opens the root alone.
pub(crate) const EMPTY: &[u8] = b"( target-rev ( 0 ) ) ( open-root ( ( ) 2:t0 ) ) \
    ( close-dir ( 2:t0 ) ) ( finish-replay ( ) ) ";

/// The edit of one that copies a directory, in which a file goes.
pub(crate) const COPIED: &[u8] = b"( target-rev ( 2 ) ) ( open-root ( ( 1 ) 2:t0 ) ) \
    ( add-dir ( 1:b 2:t0 2:t1 ( 2:/t 1 ) ) ) ( delete-entry ( 3:b/x ( 1 ) 2:t1 ) ) \
    ( close-dir ( 2:t1 ) ) ( close-dir ( 2:t0 ) ) ( finish-replay ( ) ) ";

/// A revision without properties, in front of its edit.
pub(crate) const BARE: &[u8] = b"( revprops ( ) ) ";
