//! Laws of property blocks.
ghost use Rattle.node_base.specs.BlockLaws.{BlocksAreRead, ReadsAreBlocks, PiecesJoin, BlocksAreWritten};

/// A block of the grammar within the limits is read as its map, whatever follows.
pub fn blocks_are_read()
    ensures { BlocksAreRead }
{}

/// It doesn't matter how the bytes of a block are cut.
pub fn block_pieces_join()
    ensures { PiecesJoin }
{}

/// What is written of a map is a block of the grammar, and is read as that map, whatever follows.
pub fn blocks_are_written()
    ensures { BlocksAreWritten }
{}

/// Bytes that were read are a block of the grammar, of the announced length and within the limits, and what follows it.
pub fn reads_are_blocks()
    ensures { ReadsAreBlocks }
{}
