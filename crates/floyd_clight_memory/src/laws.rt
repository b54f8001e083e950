ghost use Rattle.floyd_clight_memory.specs.Blocks as blocks;

/// A store keeps the kind, the size and the permissions of every block. A new block has the next number. Neither a new
/// block nor a freed one changes another.
pub fn blocks_through_changes()
    ensures stores { blocks.StoresKeepBlocks }
    ensures new { blocks.NewBlocksAreNext }
    ensures frees { blocks.FreesChangeOne }
{}

/// A block that may be freed on its whole size is freed.
pub fn freeable_blocks()
    ensures { blocks.FreeableMayBeFreed }
{}
