//! A proof in the middle of its play.
ghost use Rattle.std.specs.Prelude.{◌≡◌};

use crate::numbers::NumberList;
use floyd_clight::BlockList;
use floyd_goal::GoalStack;
use floyd_goal_trees::GoalList;
use floyd_text::Shared;

/// The goals that are left, how many were made so far, the numbers of those that are left, and the local variables with a
/// block of the function whose proof is played, none for a lemma.
pub struct PlayState {
    pub stack: GoalStack,
    pub made: u32,
    pub numbers: NumberList,
    pub blocks: Shared<BlockList>,
}

impl Drop for PlayState {
    fn drop(self) {
        let PlayState {
            stack,
            made: _,
            numbers,
            blocks,
        } = self;
        drop(stack);
        drop(numbers);
        drop(blocks);
    }
}

/// What a proof starts with: its goals, and the local variables with a block of its function.
pub struct Start {
    pub goals: GoalList,
    pub blocks: BlockList,
}

impl Start {
    /// The goals, and the blocks.
    pub(crate) fn into_parts(self) -> (GoalList, BlockList)
        ensures { result ≡ (self.goals, self.blocks) }
    {
        let Start { goals, blocks } = self;
        (goals, blocks)
    }
}

impl Drop for Start {
    fn drop(self) {
        let Start { goals, blocks } = self;
        drop(goals);
        drop(blocks);
    }
}
