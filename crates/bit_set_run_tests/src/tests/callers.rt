//! What a caller may conclude of a run by its contract alone, where no test can see it. This is proved, and not run.
ghost use Rattle.std.specs.Prelude.{◌≤◌, vec_capacity};

use bit_set::BitBlock;
use bit_set_run::{Command, Reply, Table, run};
use std::alloc::Global;

// However a run ends, the replies have no less capacity than before.
pub(crate) fn run_some<B: BitBlock>(
    alloc: Global,
    table: &mut Table<B>,
    commands: &[Command],
    replies: &mut Vec<Reply>,
) -> bool
    ensures { vec_capacity replies.old ≤ vec_capacity replies.new }
{
    run(alloc, table, commands, replies).is_ok()
}
