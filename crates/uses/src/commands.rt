//! Runs of commands and of lines, as a caller writes them.
ghost use Rattle.std.specs.Prelude.{◌≡◌, IfOk};
ghost use Rattle.bit_set_run.specs.Output.{output};
ghost use Rattle.bit_set_run.specs.Run.{no_sets, run_of};

use bit_set_run::{Command, LinesFault, Reply, RunFault, Table, run, run_lines};
use std::alloc::Global;

/// The replies to some commands on sixteen empty sets.
pub fn replies_to(alloc: Global, commands: &[Command]) -> Result<Vec<Reply>, RunFault>
    ensures { IfOk result (λ replies. replies.items ≡ (run_of no_sets commands.now).replies) }
{
    let mut table = Table::<u32>::new(alloc);
    let mut replies = Vec::new(alloc);
    run(alloc, &mut table, commands, &mut replies)?;
    Ok(replies)
}

/// What the program writes for these lines.
pub fn output_of(alloc: Global, lines: &[u8]) -> Result<Vec<u8>, LinesFault>
    ensures { IfOk result (λ written. written.items ≡ output lines.now) }
{
    let mut reader = lines;
    let mut written = Vec::new(alloc);
    run_lines::<u32, _, _>(alloc, &mut reader, &mut written)?;
    Ok(written)
}
