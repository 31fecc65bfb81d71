// Runs of commands on a table. What one command does is in `stepping`.
ghost use Rattle.std.specs.Prelude.{◌≡◌, ℕ, ◌≤◌, ◌⊎◌, List, ◌++◌, [], ◌∷◌, IfOk, OnOk, OnErr, vec_len, vec_capacity};
ghost use Rattle.bit_set.specs.Bounds.{greatest};
ghost use Rattle.bit_set_run.specs.declared.running.RunFault.TheVariants.{Memory};
ghost use Rattle.bit_set_run.specs.Run.{step, run_of, FailsAt, StoppedAt};

use crate::stepping::step;
use crate::{Command, Reply, Table};
use bit_set::BitBlock;
use std::alloc::{AllocError, AllocFailed, Global};
use thiserror::Error;

/// Why a run of commands stopped.
#[derive(Clone, Copy, Debug, PartialEq, Eq, Error)]
pub enum RunFault {
    /// Memory ran out at the command with this index, counted from 0. Those before it were executed and have
    /// replies.
    ///
    /// `usize::MAX` is the index of no command. [`run`] never returns it; `?` uses it to convert the [`AllocError`]
    /// or the [`AllocFailed`] of another call.
    #[error("memory refused")]
    Memory(usize),
}

impl From<AllocError> for RunFault {
    ghost from_gives = { λ _ fault. fault ≡ Memory greatest };

    fn from(_fault: AllocError) -> Self {
        RunFault::Memory(usize::MAX)
    }
}

impl<T: Drop> From<AllocFailed<T>> for RunFault {
    ghost from_gives = { λ _ fault. fault ≡ Memory greatest };

    fn from(_fault: AllocFailed<T>) -> Self {
        RunFault::Memory(usize::MAX)
    }
}

/// Executes the commands on the table, one after another, and appends a reply for each.
///
/// At [`RunFault::Memory`] the commands before the one named have been executed and have their replies. It and
/// those after it have changed nothing, except that a [`Command::Extend`] has inserted the items before the one
/// that could not be inserted. A reply's capacity is reserved before its command runs: if there is capacity for the
/// replies, memory can run out only in an insert, an extend, a copy, an operation in place, an append, a split off
/// at a number above 0, a reservation past all numbers of a set, and in an `Items`, an iterator, a rest and a
/// shrink that have a number to show or to keep.
///
/// ```
/// // `a` is the name of the first set.
/// let mut table = Table::<u32>::new(alloc);
/// let mut replies = Vec::new(alloc);
/// let commands = [Command::Insert(a, 3), Command::Count(a)];
/// run(alloc, &mut table, &commands, &mut replies)?;
/// let expected = [Reply::Truth(true), Reply::Number(1)];
/// assert_eq!(replies.as_slice(), expected.as_slice());
/// ```
pub fn run<B: BitBlock>(
    alloc: Global,
    table: &mut Table<B>,
    commands: &[Command],
    replies: &mut Vec<Reply>,
) -> Result<(), RunFault>
    ensures replies { OnOk result (replies.new.items ≡ replies.old.items ++ (run_of table.old commands.now).replies) }
    ensures sets { OnOk result (table.new ≡ (run_of table.old commands.now).sets) }
    ensures capacity { vec_capacity replies.old ≤ vec_capacity replies.new }
    ensures memory { (k : ℕ) → result ≡ Err (RunFault.Memory k)
        → StoppedAt k commands.now (vec_capacity replies.old) table.old table.new replies.old.items replies.new.items }
{
    for (place, command) in commands.iter().enumerate() {
        if execute(alloc, table, command, replies).is_err() {
            return Err(RunFault::Memory(place));
        }
    }
    Ok(())
}

// One command, and its reply after the others.
fn execute<B: BitBlock>(
    alloc: Global,
    table: &mut Table<B>,
    command: &Command,
    replies: &mut Vec<Reply>,
) -> Result<(), AllocError>
    ensures replies { OnOk result (replies.new.items ≡ replies.old.items ++ (step table.old command.now).reply ∷ []) }
    ensures sets { OnOk result (table.new ≡ (step table.old command.now).sets) }
    ensures kept { OnErr result (replies.new.items ≡ replies.old.items) }
    ensures capacity { vec_capacity replies.old ≤ vec_capacity replies.new }
    ensures stopped { OnErr result (((vec_capacity replies.old ≤ vec_len replies.old) × (table.new ≡ table.old))
        ⊎ FailsAt table.old command.now table.new) }
{
    replies.reserve(1)?;
    let reply = step(alloc, &mut table.sets, command)?;
    replies.push_reserved(reply);
    Ok(())
}
