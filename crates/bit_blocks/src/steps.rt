//! A count that only contracts see.
ghost use Rattle.std.specs.Prelude.{◌≡◌, ◌+◌};

use std::marker::Model;
use std::mem::ManuallyDrop;
use std::snapshot::Snapshot;

/// How many steps were taken. Contracts see the number; at run time it has no bytes and costs nothing.
#[derive(Drop)]
pub struct Steps {
    // A snapshot has a drop of its own, so the borrow checker would take a walk that counts its steps to
    // read what it borrows until the walk goes out of scope. There is nothing to drop.
    link: ManuallyDrop<Snapshot<Link>>,
}

// The count is the length of the chain, which no code can read. A chain cannot be taken from a `Steps` that is
// borrowed, and so a clone begins one of its own: its first link, `Same`, goes back to the other chain and counts for
// nothing.
#[derive(Drop)]
enum Link {
    Zero,
    More(Snapshot<Snapshot<Link>>),
    Same(Snapshot<Snapshot<Link>>),
}

impl Model for Steps {
    ghost use Rattle.std.specs.Prelude.{ℕ};

    ghost Value = { ℕ };

    ghost use Rattle.std.specs.Mem.{manually_drop_value};
    ghost use Rattle.bit_blocks.specs.Steps.{depth};

    ghost view = { λ steps. depth (manually_drop_value steps.link).value };
}

impl Steps {
    /// No step.
    #[inline]
    pub fn new() -> Self
        ensures { result ≡ 0 }
    {
        Steps {
            link: ManuallyDrop::new(Snapshot::of(&Link::Zero)),
        }
    }

    /// One step more.
    #[inline]
    pub fn tick(&mut self)
        ensures { self.new ≡ self.old + 1 }
    {
        self.link = ManuallyDrop::new(Snapshot::of(&Link::More(Snapshot::of(&self.link))));
    }

    /// As many steps, counted on by itself.
    #[inline]
    pub fn clone(&self) -> Self
        ensures { result ≡ self.now }
    {
        Steps {
            link: ManuallyDrop::new(Snapshot::of(&Link::Same(Snapshot::of(&self.link)))),
        }
    }
}

const _: () = prove!(size_of::<Steps>() == 0);
