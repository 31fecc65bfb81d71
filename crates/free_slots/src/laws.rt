//! What whole runs of calls on slots amount to, stated as the contract of a function that does nothing.
ghost use Rattle.std.specs.Prelude.{ℕ, ◌+◌, ◌<◌, ◌≤◌, ◌↔◌, ◌++◌, ◌∷◌, Bool, IsTrue, List, None, Some};
ghost use Rattle.free_slots.specs.Runs.{Event, IsHeld, IsLowestUnheld, IsUnheldRun, Run, times_given, times_taken};
ghost use Rattle.free_slots.specs.{Runs.Event.{GiveBack, Take, TakeRun}, Slots.{SlotTable, all_free, is_taken}};

use bit_set::laws::{members_of_merged_sets, members_of_sets, numbers_of_ranges};

/// What any sequence of calls on n slots returns, from when they are made. `Happens` is a clause of each call that
/// changes slots, so these are the runs of the calls themselves. A slot is held from when it is taken until it is
/// given back.
///
/// - `once`: a slot is never taken a second time while it is held.
/// - `held`: the slots that are held are those that are not free.
/// - `lowest`: the slot that `take` or `take_at_or_above` returns was not held, and each lower slot at or above the
///   requested number was.
/// - `full`: they return `None` only if each of these is held.
/// - `run`: the slots that `take_run` returns were not held, and no equally long run below them was free.
/// - `no_run`: it returns `None` only if no run of that many slots is free.
/// - `given`: `give_back` returns `true` for slots that are held, and for no others.
pub fn whole_runs()
    ensures once { (n slot : ℕ) (events : List Event) (end : SlotTable) → Run (all_free n) events end
        → times_taken slot events ≤ times_given slot events + 1 }
    ensures held { (n slot : ℕ) (events : List Event) (end : SlotTable) → Run (all_free n) events end
        → IsHeld events slot ↔ IsTrue (is_taken end slot) }
    ensures lowest { (n from slot : ℕ) (events later : List Event) (end : SlotTable)
        → Run (all_free n) (events ++ Take from (Some slot) ∷ later) end → IsLowestUnheld n events from slot }
    ensures full { (n from slot : ℕ) (events later : List Event) (end : SlotTable)
        → Run (all_free n) (events ++ Take from None ∷ later) end → from ≤ slot → slot < n → IsHeld events slot }
    ensures run { (n count first : ℕ) (events later : List Event) (end : SlotTable)
        → Run (all_free n) (events ++ TakeRun count (Some first) ∷ later) end → IsUnheldRun n events count first
        × ((other : ℕ) → other < first → IsUnheldRun n events count other → ⊥) }
    ensures no_run { (n count first : ℕ) (events later : List Event) (end : SlotTable)
        → Run (all_free n) (events ++ TakeRun count None ∷ later) end → IsUnheldRun n events count first → ⊥ }
    ensures given { (n slot : ℕ) (result : Bool) (events later : List Event) (end : SlotTable)
        → Run (all_free n) (events ++ GiveBack slot result ∷ later) end → IsTrue result ↔ IsHeld events slot }
{
    members_of_sets();
    members_of_merged_sets();
    numbers_of_ranges();
}
