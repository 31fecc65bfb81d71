//! Slots that are taken and given back, and the examples of the doc comments.
use crate::expect::{Test, expect, expect_eq, ok};
use bit_set::BitBlock;
use block24::Block24;
use free_slots::Slots;
use free_slots::laws::whole_runs;
use std::alloc::AllocError;

fn three_slots(rt: &impl Test) -> Result<(), AllocError> {
    let alloc = rt.alloc();
    let mut slots = Slots::<u32>::with_slots(alloc, 3)?;
    expect_eq(rt, &slots.take(), &Some(0));
    // Of three slots one is taken.
    expect_eq(rt, &slots.len(), &3);
    // Of three slots one is taken.
    expect_eq(rt, &slots.free_count(), &2);
    // Slot 0 is taken.
    expect(rt, !slots.is_free(0));
    expect_eq(rt, &slots.take_at_or_above(2), &Some(2));
    expect_eq(rt, &slots.take_at_or_above(2), &None);
    expect(rt, slots.give_back(2));
    expect(rt, !slots.give_back(2));
    Ok(())
}

fn new<B: BitBlock>(rt: &impl Test, n: usize) -> Slots<B> {
    ok(rt, Slots::with_slots(rt.alloc(), n))
}

#[test]
fn slots_are_taken(rt: HostRuntime) {
    whole_runs();
    ok(&rt, three_slots(&rt));
    let mut slots = new::<u32>(&rt, 5);
    expect_eq(&rt, &slots.take_at_or_above(1), &Some(1));
    // Of five slots all but 1 are free.
    expect_eq(&rt, &slots.take_run(2), &Some(2));
    expect_eq(&rt, &slots.take_run(2), &None);
}

// A call: `take` or `take_at_or_above` with what it returns, and `give_back` with whether the slot was taken.
#[derive(Clone, Copy)]
enum Call {
    Take(Option<usize>),
    TakeFrom(usize, Option<usize>),
    GiveBack(usize, bool),
}

// Whether the call returns what it has.
fn goes_well<B: BitBlock>(slots: &mut Slots<B>, call: Call) -> bool {
    match call {
        Call::Take(slot) => slots.take() == slot,
        Call::TakeFrom(from, slot) => slots.take_at_or_above(from) == slot,
        Call::GiveBack(slot, is_taken) => slots.give_back(slot) == is_taken,
    }
}

// Once all of 300 slots are taken.
const OF_FULL: &[Call] = &[
    Call::Take(None),
    Call::TakeFrom(0, None),
    Call::GiveBack(299, true),
    Call::GiveBack(7, true),
    Call::GiveBack(150, true),
    Call::GiveBack(300, false),
    Call::TakeFrom(8, Some(150)),
    Call::TakeFrom(151, Some(299)),
    Call::TakeFrom(151, None),
    Call::Take(Some(7)),
];

// Takes all of 300 slots, and some of them again.
fn runs_out<B: BitBlock>(rt: &impl Test) {
    let mut slots = new::<B>(rt, 300);
    for slot in 0..300 {
        expect(rt, goes_well(&mut slots, Call::Take(Some(slot))));
    }
    expect_eq(rt, &[slots.len(), slots.free_count()], &[300, 0]);
    for call in OF_FULL {
        expect(rt, goes_well(&mut slots, *call));
    }
}

#[test]
fn all_are_taken_over_each_width(rt: HostRuntime) {
    runs_out::<u8>(&rt);
    runs_out::<Block24>(&rt);
    runs_out::<u32>(&rt);
    runs_out::<u64>(&rt);
    runs_out::<u128>(&rt);
}
