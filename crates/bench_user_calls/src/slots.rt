// Slots that are taken and given back.
use bit_set::BitBlock;
use free_slots::Slots;
use std::alloc::{AllocError, Global};

// Adds up the lowest free slots that are taken after each of some slots is given back.
pub(crate) fn take_and_give_back<B: BitBlock>(
    alloc: Global,
    len: usize,
    taken: usize,
    given: &[usize],
    turns: usize,
) -> Result<usize, AllocError> {
    let mut slots = Slots::<B>::with_slots(alloc, len)?;
    for _ in 0..taken {
        let _slot = slots.take();
    }
    let mut sum = 0usize;
    for _turn in 0..turns {
        for slot in given {
            let _was_taken = slots.give_back(*slot);
            if let Some(lowest) = slots.take() {
                sum = sum.wrapping_add(lowest);
            }
        }
    }
    Ok(sum)
}

// What each turn gives of new slots, added up.
macro_rules! sum_of_turns {
    ($alloc:expr, $len:expr, $turns:expr, |$slots:ident| $number:expr) => {{
        let mut sum = 0usize;
        for _turn in 0..$turns {
            let Ok(mut $slots) = Slots::<u32>::with_slots($alloc, $len) else {
                return usize::MAX;
            };
            sum = sum.wrapping_add($number);
        }
        sum
    }};
}

#[unsafe(no_mangle)]
pub extern "C" fn bench_with_slots(alloc: Global, len: usize, turns: usize) -> usize {
    sum_of_turns!(alloc, len, turns, |slots| slots.len())
}

// Takes each slot, the lowest first, and adds them up.
fn take_each<B: BitBlock>(slots: &mut Slots<B>) -> usize {
    let mut sum = 0usize;
    for _ in 0..slots.len() {
        sum = sum.wrapping_add(slots.take().unwrap_or(0));
    }
    sum
}

#[unsafe(no_mangle)]
pub extern "C" fn bench_take_each(alloc: Global, len: usize, turns: usize) -> usize {
    sum_of_turns!(alloc, len, turns, |slots| take_each(&mut slots))
}

// Takes each slot, at or above the one past the slot before.
fn take_onward<B: BitBlock>(slots: &mut Slots<B>) -> usize {
    let mut from = 0usize;
    for _ in 0..slots.len() {
        from = match slots.take_at_or_above(from) {
            Some(slot) => slot.wrapping_add(1),
            None => 0,
        };
    }
    from
}

// Gives each slot back, the last first, and takes the lowest free one after each.
fn give_back_and_take<B: BitBlock>(slots: &mut Slots<B>) -> usize {
    let mut sum = 0usize;
    for slot in (0..slots.len()).rev() {
        let _was_taken = slots.give_back(slot);
        sum = sum.wrapping_add(slots.take().unwrap_or(0));
    }
    sum
}

#[unsafe(no_mangle)]
pub extern "C" fn bench_take_each_onward(alloc: Global, len: usize, turns: usize) -> usize {
    sum_of_turns!(alloc, len, turns, |slots| {
        let from = take_onward(&mut slots);
        from.wrapping_add(give_back_and_take(&mut slots))
    })
}
