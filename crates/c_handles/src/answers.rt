// What C receives for the outcome of a call.
ghost use Rattle.std.specs.Prelude.{◌≡◌};
ghost use Rattle.c_handles.specs.Answers.{changed, order_answer, spelled};

use std::alloc::AllocError;
use std::cmp::Ordering;

/// The number for a call that may change a set: 1 if it did, 0 if not, -1 if memory ran out.
pub fn answer_of_change(outcome: Result<bool, AllocError>) -> i32
    ensures outcome { changed result ≡ outcome }
    ensures exact { result ≡ spelled (changed result) }
{
    match outcome {
        Ok(true) => 1,
        Ok(false) => 0,
        Err(_) => -1,
    }
}

/// The number for an order: -1 for less, 0 for equal, 1 for greater.
pub fn answer_of_order(order: Ordering) -> i32
    ensures { result ≡ order_answer order }
{
    match order {
        Ordering::Less => -1,
        Ordering::Equal => 0,
        Ordering::Greater => 1,
    }
}
