// A line of a script: six words, of which the last says how many more belong to it.
use crate::calls::Call;

#[derive(Clone, Copy)]
pub(crate) struct Line<'a> {
    pub(crate) call: Call,
    // The names of two sets: the one that is called, and the other one of the call.
    pub(crate) set: usize,
    pub(crate) other: usize,
    // Two numbers: a place, an element, a length, a number of steps, or 0 or 1 for a truth value.
    pub(crate) first: usize,
    pub(crate) second: usize,
    // Elements or bytes.
    pub(crate) numbers: &'a [usize],
}

impl<'a> Line<'a> {
    // The first line of a script, and what follows it.
    pub(crate) fn first_of(script: &'a [usize]) -> Option<(Line<'a>, &'a [usize])> {
        let [call, set, other, first, second, count, rest @ ..] = script else {
            return None;
        };
        let (numbers, after) = rest.split_at_checked(*count)?;
        let line = Line {
            call: Call::numbered(*call)?,
            set: *set,
            other: *other,
            first: *first,
            second: *second,
            numbers,
        };
        Some((line, after))
    }
}
