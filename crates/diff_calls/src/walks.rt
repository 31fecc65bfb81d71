// Walks that are taken some steps, copied and counted.
use crate::answers::Answers;
use crate::block_walks::is_front;
use crate::calls::Walking;
use bit_set::bit_vec::operation::Operation;
use bit_set::{BitBlock, BitSet, Intersection, Iter, Missing, TwoSets};

// A walk that can be copied and counted at any point.
trait Walk: Iterator<Item = usize> {
    fn copy(&self) -> Self;

    fn count_left(self) -> usize;

    ghost can: { (s : Self) → Self.can_next s };
}

impl<B: BitBlock> Walk for Iter<'_, B> {
    fn copy(&self) -> Self {
        self.clone()
    }

    fn count_left(self) -> usize {
        self.count()
    }

    ghost can = { λ s. tt };
}

impl<B: BitBlock> Walk for Missing<'_, B> {
    fn copy(&self) -> Self {
        self.clone()
    }

    fn count_left(self) -> usize {
        self.count()
    }

    ghost can = { λ s. tt };
}

impl<B: BitBlock> Walk for Intersection<'_, B> {
    fn copy(&self) -> Self {
        self.clone()
    }

    fn count_left(self) -> usize {
        self.count()
    }

    ghost can = { λ s. tt };
}

impl<B: BitBlock, O: Operation> Walk for TwoSets<'_, B, O> {
    fn copy(&self) -> Self {
        self.clone()
    }

    fn count_left(self) -> usize {
        self.count()
    }

    ghost can = { λ s. tt };
}

// This many steps, and before each of them the bounds on what is left.
fn take_steps<W: Walk>(walk: &mut W, steps: usize, answers: &mut Answers) {
    for _ in 0..steps {
        answers.bounds(walk.size_hint());
        answers.item(walk.next());
    }
}

// How many items are left to the walk, and to a copy that was taken before. Both go on by this many steps, and the
// copy by one more.
fn go_on<W: Walk>(walk: &mut W, copy: &mut W, further: usize, answers: &mut Answers) {
    take_steps(walk, further, answers);
    answers.number(walk.copy().count_left());
    take_steps(copy, further, answers);
    take_steps(copy, 1, answers);
}

// A walk over this many steps, and on; a copy that was taken between; and how many items are left to each.
fn take<W: Walk>(mut walk: W, steps: usize, further: usize, answers: &mut Answers) {
    take_steps(&mut walk, steps, answers);
    let mut copy = walk.copy();
    go_on(&mut walk, &mut copy, further, answers);
    answers.number(copy.count_left());
    take_steps(&mut walk, 1, answers);
    answers.number(walk.count_left());
}

// The next item, at one of the ends.
fn next_at<B: BitBlock>(walk: &mut Iter<'_, B>, is_front: bool) -> Option<usize> {
    if is_front {
        walk.next()
    } else {
        walk.next_back()
    }
}

// This many steps at the ends that the digits of a number say, with the bounds on what is left before each of them;
// and how many items are left then.
fn take_ends<B: BitBlock>(mut walk: Iter<'_, B>, steps: usize, ends: usize, answers: &mut Answers) {
    for step in 0..steps {
        answers.bounds(walk.size_hint());
        answers.item(next_at(&mut walk, is_front(ends, step)));
    }
    answers.number(walk.count());
}

// The walk over a range from both ends, and the elements at these.
fn take_range<B: BitBlock>(set: &BitSet<B>, start: usize, end: usize, answers: &mut Answers) {
    let walk = set.range(start..end);
    answers.item(walk.clone().min());
    answers.item(walk.clone().max());
    answers.item(walk.clone().last());
    take_ends(walk, end % 64, start, answers);
}

// The item after this many, the next one, and the one after this many again; and how many are left then.
fn pass_over<B: BitBlock>(
    mut walk: Iter<'_, B>,
    passed: usize,
    further: usize,
    answers: &mut Answers,
) {
    answers.item(walk.nth(passed));
    answers.item(walk.next());
    answers.item(walk.nth(further));
    answers.number(walk.count());
}

// The bounds on the number of runs, and the start and the end of each.
fn loop_over_runs<B: BitBlock>(set: &BitSet<B>, start: usize, end: usize, answers: &mut Answers) {
    let walk = set.runs(start..end);
    answers.bounds(walk.size_hint());
    for run in walk {
        answers.number(run.start);
        answers.number(run.end);
    }
}

// All elements in a loop.
fn loop_over<B: BitBlock>(set: &BitSet<B>, answers: &mut Answers) {
    for element in set {
        answers.number(element);
    }
}

pub(crate) fn walk_over<B: BitBlock>(
    walking: Walking,
    set: &BitSet<B>,
    other: &BitSet<B>,
    (first, second): (usize, usize),
    answers: &mut Answers,
) {
    match walking {
        Walking::Iter => take(set.iter(), first, second, answers),
        Walking::IntoIter => loop_over(set, answers),
        Walking::IterFrom => take(set.iter_from(first), second, second, answers),
        Walking::IterEnds => take_ends(set.iter(), first, second, answers),
        Walking::Range => take_range(set, first, second, answers),
        Walking::Nth => pass_over(set.iter(), first, second, answers),
        Walking::Missing => take(set.missing(first..second), second % 64, first % 64, answers),
        Walking::Runs => loop_over_runs(set, first, second, answers),
        Walking::Union => take(set.union(other), first, second, answers),
        Walking::Intersection => take(set.intersection(other), first, second, answers),
        Walking::Difference => take(set.difference(other), first, second, answers),
        Walking::SymmetricDifference => {
            take(set.symmetric_difference(other), first, second, answers);
        }
    }
}
