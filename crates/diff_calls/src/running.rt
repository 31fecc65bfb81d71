// A script, from its words to the words that its calls return.
use crate::answers::Answers;
use crate::bits::{fuse_bits, lengthen, merge_and_tell, merge_blocks, write, write_range};
use crate::blocks::storage;
use crate::calls::{Call, Fusing};
use crate::changing::{change, combine, combine_and_tell, lessen, move_over};
use crate::lines::Line;
use crate::looking::{look, read_bits, tell_bits};
use crate::making::{bytes_of, gathered, made};
use crate::matrices::run_matrices;
use crate::reading::{read, tell};
use crate::walks::walk_over;
use crate::widths::Width;
use bit_set::bit_vec::BitVec;
use bit_set::{BitSet, SetError};
use std::alloc::Global;
use std::mem;

// Four sets: a word names one by what is left of it after a division by 4.
#[derive(Drop)]
struct Sets<B: Width> {
    sets: [BitSet<B>; 4],
}

// Calls on the bit vector that a set lends, beside that of another one.
fn write_to<B: Width>(
    line: &Line<'_>,
    bits: &mut BitVec<B>,
    other: &BitVec<B>,
    answers: &mut Answers,
) {
    let (first, second) = (line.first, line.second);
    match line.call {
        Call::Write(writing) => write(writing, bits, other, (first, second == 1), answers),
        Call::Lengthen(lengthening) => {
            answers.ended(lengthen(lengthening, bits, first, second == 1));
        }
        Call::WriteRange(ranged) => write_range(ranged, bits, first, second),
        Call::MergeBlocks(merge) => merge_blocks(merge, bits, other),
        Call::MergeAndTell(merge) => merge_and_tell(merge, bits, other, answers),
        _ => {}
    }
}

// Those of them that read it.
fn look_at<B: Width>(
    alloc: Global,
    line: &Line<'_>,
    bits: &BitVec<B>,
    other: &BitVec<B>,
    answers: &mut Answers,
) {
    let (first, second) = (line.first, line.second);
    match line.call {
        Call::ReadBits(reading) => {
            answers.answer(read_bits(reading, bits, other, (first, second)));
        }
        Call::TellBits(telling) => tell_bits(alloc, telling, bits, answers),
        Call::Look(looking) => look(looking, bits, other, (first, second), answers),
        _ => {}
    }
}

// Calls that may change the first set, or the second.
fn change_by<B: Width>(
    alloc: Global,
    line: &Line<'_>,
    set: &mut BitSet<B>,
    other: &mut BitSet<B>,
    answers: &mut Answers,
) {
    let (first, second) = (line.first, line.second);
    match line.call {
        Call::Change(changing) => change(changing, set, (first, second), line.numbers, answers),
        Call::Lessen(lessening) => {
            lessen(lessening, set, first, second);
            answers.truth(true);
        }
        Call::Combine(merge) => answers.ended(combine(merge, set, other)),
        Call::CombineAndTell(merge) => answers.told(combine_and_tell(merge, set, other)),
        Call::Move(moving) => move_over(alloc, moving, (set, other), (first, second), answers),
        Call::ReadBits(_) | Call::TellBits(_) | Call::Look(_) => {
            look_at(alloc, line, set.get_mut(), other.get_ref(), answers);
        }
        _ => write_to(line, set.get_mut(), other.get_ref(), answers),
    }
}

impl<B: Width> Sets<B> {
    fn new(alloc: Global) -> Self {
        Sets {
            sets: [
                BitSet::new_general(alloc),
                BitSet::new_general(alloc),
                BitSet::new_general(alloc),
                BitSet::new_general(alloc),
            ],
        }
    }

    fn named(&self, name: usize) -> &BitSet<B> {
        &self.sets[name % 4]
    }

    fn named_mut(&mut self, name: usize) -> &mut BitSet<B> {
        &mut self.sets[name % 4]
    }

    // Puts a set that was made in the place of one.
    fn put(&mut self, name: usize, made: Result<BitSet<B>, SetError>, answers: &mut Answers) {
        match made {
            Ok(set) => {
                *self.named_mut(name) = set;
                answers.truth(true);
            }
            Err(fault) => answers.fault(fault),
        }
    }

    // Calls that make a set.
    fn make(&mut self, alloc: Global, line: &Line<'_>, bytes: &[u8], answers: &mut Answers) {
        let value = (line.first, line.second == 1);
        let made = match line.call {
            Call::Make(making) => B::made(alloc, making, value, bytes),
            Call::MakeGeneral(making) => made(alloc, making, value, bytes),
            Call::Gather(gathering) => gathered(alloc, gathering, &self.sets, line.numbers),
            _ => return,
        };
        self.put(line.set, made, answers);
    }

    // The same, with the bytes of a line.
    fn make_of_bytes(&mut self, alloc: Global, line: &Line<'_>, answers: &mut Answers) {
        match bytes_of(alloc, line.numbers) {
            Ok(bytes) => self.make(alloc, line, &bytes, answers),
            Err(_) => answers.refuse(),
        }
    }

    // Calls that change nothing.
    fn read(&self, alloc: Global, line: &Line<'_>, answers: &mut Answers) {
        let (set, other) = (self.named(line.set), self.named(line.other));
        let (first, second) = (line.first, line.second);
        match line.call {
            Call::Read(reading) => answers.answer(read(reading, set, other, (first, second))),
            Call::Tell(telling) => tell(alloc, telling, set, other, answers),
            Call::Walk(walking) => walk_over(walking, set, other, (first, second), answers),
            _ => {}
        }
    }

    // Makes a call that may change the first set. One by a set itself is left out.
    fn change(&mut self, alloc: Global, line: &Line<'_>, answers: &mut Answers) {
        if line.set % 4 == line.other % 4 {
            return;
        }
        let mut set = mem::replace(self.named_mut(line.set), BitSet::new_general(alloc));
        change_by(alloc, line, &mut set, self.named_mut(line.other), answers);
        *self.named_mut(line.set) = set;
    }

    // Makes a set that was taken out of its place what it, the second and the third give.
    fn fuse_into(&self, line: &Line<'_>, set: &mut BitSet<B>, answers: &mut Answers) {
        let (other, third) = (self.named(line.other), self.named(line.first));
        match line.call {
            Call::FuseBits(fusing) => {
                fuse_bits(
                    fusing,
                    set.get_mut(),
                    other.get_ref(),
                    third.get_ref(),
                    answers,
                );
            }
            Call::Fuse(Fusing::UnionWithIntersection) => {
                answers.told(set.union_with_intersection(other, third));
            }
            Call::Fuse(Fusing::CopyDifference) => answers.told(set.copy_difference(other, third)),
            _ => answers.told(set.union_with_difference(other, third)),
        }
    }

    // Makes the first set of a line what it, the second and the third give. The first is empty where it is the third.
    fn fuse(&mut self, alloc: Global, line: &Line<'_>, answers: &mut Answers) {
        if line.set % 4 == line.other % 4 {
            return;
        }
        let mut set = mem::replace(self.named_mut(line.set), BitSet::new_general(alloc));
        self.fuse_into(line, &mut set, answers);
        *self.named_mut(line.set) = set;
    }

    // Makes the call of a line.
    fn call(&mut self, alloc: Global, line: &Line<'_>, answers: &mut Answers) {
        match line.call {
            Call::Make(_) | Call::MakeGeneral(_) | Call::Gather(_) => {
                self.make_of_bytes(alloc, line, answers);
            }
            Call::Read(_) | Call::Tell(_) | Call::Walk(_) => self.read(alloc, line, answers),
            Call::Fuse(_) | Call::FuseBits(_) => self.fuse(alloc, line, answers),
            _ => self.change(alloc, line, answers),
        }
    }

    // The lengths of both sets of a line, and whether they are within the capacities.
    fn lengths(&self, line: &Line<'_>, answers: &mut Answers) {
        for name in [line.set, line.other] {
            let set = self.named(name);
            let len = set.get_ref().len();
            answers.number(len);
            answers.truth(len <= set.capacity());
        }
    }

    // The blocks of all sets.
    fn blocks(&self, answers: &mut Answers) {
        for set in &self.sets {
            storage(set.get_ref(), answers);
        }
    }

    // Makes the calls of a script, each followed by the lengths of its sets, and writes the blocks of all sets at the end.
    fn run(&mut self, alloc: Global, script: &[usize], answers: &mut Answers) {
        let mut rest = script;
        for _ in 0..script.len() {
            let Some((line, after)) = Line::first_of(rest) else {
                break;
            };
            self.call(alloc, &line, answers);
            if answers.is_refused() {
                return;
            }
            self.lengths(&line, answers);
            rest = after;
        }
        self.blocks(answers);
    }
}

fn run<B: Width>(alloc: Global, script: &[usize], answers: &mut Answers) {
    Sets::<B>::new(alloc).run(alloc, script, answers);
}

// Writes as many words as find a place, and returns how many there are.
fn written(answers: &Answers, places: &mut [usize]) -> usize {
    if answers.is_refused() {
        return usize::MAX;
    }
    for (place, word) in places.iter_mut().zip(answers.words()) {
        *place = *word;
    }
    answers.words().len()
}

/// Runs a script over blocks of this many bits, or of `usize` if that is 0. Returns how many words its calls
/// return, and writes those that fit; `usize::MAX` if memory runs out.
#[unsafe(no_mangle)]
pub extern "C" fn diff_run(
    alloc: Global,
    bits: usize,
    script: &[usize],
    places: &mut [usize],
) -> usize {
    let mut answers = Answers::new(alloc);
    match bits {
        8 => run::<u8>(alloc, script, &mut answers),
        16 => run::<u16>(alloc, script, &mut answers),
        32 => run::<u32>(alloc, script, &mut answers),
        64 => run::<u64>(alloc, script, &mut answers),
        128 => run::<u128>(alloc, script, &mut answers),
        _ => run::<usize>(alloc, script, &mut answers),
    }
    written(&answers, places)
}

/// The same for a script on matrices.
#[unsafe(no_mangle)]
pub extern "C" fn diff_run_matrices(
    alloc: Global,
    bits: usize,
    script: &[usize],
    places: &mut [usize],
) -> usize {
    let mut answers = Answers::new(alloc);
    match bits {
        8 => run_matrices::<u8>(alloc, script, &mut answers),
        32 => run_matrices::<u32>(alloc, script, &mut answers),
        64 => run_matrices::<u64>(alloc, script, &mut answers),
        _ => run_matrices::<u128>(alloc, script, &mut answers),
    }
    written(&answers, places)
}
