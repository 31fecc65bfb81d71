// The types of blocks that scripts run over.
use crate::answers::Answers;
use crate::calls::Making;
use crate::making::{made, made_plain};
use bit_set::{BitBlock, BitSet, JsonBlock, JsonError, SetError};
use serde_json::Value;
use std::alloc::{AllocError, Global};

// What differs between the types of blocks: the calls that are at `u32` alone, the numbers of blocks, and the JSON
// form, which `u128` lacks.
pub(crate) trait Width: BitBlock {
    // A set by a call that is at `u32` alone, or by the one for any type.
    fn made(
        alloc: Global,
        making: Making,
        value: (usize, bool),
        bytes: &[u8],
    ) -> Result<BitSet<Self>, SetError> {
        made(alloc, making, value, bytes)
    }

    // The lowest 64 bits of the number, and those above.
    fn halves(self) -> (usize, usize);

    // The JSON form of a set, and what is read back from it.
    fn through_json(alloc: Global, set: &BitSet<Self>, answers: &mut Answers);
}

// What is returned where a value gives no set.
const FAULT: usize = 9;

// What is read from a value, and whether that is the set.
fn read_back<B: JsonBlock>(alloc: Global, set: &BitSet<B>, value: &Value, answers: &mut Answers) {
    match BitSet::<B>::from_json(alloc, value) {
        Ok(back) => {
            answers.truth(back == *set);
            answers.number(back.get_ref().len());
        }
        Err(JsonError::Memory(_)) => answers.refuse(),
        Err(_) => answers.number(FAULT),
    }
}

fn read_text<B: JsonBlock>(alloc: Global, set: &BitSet<B>, text: &str, answers: &mut Answers) {
    answers.bytes(text.as_bytes());
    match Value::from_str(alloc, text) {
        Ok(value) => read_back(alloc, set, &value, answers),
        Err(_) => answers.number(FAULT),
    }
}

fn text_of<B: JsonBlock>(alloc: Global, set: &BitSet<B>) -> Result<String, AllocError> {
    Ok(set.to_json(alloc)?.to_string(alloc)?)
}

fn there_and_back<B: JsonBlock>(alloc: Global, set: &BitSet<B>, answers: &mut Answers) {
    match text_of(alloc, set) {
        Ok(text) => read_text(alloc, set, &text, answers),
        Err(_) => answers.refuse(),
    }
}

impl Width for u8 {
    fn halves(self) -> (usize, usize) {
        (usize::from(self), 0)
    }

    fn through_json(alloc: Global, set: &BitSet<u8>, answers: &mut Answers) {
        there_and_back(alloc, set, answers);
    }
}

impl Width for u16 {
    fn halves(self) -> (usize, usize) {
        (usize::from(self), 0)
    }

    fn through_json(alloc: Global, set: &BitSet<u16>, answers: &mut Answers) {
        there_and_back(alloc, set, answers);
    }
}

impl Width for u32 {
    fn made(
        alloc: Global,
        making: Making,
        value: (usize, bool),
        bytes: &[u8],
    ) -> Result<BitSet<u32>, SetError> {
        made_plain(alloc, making, value, bytes)
    }

    fn halves(self) -> (usize, usize) {
        (self as usize, 0)
    }

    fn through_json(alloc: Global, set: &BitSet<u32>, answers: &mut Answers) {
        there_and_back(alloc, set, answers);
    }
}

impl Width for u64 {
    fn halves(self) -> (usize, usize) {
        (self as usize, 0)
    }

    fn through_json(alloc: Global, set: &BitSet<u64>, answers: &mut Answers) {
        there_and_back(alloc, set, answers);
    }
}

impl Width for usize {
    fn halves(self) -> (usize, usize) {
        (self, 0)
    }

    fn through_json(alloc: Global, set: &BitSet<usize>, answers: &mut Answers) {
        there_and_back(alloc, set, answers);
    }
}

impl Width for u128 {
    fn halves(self) -> (usize, usize) {
        let low = self & 0xffff_ffff_ffff_ffff;
        (low as usize, (self >> 64) as usize)
    }

    // Blocks of this type have no JSON form.
    fn through_json(_alloc: Global, _set: &BitSet<u128>, _answers: &mut Answers) {}
}
