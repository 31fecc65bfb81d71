// What the calls of a script return, as words.
use bit_set::SetError;
use std::alloc::{AllocError, Global};
use std::cmp::Ordering;

// What represents a refused element, for a refused length and for no upper bound.
const ELEMENT: usize = 2;

const LENGTH: usize = 3;

const NO_BOUND: usize = usize::MAX;

// What a call returns that cannot fail.
#[derive(Clone, Copy)]
pub(crate) enum Answer {
    Number(usize),
    Truth(bool),
    Item(Option<usize>),
    Bit(Option<bool>),
}

// Words, until memory is refused to them or to a call. The script ends then, so no call has a path of its own for that.
#[derive(Drop)]
pub(crate) struct Answers {
    words: Vec<usize>,
    is_refused: bool,
}

impl Answers {
    pub(crate) fn new(alloc: Global) -> Self {
        Answers {
            words: Vec::new(alloc),
            is_refused: false,
        }
    }

    pub(crate) fn words(&self) -> &[usize] {
        &self.words
    }

    // Whether memory was refused.
    pub(crate) fn is_refused(&self) -> bool {
        self.is_refused
    }

    pub(crate) fn refuse(&mut self) {
        self.is_refused = true;
    }

    pub(crate) fn number(&mut self, number: usize) {
        if self.words.push(number).is_err() {
            self.is_refused = true;
        }
    }

    pub(crate) fn truth(&mut self, truth: bool) {
        self.number(usize::from(truth));
    }

    // 0 for none, else one more than the number, which is below the greatest.
    pub(crate) fn item(&mut self, item: Option<usize>) {
        match item {
            Some(item) => self.number(item.wrapping_add(1)),
            None => self.number(0),
        }
    }

    // 0 for none, else one more than the truth value.
    pub(crate) fn bit(&mut self, bit: Option<bool>) {
        match bit {
            Some(bit) => self.number(1 + usize::from(bit)),
            None => self.number(0),
        }
    }

    pub(crate) fn answer(&mut self, answer: Answer) {
        match answer {
            Answer::Number(number) => self.number(number),
            Answer::Truth(truth) => self.truth(truth),
            Answer::Item(item) => self.item(item),
            Answer::Bit(bit) => self.bit(bit),
        }
    }

    pub(crate) fn bounds(&mut self, bounds: (usize, Option<usize>)) {
        self.number(bounds.0);
        self.number(bounds.1.unwrap_or(NO_BOUND));
    }

    pub(crate) fn order(&mut self, order: Ordering) {
        self.number(match order {
            Ordering::Less => 0,
            Ordering::Equal => 1,
            Ordering::Greater => 2,
        });
    }

    // How many bytes there are, and these.
    pub(crate) fn bytes(&mut self, bytes: &[u8]) {
        self.number(bytes.len());
        for byte in bytes {
            self.number(usize::from(*byte));
        }
    }

    // The length of the text, and its bytes.
    pub(crate) fn text(&mut self, text: Result<String, AllocError>) {
        match text {
            Ok(text) => self.bytes(text.as_bytes()),
            Err(_) => self.refuse(),
        }
    }

    // The same of what is made as bytes.
    pub(crate) fn made_bytes(&mut self, bytes: Result<Vec<u8>, AllocError>) {
        match bytes {
            Ok(bytes) => self.bytes(&bytes),
            Err(_) => self.refuse(),
        }
    }

    // How a call ended that fails for memory alone, and of which nothing else is said.
    pub(crate) fn ended(&mut self, ended: Result<(), AllocError>) {
        if ended.is_err() {
            self.refuse();
        }
    }

    // Likewise, where it is said that the call is done.
    pub(crate) fn done(&mut self, ended: Result<(), AllocError>) {
        match ended {
            Ok(()) => self.truth(true),
            Err(_) => self.refuse(),
        }
    }

    // What a call returned that says whether it changed anything, and fails for memory alone.
    pub(crate) fn told(&mut self, told: Result<bool, AllocError>) {
        match told {
            Ok(changed) => self.truth(changed),
            Err(_) => self.refuse(),
        }
    }

    // Why a call failed.
    pub(crate) fn fault(&mut self, fault: SetError) {
        match fault {
            SetError::Element => self.number(ELEMENT),
            SetError::Length => self.number(LENGTH),
            SetError::Memory(_) => self.refuse(),
        }
    }

    // How a call ended that returns nothing else.
    pub(crate) fn outcome(&mut self, ended: Result<(), SetError>) {
        match ended {
            Ok(()) => self.truth(true),
            Err(fault) => self.fault(fault),
        }
    }

    // What a call returned that says whether it changed anything.
    pub(crate) fn change(&mut self, ended: Result<bool, SetError>) {
        match ended {
            Ok(changed) => self.truth(changed),
            Err(fault) => self.fault(fault),
        }
    }
}
