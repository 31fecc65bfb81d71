// Calls of the JSON form, which not every type of blocks has.
use crate::asks::Ask;
use crate::faults::Fault;
use crate::states::{LENT, LENT_ELEMENTS, is_state, set_of, works};
use crate::sweep::{Row, Trial, table};
use bit_set::{BitSet, JsonBlock, JsonError};
use serde_json::Value;
use std::alloc::Global;

/// What is done with a value.
pub enum Form {
    // Reads that of the set that is lent to calls.
    Read,
    // Reads one out of form, which has this fault. All tests of it come before memory is asked for.
    ReadFaulty(&'static str, JsonError),
    // Makes that of the set.
    Write,
}

// What `to_json` may ask for: an entry for each block, of four words, and the two objects with the names of their three
// members.
const WRITE: &[Ask] = &[Ask::Entries(5001, 32), Ask::Other(5, 2048)];

const SHAPE: &str = "{\"bit_vec\": {\"storage\": [1, 1, 1], \"nbits\": 3, \"more\": 1}}";

const NUMBER: &str = "{\"bit_vec\": {\"storage\": [1, 1, true], \"nbits\": 3}}";

const BLOCKS: &str = "{\"bit_vec\": {\"storage\": [1, 1, 1], \"nbits\": 18446744073709551615}}";

const UNCLEAN: &str = "{\"bit_vec\": {\"storage\": [2], \"nbits\": 1}}";

pub const ROWS: &[Row<Form>] = table! {
    "from_json", &[Ask::Exact(5001)], Form::Read;
    "json_shape", &[], Form::ReadFaulty(SHAPE, JsonError::Shape);
    "json_number", &[], Form::ReadFaulty(NUMBER, JsonError::Number);
    "json_blocks", &[], Form::ReadFaulty(BLOCKS, JsonError::Blocks);
    "json_unclean", &[], Form::ReadFaulty(UNCLEAN, JsonError::Unclean);
    "to_json", WRITE, Form::Write;
};

/// The set that is lent to calls, and a value.
#[derive(Drop)]
pub struct Forms<B: JsonBlock> {
    set: BitSet<B>,
    value: Value,
}

fn parsed(alloc: Global, text: &str) -> Result<Value, Fault> {
    match Value::from_str(alloc, text) {
        Ok(value) => Ok(value),
        Err(_) => Err(Fault::Other),
    }
}

fn value_of<B: JsonBlock>(alloc: Global, form: &Form, set: &BitSet<B>) -> Result<Value, Fault> {
    match form {
        Form::Read => Ok(set.to_json(alloc)?),
        Form::ReadFaulty(text, _) => parsed(alloc, text),
        Form::Write => Ok(Value::Null),
    }
}

// Whether the value has this fault, or none and is read as the set that is lent to calls.
fn is_read<B: JsonBlock>(
    alloc: Global,
    value: &Value,
    wanted: Option<JsonError>,
) -> Result<bool, Fault> {
    match BitSet::<B>::from_json(alloc, value) {
        Ok(mut set) => Ok(wanted.is_none() & is_state(&set, LENT) & works(&mut set)),
        Err(fault) if wanted == Some(fault) => Ok(true),
        Err(fault) => Err(Fault::from(fault)),
    }
}

impl<B: JsonBlock> Trial<Form> for Forms<B> {
    fn prepare(alloc: Global, form: &Form) -> Result<Self, Fault> {
        let set = set_of(alloc, LENT_ELEMENTS)?;
        let value = value_of(alloc, form, &set)?;
        Ok(Forms { set, value })
    }

    fn make(&mut self, alloc: Global, form: &Form) -> Result<bool, Fault> {
        match form {
            Form::Read => is_read::<B>(alloc, &self.value, None),
            Form::ReadFaulty(_, fault) => is_read::<B>(alloc, &self.value, Some(*fault)),
            Form::Write => {
                self.value = self.set.to_json(alloc)?;
                Ok(true)
            }
        }
    }

    // A further call reads the value, or what was made.
    fn is_right(&mut self, alloc: Global, form: &Form, has_returned: bool) -> Result<bool, Fault> {
        let is_kept = is_state(&self.set, LENT) & works(&mut self.set);
        let is_right = match form {
            Form::Write if has_returned => is_read::<B>(alloc, &self.value, None)?,
            Form::Write => self.value.is_null(),
            _ => self.make(alloc, form)?,
        };
        Ok(is_kept & is_right)
    }
}
