// Writing blocks and a length as a value.
ghost use Rattle.std.specs.Prelude.{◌≡◌, All, IfOk, codes, map};
ghost use Rattle.serde_json.specs.{Data.{array, member, no_members, number, object, unsigned}, View.{items_view, view}};
ghost use Rattle.bit_set.specs.Entries.{AreNumbers};

use super::JsonBlock;
use serde_json::{Value, json};
use std::alloc::{AllocError, Global};

// The numbers of the blocks.
pub(super) fn numbers<B: JsonBlock>(alloc: Global, blocks: &[B]) -> Result<Vec<Value>, AllocError>
    requires { All B.is_block blocks.now }
    ensures { IfOk result (λ entries. AreNumbers (map B.number blocks.now) entries.items) }
{
    let mut entries = Vec::with_capacity(alloc, blocks.len())?;
    for block in blocks {
        entries.push(Value::from(block.to_number()))?;
    }
    Ok(entries)
}

// The inner object with its two members.
pub(super) fn form(alloc: Global, storage: Vec<Value>, nbits: usize) -> Result<Value, AllocError>
    ensures { IfOk result (λ value. view value ≡ object (member (codes "bit_vec")
        (object (member (codes "nbits") (number (unsigned nbits))
        (member (codes "storage") (array (items_view storage.items)) no_members))) no_members)) }
{
    json!(in alloc; {"bit_vec": {"storage": storage, "nbits": nbits}})
}
