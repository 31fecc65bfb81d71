// The summary of blocks that were written, if nothing says which of them are 0 now.
ghost use Rattle.std.specs.Prelude.{◌≡◌, ◌^◌, ◌<◌, ◌≤◌, All, [], length, vec_len, vec_capacity};
ghost use Rattle.bit_blocks.specs.Bits.{blocks_for};
ghost use Rattle.bit_words.specs.Summary.{short_count, IsStoredSummary};

use crate::summary::{is_short, summarize};
use bit_blocks::block::BitBlock;

// Makes the summary that is stored anew, in as many blocks; of few none is stored.
pub(crate) fn remake_summary<B: BitBlock>(summary: &mut Vec<B>, blocks: &[B])
    requires short { length blocks.now ≤ short_count B.width → summary.old.items ≡ [] }
    requires long { short_count B.width < length blocks.now
        → vec_len summary.old ≡ blocks_for B.width (length blocks.now) }
    requires each { All B.is_block summary.old.items }
    requires blocks { All B.is_block blocks.now }
    requires fits { length blocks.now < 2 ^ 64 }
    ensures summary { IsStoredSummary B.width B.number B.is_block blocks.now summary.new.items }
    ensures capacity { vec_capacity summary.new ≡ vec_capacity summary.old }
{
    if is_short::<B>(blocks.len()) {
        return;
    }
    summarize(summary, blocks, 0);
}
