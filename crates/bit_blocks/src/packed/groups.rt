// Groups of blocks that a loop takes at once.
ghost use Rattle.std.specs.Prelude.{◌≡◌, ◌+◌, ◌≤◌, drop, length, take};

/// How many blocks a loop takes at once, so that the compiler makes vector code of it; fewer are taken one by one.
/// In a loop that stops at the block that decides, a short group wastes few reads.
pub const GROUP: usize = 8;

/// Used where a block of the summary is computed from the groups, usually one or two of them, and where two lists
/// are compared, usually to their end.
pub const LONG_GROUP: usize = 32;

// Fewer blocks than this are written one by one: a `memset` or a `memcpy` of them is not worth its call. The summary of
// a short list has so few.
pub(crate) const BULK_WRITE: usize = 5;

/// The group of the blocks that begins at `start`.
#[inline]
pub fn group_from<B>(blocks: &[B], start: usize) -> &[B]
    requires { start + GROUP ≤ length blocks.now }
    ensures part { result.now ≡ take GROUP (drop start blocks.now) }
    ensures len { length result.now ≡ GROUP }
{
    blocks.split_at(start).1.split_at(GROUP).0
}
