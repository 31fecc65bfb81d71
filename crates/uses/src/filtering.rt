//! Members that pass a test.
ghost use Rattle.std.specs.Prelude.{◌≡◌, ℕ, ◌%◌, ◌==◌, ◌&&◌, ◌||◌, not, OnOk};
ghost use Rattle.bit_set.specs.Sets.{elements, has};

use bit_set::{BitBlock, BitSet, SetError};

/// Keeps the members that the other set has too.
pub fn keep_common<A: BitBlock, B: BitBlock>(set: &mut BitSet<A>, other: &BitSet<B>)
    ensures { (x : ℕ) → has (elements set.new.values) x
        ≡ (has (elements set.old.values) x && has (elements other.now.values) x) }
{
    set.retain(|x| other.contains(x));
}

/// Splits the members by a test.
pub fn part<B: BitBlock>(
    set: &BitSet<B>,
    even: &mut BitSet<B>,
    odd: &mut BitSet<B>,
) -> Result<(), SetError>
    ensures even { OnOk result ((x : ℕ) → has (elements even.new.values) x
        ≡ (has (elements even.old.values) x || (has (elements set.now.values) x && x % 2 == 0))) }
    ensures odd { OnOk result ((x : ℕ) → has (elements odd.new.values) x
        ≡ (has (elements odd.old.values) x || (has (elements set.now.values) x && not (x % 2 == 0)))) }
{
    for member in set {
        if member % 2 == 0 {
            even.insert(member)?;
        } else {
            odd.insert(member)?;
        }
    }
    Ok(())
}
