// The names of the sixteen sets. The sets are in `table`.
ghost use Rattle.std.specs.Prelude.{◌≡◌, ℕ, ◌+◌, ◌<◌, ◌≤◌, ◌↔◌, IsSome, IfSome};

use std::marker::Model;

/// The name of one of the sixteen sets of a table: a letter from `a` to `p`.
///
/// A contract sees it as the place of the set: 0 for `a`, 15 for `p`.
#[derive(Clone, Copy, Debug, PartialEq, Eq)]
pub struct SetName {
    place: u8,
}

impl Model for SetName {
    ghost Value = { ℕ };

    ghost view = { λ name. name.place };

    ghost invariant = { λ name. name.place < 16 };

    ghost inverse = { λ place. record { place = place } };
}

impl SetName {
    /// The set that a letter names: `a` is the first, `p` the last, and no other byte names a set.
    #[inline]
    pub fn from_letter(letter: u8) -> Option<Self>
        ensures named { IsSome result ↔ (97 ≤ letter × letter ≤ 112) }
        ensures place { IfSome result (λ name. name + 97 ≡ letter) }
    {
        match letter {
            b'a'..=b'p' => Some(SetName {
                place: letter - b'a',
            }),
            _ => None,
        }
    }

    /// The place of the set in a table, 0 for `a`. Constant time.
    #[inline]
    pub fn place(self) -> usize
        ensures place { result ≡ self }
        ensures within { result < 16 }
    {
        usize::from(self.place)
    }
}
