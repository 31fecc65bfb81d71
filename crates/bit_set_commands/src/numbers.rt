// The numbers of a command or a reply, in a vector. How they are read or written is elsewhere.
ghost use Rattle.std.specs.Prelude.{◌≡◌, ℕ, List};

use std::marker::Model;

/// A list of numbers, which a contract sees as just that list.
#[derive(Debug, Drop)]
pub struct Numbers {
    items: Vec<usize>,
}

impl Model for Numbers {
    ghost Value = { List ℕ };

    ghost view = { λ numbers. numbers.items.items };
}

impl Numbers {
    /// The list that the vector holds. Takes ownership of the vector, and allocates nothing.
    #[inline]
    pub fn from_vec(items: Vec<usize>) -> Self
        ensures { result ≡ items.items }
    {
        Numbers { items }
    }

    /// The list.
    #[inline]
    pub fn as_slice(&self) -> &[usize]
        ensures { result.now ≡ self.now }
    {
        self.items.as_slice()
    }
}

impl PartialEq for Numbers {
    ghost use Rattle.std.specs.Prelude.{nat_eq};
    ghost use Rattle.std.specs.Cmp.Lexicographic.{pointwise};
    ghost use Rattle.std.specs.Cmp.{partial_equiv_from_equiv};
    ghost use Rattle.std.proofs.lemmas.Cmp.{nat_list_eq_equiv};

    ghost eq = { pointwise nat_eq };

    ghost laws = { partial_equiv_from_equiv nat_list_eq_equiv };

    fn eq(&self, other: &Self) -> bool {
        self.items == other.items
    }
}

impl Eq for Numbers {
    ghost use Rattle.std.proofs.lemmas.Cmp.{nat_list_eq_equiv};

    ghost laws = { nat_list_eq_equiv };
}
