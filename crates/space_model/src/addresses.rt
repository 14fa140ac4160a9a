//! The addresses that an entry of a journal names.

ghost use Rattle.std.specs.Prelude.{◌≡◌};

use size_classes::Addrs;
use std::marker::Model;

/// A list of addresses to which none is added any more. Contracts see the list and nothing else, so that two entries
/// which name the same addresses are the same, whatever room their lists have left.
#[derive(Debug, Drop)]
pub struct Addresses {
    list: Addrs,
}

impl Model for Addresses {
    ghost use Rattle.std.specs.Prelude.{List, ℕ};

    ghost Value = { List ℕ };

    ghost view = { λ a. a.list.items };
}

impl Addresses {
    /// The addresses of a list, in its order. Takes no memory.
    pub fn new(list: Addrs) -> Self
        ensures { result ≡ list.items }
    {
        Addresses { list }
    }

    /// The addresses, in order.
    pub fn as_slice(&self) -> &[u64]
        ensures { result.now ≡ self.now }
    {
        self.list.as_slice()
    }
}

/// Two lists are equal where their addresses are.
impl PartialEq for Addresses {
    ghost use Rattle.std.specs.Prelude.{nat_eq};
    ghost use Rattle.std.specs.Cmp.Lexicographic.{pointwise};
    ghost use Rattle.std.specs.Cmp.Rules.{comparing};

    ghost eq = { pointwise nat_eq };

    ghost laws = { Prim.search comparing };

    fn eq(&self, other: &Addresses) -> bool {
        self.as_slice() == other.as_slice()
    }
}
