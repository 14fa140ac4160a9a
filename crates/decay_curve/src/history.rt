//! A list of additions that only contracts see.

ghost use Rattle.std.specs.Prelude.{◌≡◌, List, [], ◌∷◌, ◌++◌};
ghost use Rattle.std.specs.Borrow.{ftrue};
ghost use Rattle.space_model.specs.declared.spaces.Added.{Added};

use space_model::Added;
use std::marker::Model;

// All additions that there were. It has no bytes, and its functions do nothing at run time.
#[derive(Drop)]
pub(crate) struct History {
    pub ghost added: { List Added },
}

impl Model for History {
    ghost also_owns = { λ _. ftrue };
}

impl History {
    pub(crate) fn none() -> History
        ensures { result.added ≡ [] }
    {
        History {}
    }

    pub(crate) fn and(&self, _added: &Added) -> History
        ensures { result.added ≡ self.now.added ++ _added.now ∷ [] }
    {
        History {}
    }
}
