//! The names that a shelf was asked for, which only clauses read.

ghost use Rattle.std.specs.Prelude.{◌≡◌, ℕ, List, [], ◌∷◌, ◌++◌};
ghost use Rattle.std.specs.Borrow.{ftrue};

use std::marker::{Model, PhantomData};

/// A list of names, the first one first. It takes no memory, and its calls do nothing at run time.
#[derive(Drop)]
pub struct Names {
    mark: PhantomData<u8>,
    pub ghost names: { List (List ℕ) },
}

impl Model for Names {
    ghost also_owns = { λ _. ftrue };
}

impl Names {
    /// No name.
    pub(crate) fn none() -> Names
        ensures { result.names ≡ [] }
    {
        Names { mark: PhantomData }
    }

    /// Puts a name behind the others.
    pub(crate) fn add(&mut self, _name: &[u8])
        ensures { self.new.names ≡ self.old.names ++ _name.now ∷ [] }
    {}
}
