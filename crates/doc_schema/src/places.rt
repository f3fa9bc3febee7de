ghost use Rattle.std.specs.Prelude.{◌≡◌, ◌≢◌, ◌↔◌, [], ◌∷◌, ◌++◌, IfNone, IfSome, IsSome, OnOk, length, slice_get};
ghost use Rattle.std.specs.List.{Contains};

use crdt_laws::{NoMemory, Txt};
use indexmap::IndexSet;
use std::alloc::Global;
use std::marker::Model;

/// Names in the order in which they came, each once, seen by contracts as their list. One is looked up without a walk over them.
#[derive(Drop)]
pub struct Places {
    names: IndexSet<Vec<u8>>,
}

impl Model for Places {
    ghost use Rattle.std.specs.Prelude.{List, ℕ, map};

    ghost Value = { List (List ℕ) };

    ghost view = { λ p. map (λ v. v.items) p.names.keys };
}

impl Places {
    /// No names.
    pub fn new(alloc: Global) -> Places
        ensures { result ≡ [] }
    {
        Places {
            names: IndexSet::new(alloc),
        }
    }

    /// How many names there are.
    pub fn len(&self) -> usize
        ensures { result ≡ length self.now }
    {
        self.names.len()
    }

    /// The place of a name, counted from 0.
    pub fn place_of(&self, name: &[u8]) -> Option<usize>
        ensures found { IfSome result (λ at. slice_get self.now at ≡ Some name.now) }
        ensures absent { IfNone result (¬ Contains self.now name.now) }
        ensures there { IsSome result ↔ Contains self.now name.now }
    {
        self.names.get_index_of(name)
    }

    /// Puts a name last that is not there yet.
    pub fn add(&mut self, alloc: Global, name: &Txt) -> Result<(), NoMemory>
        requires { ¬ Contains self.old name.now }
        ensures { OnOk result (self.new ≡ self.old ++ name.now ∷ []) }
    {
        self.names.insert(Vec::from_slice(alloc, &name.items)?)?;
        Ok(())
    }
}
