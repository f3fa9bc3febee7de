ghost use Rattle.std.specs.Prelude.{◌≡◌, ◌||◌, false, not, IfOk, OnOk};
ghost use Rattle.vector_clock.specs.declared.clock.Id.{Id};
ghost use Rattle.wire_core.specs.Ids.{has, is_id};

use crdt_laws::NoMemory;
use std::alloc::Global;
use std::collections::BTreeSet;
use vector_clock::Id;

/// Ids of operations, each once.
#[derive(Drop)]
pub struct Ids {
    pub ids: BTreeSet<Id>,
}

impl Ids {
    /// No ids.
    pub fn new(alloc: Global) -> Ids
        ensures { (i : Id) → has result.ids i ≡ false }
    {
        Ids {
            ids: BTreeSet::new(alloc),
        }
    }

    /// Adds the id, and answers whether it was not there before.
    pub fn add(&mut self, id: Id) -> Result<bool, NoMemory>
        ensures new { IfOk result (λ new. new ≡ not (has self.old.ids id)) }
        ensures added { OnOk result ((i : Id) → has self.new.ids i ≡ (has self.old.ids i || is_id id i)) }
    {
        Ok(self.ids.insert(id)?)
    }
}
