use crate::things::{Hindrance, Named, Thing};
use crdt_laws::NoMemory;
use lab_model::{FileName, Refusal};
use number_crdts::{Number, NumberOp};
use replica_core::Replica;
use std::alloc::Global;

/// Replicas and batches by name. No name stands twice.
#[derive(Drop)]
pub(crate) struct Lab {
    pub(crate) things: Vec<Named>,
}

/// A place in a lab whose thing was taken out.
#[derive(Drop)]
pub(crate) struct Gap {
    pub(crate) place: usize,
    pub(crate) name: FileName,
}

impl Lab {
    ghost use Rattle.std.specs.Prelude.{◌≡◌, ℕ, ◌≤◌, [], List, Ok, Err, IfOk, IfErr, OnOk, OnErr, length, insert, position, option_map, MatchResult};
    ghost use Rattle.std.specs.Str.{bytes_eq};
    ghost use Rattle.replica_model.specs.Family as family;
    ghost use Rattle.lab_model.specs.Lab.{thing_at, with_thing};
    ghost use Rattle.replica_cmd.specs.Things.{contents, replica_or, thing_of, IsPlaceOf};

    /// Nothing is there.
    pub(crate) fn new(alloc: Global) -> Lab
        ensures { contents result ≡ [] }
    {
        Lab {
            things: Vec::new(alloc),
        }
    }

    /// The place of a name.
    fn place_of(&self, name: &FileName) -> Option<usize>
        ensures { result ≡ position (λ n. bytes_eq name.now n.name) self.now.things.items }
    {
        self.things.iter().position(|named| name.is(&named.name))
    }

    /// The thing under a name.
    pub(crate) fn find(&self, name: &FileName) -> Option<&Thing>
        ensures { option_map (λ t. thing_of t.now) result ≡ thing_at (contents self.now) name.now }
    {
        let place = self.place_of(name)?;
        Some(&self.things[place].thing)
    }

    /// Puts a thing under a name, in the place of the one that was there.
    pub(crate) fn put(&mut self, name: FileName, thing: Thing) -> Result<(), NoMemory>
        ensures { OnOk result (contents self.new ≡ with_thing (contents self.old) name (thing_of thing)) }
    {
        match self.place_of(&name) {
            Some(place) => self.things[place] = Named { name, thing },
            None => self.things.push(Named { name, thing })?,
        }
        Ok(())
    }

    /// Takes out the replica under a name.
    pub(crate) fn take_replica(&mut self, file: FileName) -> Result<(Gap, Replica<Number>), Refusal>
        ensures found { IfOk result (λ x. replica_or file (thing_at (contents self.old) file) ≡ Ok x.1) }
        ensures name { IfOk result (λ x. x.0.name ≡ file) }
        ensures gap { IfOk result (λ x. IsPlaceOf (contents self.old) (contents self.new) x.0.place file) }
        ensures place { IfOk result (λ x. x.0.place ≤ length self.new.things.items) }
        ensures cause { IfErr result (λ e. replica_or file (thing_at (contents self.old) file) ≡ Err e) }
        ensures unchanged { OnErr result (contents self.new ≡ contents self.old) }
    {
        let Some(place) = self.place_of(&file) else {
            return Err(Refusal::Missing(file));
        };
        if let Thing::Batch(_) = &self.things[place].thing {
            return Err(Refusal::Unbuilt);
        }
        let Named { name: _, thing } = self.things.remove(place);
        match thing {
            Thing::Replica(replica) => Ok((Gap { place, name: file }, replica)),
            Thing::Batch(_) => unreachable!(),
        }
    }

    /// Puts a replica where one was taken out.
    pub(crate) fn put_back(&mut self, gap: Gap, replica: Replica<Number>) -> Result<(), NoMemory>
        requires { gap.place ≤ length self.old.things.items }
        ensures { OnOk result (contents self.new ≡ insert (contents self.old) gap.place (gap.name, family.replica replica)) }
    {
        let Gap { place, name } = gap;
        let thing = Thing::Replica(replica);
        self.things.insert(place, Named { name, thing })?;
        Ok(())
    }
}
