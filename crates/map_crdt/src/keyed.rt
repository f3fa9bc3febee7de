ghost use Rattle.std.specs.Prelude.{◌≡◌, length, IfOk, IfErr};
ghost use Rattle.std.specs.declared.cmp.Ordering.TheVariants.{Less, Greater};
ghost use Rattle.std.specs.List.{HoldsAt};
ghost use Rattle.std.specs.List.Sorted.{IsPartitionPoint, IsSearchInRange};
ghost use Rattle.map_crdt.specs.Keyed.{AreRising, byte_order};

use crate::key::{compare_keys, is_key};
use crdt_laws::{List, NoMemory, Tower, Txt};
use serde_json::{Map, Value};
use std::alloc::Global;
use std::marker::Model;
use vector_clock::{Clock, Stamp};

/// A key of a map with its state.
#[derive(Debug, Drop)]
pub struct KeyState<S> {
    pub key: Txt,
    pub state: S,
}

/// The keys that are present with their states, by strictly rising key in the order of bytes. Contracts see their list.
#[derive(Debug, Drop)]
pub struct KeyMap<S> {
    pub pairs: List<KeyState<S>>,
}

impl<S> Model for KeyMap<S> {
    ghost use Rattle.std.specs.Prelude.{List};
    ghost use Rattle.map_crdt.specs.declared.keyed.KeyState.{KeyState};

    ghost Value = { List (KeyState S) };

    ghost view = { λ m. m.pairs };
}

/// An operation on one key, of the level that it has in the tower of the states.
#[derive(Debug, Drop)]
pub struct KeyOp<Op> {
    /// 1 to 256 bytes of UTF-8.
    pub key: Txt,
    pub op: Op,
}

/// The map from keys to states of one tower. A key that is absent stands for the tower's first state, and an operation on it
/// makes it present. Operations on different keys do not act on each other. It is plain where the tower is, shows the object of
/// the keys that are present, in the order of bytes, and is never sparing, since its states are a list.
#[derive(Drop)]
pub struct Keyed<T> {
    pub part: T,
}

impl<T> Keyed<T> {
    /// The map to states of the tower `part`.
    pub fn of(part: T) -> Keyed<T>
        ensures { result.part ≡ part }
    {
        Keyed { part }
    }
}

/// The place of the key, or the one where it would go.
fn place_of<S>(pairs: &[KeyState<S>], key: &Txt) -> Result<usize, usize>
    requires { AreRising pairs.now }
    ensures within { IsSearchInRange result (length pairs.now) }
    ensures found { IfOk result (HoldsAt (λ e. e.key ≡ key.now) pairs.now) }
    ensures absent { IfErr result (IsPartitionPoint (λ e. byte_order e.key key.now ≡ Less) (λ e. byte_order e.key key.now ≡ Greater) pairs.now) }
{
    pairs.binary_search_by(|pair| compare_keys(&pair.key, key))
}

impl<T: Tower> Tower for Keyed<T> {
    ghost use Rattle.map_crdt.specs.Keyed.{keyed_meaning};
    ghost use Rattle.map_crdt.specs.KeyedLaws.{keyed_lawful};

    type State = KeyMap<T::State>;

    type Op = KeyOp<T::Op>;

    ghost meaning = { λ t. keyed_meaning (T.meaning t.part) };

    fn top(&self) -> u8 {
        self.part.top()
    }

    fn level(&self, op: &KeyOp<T::Op>) -> u8 {
        self.part.level(&op.op)
    }

    fn valid(&self, stamp: &Stamp, op: &KeyOp<T::Op>) -> bool {
        is_key(&op.key) && self.part.valid(stamp, &op.op)
    }

    fn init(&self, alloc: Global) -> Result<KeyMap<T::State>, NoMemory> {
        Ok(KeyMap {
            pairs: List::new(alloc),
        })
    }

    fn apply(
        &self,
        alloc: Global,
        state: KeyMap<T::State>,
        stamp: &Stamp,
        op: &KeyOp<T::Op>,
    ) -> Result<KeyMap<T::State>, NoMemory> {
        let KeyMap { pairs } = state;
        let List { mut items } = pairs;
        match place_of(items.as_slice(), &op.key) {
            Ok(at) => {
                // The last pair stands in for this one meanwhile, so that none behind it moves.
                let KeyState { key, state } = items.swap_remove(at);
                let state = self.part.apply(alloc, state, stamp, &op.op)?;
                let last = items.len();
                items.push(KeyState { key, state })?;
                items.swap(at, last);
            }
            Err(at) => {
                let first = self.part.init(alloc)?;
                let state = self.part.apply(alloc, first, stamp, &op.op)?;
                let key = op.key.copy(alloc)?;
                items.insert(at, KeyState { key, state })?;
            }
        }
        Ok(KeyMap {
            pairs: List { items },
        })
    }

    fn act(
        &self,
        alloc: Global,
        y: &KeyOp<T::Op>,
        x: &KeyOp<T::Op>,
    ) -> Result<KeyOp<T::Op>, NoMemory> {
        let op = if y.key == x.key {
            self.part.act(alloc, &y.op, &x.op)?
        } else {
            self.part.copy_op(alloc, &x.op)?
        };
        let key = x.key.copy(alloc)?;
        Ok(KeyOp { key, op })
    }

    fn settle(
        &self,
        alloc: Global,
        state: KeyMap<T::State>,
        k: &Clock,
    ) -> Result<KeyMap<T::State>, NoMemory> {
        let KeyMap { pairs } = state;
        let List { items } = pairs;
        let mut settled = List::new(alloc);
        for pair in items {
            let KeyState { key, state } = pair;
            let state = self.part.settle(alloc, state, k)?;
            settled.push(KeyState { key, state })?;
        }
        Ok(KeyMap { pairs: settled })
    }

    fn copy_op(&self, alloc: Global, op: &KeyOp<T::Op>) -> Result<KeyOp<T::Op>, NoMemory> {
        let key = op.key.copy(alloc)?;
        let op = self.part.copy_op(alloc, &op.op)?;
        Ok(KeyOp { key, op })
    }

    fn same_op(&self, a: &KeyOp<T::Op>, b: &KeyOp<T::Op>) -> bool {
        a.key == b.key && self.part.same_op(&a.op, &b.op)
    }

    fn copy_state(
        &self,
        alloc: Global,
        state: &KeyMap<T::State>,
    ) -> Result<KeyMap<T::State>, NoMemory> {
        let mut pairs = List::new(alloc);
        for pair in &state.pairs.items {
            let key = pair.key.copy(alloc)?;
            let state = self.part.copy_state(alloc, &pair.state)?;
            pairs.push(KeyState { key, state })?;
        }
        Ok(KeyMap { pairs })
    }

    fn show(&self, alloc: Global, state: &KeyMap<T::State>) -> Result<Value, NoMemory> {
        let mut object = Map::new(alloc);
        for pair in &state.pairs.items {
            let name = pair.key.to_string(alloc)?;
            let value = self.part.show(alloc, &pair.state)?;
            object.insert(name, value)?;
        }
        Ok(Value::Object(object))
    }

    ghost lawful = { λ t. keyed_lawful (T.meaning t.part) (T.lawful t.part) };
}
