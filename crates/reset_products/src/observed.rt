ghost use Rattle.std.specs.Prelude.{◌≡◌, IsTrue, IfOk};

use crate::cut::clean_cut;
use crdt_laws::{NoMemory, Ops, Tower, beyond, copy_ops, is_within, place_in};
use serde_json::Value;
use std::alloc::Global;
use std::marker::Model;
use vector_clock::{Clock, Stamp};
use weave_core::fold_plain;

/// An operation of an observed tower.
#[derive(Debug, PartialEq, Eq, Drop)]
pub enum ObservedOp<Op> {
    /// An operation of the tower.
    Do(Op),
    /// Forgets all operations that it knew of, and nothing else.
    Reset,
}

/// A state of an observed tower: what the settled operations have made, and the operations since. Contracts see it as these two.
#[derive(Drop)]
pub struct ObservedState<T: Tower> {
    /// What the operations have made that no reset can tell apart any more.
    pub base: T::State,
    /// The operations since, in canonical order: by strictly rising key, no id twice.
    pub log: Ops<T::Op>,
}

impl<T: Tower> Model for ObservedState<T> {
    ghost use Rattle.reset_products.specs.Observed.{Logged};

    ghost Value = { Logged T.State T.Op };

    ghost view = { λ s. record { base = s.base; log = s.log } };
}

/// A tower with resets that forget what they knew of. Its operations are of one level: those of the tower stand in a log until
/// they are settled, and the value is the document of the log, from the base. It shows its value. The type keeps that the tower
/// is plain.
#[derive(Drop)]
pub struct Observed<T: Tower> {
    pub part: T,
    ghost plain: { IsTrue (T.meaning part).plain },
}

impl<T: Tower> Observed<T> {
    ghost use Rattle.std.specs.Prelude.{◌≡◌, ℕ, IsTrue, IfOk};
    ghost use Rattle.crdt_laws.specs.Tower.{IsState};
    ghost use Rattle.reset_products.specs.Observed.{IsGoodLog, observed_meaning, value_of};

    /// The tower `part`, which is plain, with resets that forget what they knew of.
    pub fn of(part: T) -> Observed<T>
        requires { IsTrue (T.meaning part).plain }
        ensures { result.part ≡ part }
    {
        Observed { part }
    }

    /// The document of the log, from the base. The state is good. `NoMemory` comes where it runs out of memory.
    pub fn value(&self, alloc: Global, state: &ObservedState<T>) -> Result<T::State, NoMemory>
        requires { IsState (observed_meaning (T.meaning self.now.part)) state.now }
        ensures value { IfOk result (λ s. s ≡ value_of (T.meaning self.now.part) state.now) }
        ensures good { (n : ℕ) → IsGoodLog (T.meaning self.now.part) n state.now → IfOk result (λ s. (T.meaning self.now.part).good n s) }
    {
        let base = self.part.copy_state(alloc, &state.base)?;
        fold_plain(alloc, &self.part, base, &state.log)
    }
}

impl<T: Tower> Tower for Observed<T> {
    ghost use Rattle.reset_products.specs.Observed.{observed_meaning};
    ghost use Rattle.reset_products.specs.ObservedLaws.{observed_lawful};

    type State = ObservedState<T>;

    type Op = ObservedOp<T::Op>;

    ghost meaning = { λ t. observed_meaning (T.meaning t.part) };

    fn top(&self) -> u8 {
        1
    }

    fn level(&self, _op: &ObservedOp<T::Op>) -> u8 {
        1
    }

    fn valid(&self, stamp: &Stamp, op: &ObservedOp<T::Op>) -> bool {
        match op {
            ObservedOp::Do(x) => self.part.valid(stamp, x),
            ObservedOp::Reset => is_within(stamp),
        }
    }

    fn init(&self, alloc: Global) -> Result<ObservedState<T>, NoMemory> {
        Ok(ObservedState {
            base: self.part.init(alloc)?,
            log: Ops::new(alloc),
        })
    }

    fn apply(
        &self,
        alloc: Global,
        state: ObservedState<T>,
        stamp: &Stamp,
        op: &ObservedOp<T::Op>,
    ) -> Result<ObservedState<T>, NoMemory> {
        let ObservedState { base, log } = state;
        match op {
            ObservedOp::Do(x) => {
                let x = self.part.copy_op(alloc, x)?;
                let log = place_in(log, *stamp, x)?;
                Ok(ObservedState { base, log })
            }
            ObservedOp::Reset => {
                let base = self.part.init(alloc)?;
                let log = beyond(log, &stamp.clock);
                Ok(ObservedState { base, log })
            }
        }
    }

    fn act(
        &self,
        alloc: Global,
        _y: &ObservedOp<T::Op>,
        x: &ObservedOp<T::Op>,
    ) -> Result<ObservedOp<T::Op>, NoMemory> {
        self.copy_op(alloc, x)
    }

    fn settle(
        &self,
        alloc: Global,
        state: ObservedState<T>,
        k: &Clock,
    ) -> Result<ObservedState<T>, NoMemory> {
        let ObservedState { base, log } = state;
        let cut = clean_cut(&log, k) as usize;
        if cut == 0 {
            return Ok(ObservedState { base, log });
        }
        let Ops { mut items } = log;
        let left = items.split_off(cut)?;
        let base = fold_plain(alloc, &self.part, base, &Ops { items })?;
        Ok(ObservedState {
            base,
            log: Ops { items: left },
        })
    }

    fn copy_op(
        &self,
        alloc: Global,
        op: &ObservedOp<T::Op>,
    ) -> Result<ObservedOp<T::Op>, NoMemory> {
        match op {
            ObservedOp::Do(x) => Ok(ObservedOp::Do(self.part.copy_op(alloc, x)?)),
            ObservedOp::Reset => Ok(ObservedOp::Reset),
        }
    }

    fn same_op(&self, a: &ObservedOp<T::Op>, b: &ObservedOp<T::Op>) -> bool {
        match (a, b) {
            (ObservedOp::Do(x), ObservedOp::Do(y)) => self.part.same_op(x, y),
            (ObservedOp::Reset, ObservedOp::Reset) => true,
            _ => false,
        }
    }

    fn copy_state(
        &self,
        alloc: Global,
        state: &ObservedState<T>,
    ) -> Result<ObservedState<T>, NoMemory> {
        Ok(ObservedState {
            base: self.part.copy_state(alloc, &state.base)?,
            log: copy_ops(alloc, &self.part, state.log.as_slice())?,
        })
    }

    fn show(&self, alloc: Global, state: &ObservedState<T>) -> Result<Value, NoMemory> {
        let value = self.value(alloc, state)?;
        self.part.show(alloc, &value)
    }

    ghost lawful = { λ t. observed_lawful (T.meaning t.part) (T.lawful t.part) t.plain };
}
