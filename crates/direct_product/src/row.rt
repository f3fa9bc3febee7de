ghost use Rattle.std.specs.Prelude.{◌≡◌, ◌≤◌, length};

use crate::row_parts::{
    apply_part, copy_states, init_states, settle_states, show_states, top_of_parts,
};
use crdt_laws::{List, NoMemory, Tower};
use serde_json::Value;
use std::alloc::Global;
use vector_clock::{Clock, Stamp};

/// An operation of one part of a row, of the level that it has there.
#[derive(Debug, PartialEq, Eq, Drop)]
pub struct RowOp<Op> {
    /// The place of the part, from 0. An operation of a part that is not there is not valid.
    pub part: u8,
    pub op: Op,
}

/// The direct product of 1 to 64 towers of one kind: a state of each, in their order, and the operations of all. Operations of
/// different parts do not act on each other. It is plain where every part is, shows an array of the parts, and is never sparing,
/// since its states are a list.
#[derive(Drop)]
pub struct Row<T> {
    pub parts: Vec<T>,
    ghost some: { 1 ≤ length parts.items },
    ghost most: { length parts.items ≤ 64 },
}

impl<T> Row<T> {
    /// The row of these parts.
    pub fn of(parts: Vec<T>) -> Row<T>
        requires some { 1 ≤ length parts.items }
        requires most { length parts.items ≤ 64 }
        ensures { result.parts ≡ parts }
    {
        Row { parts }
    }
}

impl<T: Tower> Tower for Row<T> {
    ghost use Rattle.direct_product.specs.Row.{row_meaning};
    ghost use Rattle.direct_product.specs.RowLaws.{row_lawful};

    type State = List<T::State>;

    type Op = RowOp<T::Op>;

    ghost meaning = { λ t. row_meaning T.meaning t.parts.items };

    fn top(&self) -> u8 {
        top_of_parts(self.parts.as_slice())
    }

    fn level(&self, op: &RowOp<T::Op>) -> u8 {
        let part = &self.parts[op.part as usize];
        part.level(&op.op)
    }

    fn valid(&self, stamp: &Stamp, op: &RowOp<T::Op>) -> bool {
        if (op.part as usize) < self.parts.len() {
            let part = &self.parts[op.part as usize];
            part.valid(stamp, &op.op)
        } else {
            false
        }
    }

    fn init(&self, alloc: Global) -> Result<List<T::State>, NoMemory> {
        init_states(alloc, self.parts.as_slice())
    }

    fn apply(
        &self,
        alloc: Global,
        state: List<T::State>,
        stamp: &Stamp,
        op: &RowOp<T::Op>,
    ) -> Result<List<T::State>, NoMemory> {
        apply_part(
            alloc,
            self.parts.as_slice(),
            state,
            op.part as usize,
            stamp,
            &op.op,
        )
    }

    fn act(
        &self,
        alloc: Global,
        y: &RowOp<T::Op>,
        x: &RowOp<T::Op>,
    ) -> Result<RowOp<T::Op>, NoMemory> {
        let part = &self.parts[x.part as usize];
        let op = if y.part == x.part {
            part.act(alloc, &y.op, &x.op)?
        } else {
            part.copy_op(alloc, &x.op)?
        };
        Ok(RowOp { part: x.part, op })
    }

    fn settle(
        &self,
        alloc: Global,
        state: List<T::State>,
        k: &Clock,
    ) -> Result<List<T::State>, NoMemory> {
        settle_states(alloc, self.parts.as_slice(), state, k)
    }

    fn copy_op(&self, alloc: Global, op: &RowOp<T::Op>) -> Result<RowOp<T::Op>, NoMemory> {
        let part = &self.parts[op.part as usize];
        let copy = part.copy_op(alloc, &op.op)?;
        Ok(RowOp {
            part: op.part,
            op: copy,
        })
    }

    fn same_op(&self, a: &RowOp<T::Op>, b: &RowOp<T::Op>) -> bool {
        if a.part != b.part {
            return false;
        }
        let part = &self.parts[a.part as usize];
        part.same_op(&a.op, &b.op)
    }

    fn copy_state(
        &self,
        alloc: Global,
        state: &List<T::State>,
    ) -> Result<List<T::State>, NoMemory> {
        copy_states(alloc, self.parts.as_slice(), state)
    }

    fn show(&self, alloc: Global, state: &List<T::State>) -> Result<Value, NoMemory> {
        show_states(alloc, self.parts.as_slice(), state)
    }

    ghost lawful = { λ t. row_lawful T.meaning T.lawful t.parts.items };
}
