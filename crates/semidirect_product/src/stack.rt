ghost use Rattle.std.specs.Prelude.{◌≡◌, ◌≤◌, IsTrue};

use crdt_laws::{Actor, NoMemory, Tower};
use serde_json::Value;
use std::alloc::Global;
use vector_clock::{Clock, Stamp};

/// An operation of a stack.
#[derive(Debug, PartialEq, Eq, Drop)]
pub enum StackOp<L, H> {
    /// One of the lower tower, of its level there.
    Low(L),
    /// One of the actor, of the level above the lower tower's top. It acts on those of the lower tower, and none acts on it.
    High(H),
}

/// The semidirect product of a tower and an actor: the tower's states, its operations, and the actor's above them. It is as
/// sparing as both parts are, is plain where the lower tower is, and shows what the lower tower shows. That the actor fits the
/// tower, and that the level above the tower's top is a `u8`, the type keeps.
#[derive(Drop)]
pub struct Stack<A: Tower, B: Actor<A>> {
    pub low: A,
    pub high: B,
    ghost fitting: { IsTrue (B.fits high low) },
    ghost room: { (A.meaning low).top ≤ 254 },
}

impl<A: Tower, B: Actor<A>> Stack<A, B> {
    ghost use Rattle.std.specs.Prelude.{◌≡◌, ◌≤◌, IsTrue};

    /// The stack of the actor `high` on the tower `low`.
    pub fn of(low: A, high: B) -> Stack<A, B>
        requires fitting { IsTrue (B.fits high low) }
        requires room { (A.meaning low).top ≤ 254 }
        ensures low { result.low ≡ low }
        ensures high { result.high ≡ high }
    {
        Stack { low, high }
    }
}

impl<A: Tower, B: Actor<A>> Tower for Stack<A, B> {
    ghost use Rattle.semidirect_product.specs.Stack.{stack_meaning};
    ghost use Rattle.semidirect_product.specs.StackLaws.{stack_lawful};

    type State = A::State;

    type Op = StackOp<A::Op, B::Op>;

    ghost meaning = { λ t. stack_meaning (A.meaning t.low) (B.action t.high t.low) };

    fn top(&self) -> u8 {
        self.low.top() + 1
    }

    fn level(&self, op: &StackOp<A::Op, B::Op>) -> u8 {
        match op {
            StackOp::Low(x) => self.low.level(x),
            StackOp::High(_) => self.low.top() + 1,
        }
    }

    fn valid(&self, stamp: &Stamp, op: &StackOp<A::Op, B::Op>) -> bool {
        match op {
            StackOp::Low(x) => self.low.valid(stamp, x),
            StackOp::High(y) => self.high.valid(stamp, y),
        }
    }

    fn init(&self, alloc: Global) -> Result<A::State, NoMemory> {
        self.low.init(alloc)
    }

    fn apply(
        &self,
        alloc: Global,
        state: A::State,
        stamp: &Stamp,
        op: &StackOp<A::Op, B::Op>,
    ) -> Result<A::State, NoMemory> {
        match op {
            StackOp::Low(x) => self.low.apply(alloc, state, stamp, x),
            StackOp::High(y) => self.high.apply_to(alloc, &self.low, state, stamp, y),
        }
    }

    fn act(
        &self,
        alloc: Global,
        y: &StackOp<A::Op, B::Op>,
        x: &StackOp<A::Op, B::Op>,
    ) -> Result<StackOp<A::Op, B::Op>, NoMemory> {
        match (y, x) {
            (StackOp::Low(v), StackOp::Low(u)) => Ok(StackOp::Low(self.low.act(alloc, v, u)?)),
            (StackOp::High(v), StackOp::Low(u)) => {
                Ok(StackOp::Low(self.high.act_on(alloc, &self.low, v, u)?))
            }
            (_, StackOp::High(u)) => Ok(StackOp::High(self.high.copy(alloc, u)?)),
        }
    }

    fn settle(&self, alloc: Global, state: A::State, k: &Clock) -> Result<A::State, NoMemory> {
        self.low.settle(alloc, state, k)
    }

    fn copy_op(
        &self,
        alloc: Global,
        op: &StackOp<A::Op, B::Op>,
    ) -> Result<StackOp<A::Op, B::Op>, NoMemory> {
        match op {
            StackOp::Low(x) => Ok(StackOp::Low(self.low.copy_op(alloc, x)?)),
            StackOp::High(y) => Ok(StackOp::High(self.high.copy(alloc, y)?)),
        }
    }

    fn same_op(&self, a: &StackOp<A::Op, B::Op>, b: &StackOp<A::Op, B::Op>) -> bool {
        match (a, b) {
            (StackOp::Low(x), StackOp::Low(y)) => self.low.same_op(x, y),
            (StackOp::High(x), StackOp::High(y)) => self.high.same(x, y),
            _ => false,
        }
    }

    fn copy_state(&self, alloc: Global, state: &A::State) -> Result<A::State, NoMemory> {
        self.low.copy_state(alloc, state)
    }

    fn show(&self, alloc: Global, state: &A::State) -> Result<Value, NoMemory> {
        self.low.show(alloc, state)
    }

    ghost lawful = { λ t. stack_lawful (A.meaning t.low) (A.lawful t.low) (B.action t.high t.low) (B.lawful t.high t.low t.fitting) };
}
