ghost use Rattle.std.specs.Prelude.{◌≡◌, ◌<◌, ◌≤◌, ◌↔◌, length, IsTrue, MatchOption};
ghost use Rattle.action_tables.specs.Table.{HasSizes, table_of, EachBelow, IsOutside, IsFirstOutside};

use std::fmt;
use std::marker::Model;
use thiserror::Error;

/// What is at fault with the parts of a table.
#[derive(Clone, Copy, Debug, PartialEq, Eq, Error)]
pub enum Shape {
    /// The number of states or of operations is not 1 to 32, the first state is none of the states, or a list has not its
    /// length.
    Size,
    /// A level is not 1 to 8.
    Level,
    /// An entry is no state or no operation of the table.
    Entry {
        /// The first such place. The places of `act` count on from those of `next`.
        at: u32,
    },
}

impl fmt::Display for Shape {
    ghost use Rattle.std.specs.Prelude.{Some};
    ghost use Rattle.action_tables.specs.FaultText.{shape_text};

    ghost output = { λ shape. Some (shape_text shape) };

    fn fmt<W: fmt::Write>(&self, f: &mut fmt::Formatter<W>) -> fmt::Result {
        match self {
            Shape::Size => write!(f, "size"),
            Shape::Level => write!(f, "level"),
            Shape::Entry { at } => write!(f, "entry {at}"),
        }
    }
}

/// What the checker says of a table. The laws are these, with their cases (a, b, c), where x, y, v and z are operations and s is
/// a state:
///
/// 1. (y, x, 0): what x becomes when y acts on it has the level of x, and is x unless the level of y is greater.
/// 2. (x, y, s), of one level: x and y lead from s to one state in either order.
/// 3. (y, x, s), the level of y greater: x and then y lead from s to where y and then what y makes of x lead.
/// 4. (y, v, x), y and v of one level that is greater than that of x: y and v act on x in either order.
/// 5. (z, y, x), the levels falling: z acts on what y makes of x as what z makes of y acts on what z makes of x.
#[derive(Clone, Copy, Debug, PartialEq, Eq)]
pub enum Verdict {
    /// The laws hold at each of their cases.
    Lawful,
    /// They do not, and this is the first case that is broken, in the order of law, a, b and c.
    Broken {
        /// The law, 1 to 5.
        law: u8,
        /// The first place, an operation.
        a: u8,
        /// The second place, an operation.
        b: u8,
        /// The third place: a state in laws 2 and 3, an operation in laws 4 and 5, and 0 in law 1.
        c: u8,
    },
}

impl fmt::Display for Verdict {
    ghost use Rattle.std.specs.Prelude.{Some};
    ghost use Rattle.action_tables.specs.FaultText.{verdict_text};

    ghost output = { λ verdict. Some (verdict_text verdict) };

    fn fmt<W: fmt::Write>(&self, f: &mut fmt::Formatter<W>) -> fmt::Result {
        match self {
            Verdict::Lawful => write!(f, "lawful"),
            Verdict::Broken { law, a, b, c } => write!(f, "broken {law} {a} {b} {c}"),
        }
    }
}

/// A table of states and operations, both numbered from 0. Contracts see it as its two numbers and its three lists. That none of
/// the faults of `Shape` is there, the type keeps.
#[derive(Debug, Drop)]
pub struct Table {
    /// How many states there are, 1 to 32.
    pub states: u8,
    /// The first state.
    pub start: u8,
    /// The level of each operation, 1 to 8. There are 1 to 32 operations.
    pub level: Vec<u8>,
    /// At `o * states + s` the state to which operation o leads from state s.
    pub next: Vec<u8>,
    /// At `y * ops + x` what operation x becomes when y acts on it, where `ops` is the number of operations.
    pub act: Vec<u8>,
}

impl Model for Table {
    ghost use Rattle.action_tables.specs.Table.{ActionTable, IsTable, table_of};

    ghost Value = { ActionTable };

    ghost view = { λ t. table_of t.states t.start t.level.items t.next.items t.act.items };

    ghost invariant = { λ t. IsTable (table_of t.states t.start t.level.items t.next.items t.act.items) };
}

impl Table {
    ghost use Rattle.std.specs.Prelude.{◌≡◌, ◌<◌, ◌↔◌, IsTrue, IfOk, IfErr, OnOk};
    ghost use Rattle.action_tables.specs.Table.{IsTable, table_of, op_count, level_of, next_of, act_of};
    ghost use Rattle.action_tables.specs.Verdict.{HasFault};

    /// The table of these parts, or the first of the faults that they have. It takes no memory.
    pub fn of_parts(
        states: u8,
        start: u8,
        level: Vec<u8>,
        next: Vec<u8>,
        act: Vec<u8>,
    ) -> Result<Table, Shape>
        ensures table { IfOk result (λ t. t ≡ table_of states start level.items next.items act.items) }
        ensures accepts { OnOk result (IsTable (table_of states start level.items next.items act.items)) }
        ensures refuses { IfErr result (HasFault (table_of states start level.items next.items act.items)) }
    {
        if !has_sizes(states, start, &level, &next, &act) {
            return Err(Shape::Size);
        }
        if !level.iter().all(|level| (1..=8).contains(level)) {
            return Err(Shape::Level);
        }
        match first_outside(states, level.len(), &next, &act) {
            Some(at) => Err(Shape::Entry { at: at as u32 }),
            None => Ok(Table {
                states,
                start,
                level,
                next,
                act,
            }),
        }
    }

    /// How many operations there are.
    pub(crate) fn op_count(&self) -> u8
        ensures { result ≡ op_count self.now }
    {
        self.level.len() as u8
    }

    /// The level of the operation.
    pub(crate) fn level_of(&self, op: u8) -> u8
        requires { op < op_count self.now }
        ensures { result ≡ level_of self.now op }
    {
        self.level[usize::from(op)]
    }

    /// The state to which the operation leads from this state.
    pub(crate) fn next_of(&self, state: u8, op: u8) -> u8
        requires state { state < self.now.states }
        requires op { op < op_count self.now }
        ensures next { result ≡ next_of self.now state op }
        ensures state { result < self.now.states }
    {
        self.next[usize::from(op) * usize::from(self.states) + usize::from(state)]
    }

    /// What the operation x becomes when y acts on it.
    pub(crate) fn act_of(&self, y: u8, x: u8) -> u8
        requires acting { y < op_count self.now }
        requires acted { x < op_count self.now }
        ensures acted { result ≡ act_of self.now y x }
        ensures op { result < op_count self.now }
    {
        self.act[usize::from(y) * self.level.len() + usize::from(x)]
    }
}

// Whether there are 1 to 32 states and operations, the first state is one of them, and each list has its length.
fn has_sizes(states: u8, start: u8, level: &[u8], next: &[u8], act: &[u8]) -> bool
    ensures { IsTrue result ↔ HasSizes (table_of states start level.now next.now act.now) }
{
    let ops = level.len();
    (1..=32).contains(&states)
        && (1..=32).contains(&ops)
        && start < states
        && next.len() == ops * usize::from(states)
        && act.len() == ops * ops
}

// The first place of an entry that is no state or operation. The places of `act` count on from those of `next`.
fn first_outside(states: u8, ops: usize, next: &[u8], act: &[u8]) -> Option<usize>
    requires next { length next.now ≤ 1024 }
    requires act { length act.now ≤ 1024 }
    ensures { MatchOption result
        (EachBelow next.now states × EachBelow act.now ops)
        (IsFirstOutside states ops next.now act.now) }
{
    next.iter().position(|state| *state >= states).or_else(|| {
        act.iter()
            .position(|op| usize::from(*op) >= ops)
            .map(|at| next.len() + at)
    })
}
