ghost use Rattle.std.specs.Prelude.{◌≡◌, ◌≤◌, ◌↔◌, IsNone, IsTrue, IfOk, length};
ghost use Rattle.std.specs.Option.{option_copied};
ghost use Rattle.vector_clock.specs.Stamp.{IsStamp, id_of};
ghost use Rattle.crdt_laws.specs.Tower.{IsWithin};
ghost use Rattle.list_crdt.specs.Position.{IsPositionOf, maker};
ghost use Rattle.list_crdt.specs.Text.{IsDeleteOf};

use crate::cells::{with_cell, without};
use crate::placed::Placed;
use crate::position::Position;
use crdt_laws::{List, NoMemory, Tower, is_within};
use serde_json::Value;
use std::alloc::Global;
use vector_clock::{Clock, Stamp};

/// A character at its position.
#[derive(Debug, Drop)]
pub struct Cell {
    pub at: Position,
    pub ch: char,
}

impl Cell {
    /// The same character again, at the same position.
    fn copy(&self, alloc: Global) -> Result<Cell, NoMemory>
        ensures { IfOk result (λ c. c ≡ self.now) }
    {
        Ok(Cell {
            at: self.at.copy(alloc)?,
            ch: self.ch,
        })
    }
}

impl Placed for Cell {
    ghost use Rattle.list_crdt.specs.Text.{at};

    ghost position = { at };

    fn at(&self) -> &Position {
        &self.at
    }
}

/// The characters of a text by strictly rising position.
pub type TextState = List<Cell>;

/// What a member asks of a text. The position of an insert is made for it: its last step has the insert's id. A delete has the
/// position that was made for another operation, which its member knows.
#[derive(Debug, Drop)]
pub enum TextOp {
    /// The character comes to stand at the position, in the place of what may stand there.
    Insert { at: Position, ch: char },
    /// No character stands at the position any more.
    Delete { at: Position },
}

/// Whether an operation at this stamp may refer to this position.
fn may_name(stamp: &Stamp, at: &Position) -> bool
    requires { IsStamp stamp.now }
    ensures { IsTrue result ↔ IsWithin stamp.now × IsPositionOf stamp.now.clock.n at.now }
{
    is_within(stamp) && at.is_of(stamp.clock.n)
}

/// Whether the position may be that of an insert at this stamp: its last step has the insert's id.
pub fn may_insert_at(stamp: &Stamp, at: &Position) -> bool
    requires { IsStamp stamp.now }
    ensures { IsTrue result ↔ IsWithin stamp.now × (IsPositionOf stamp.now.clock.n at.now × (maker at.now ≡ id_of stamp.now)) }
{
    may_name(stamp, at) && at.maker() == stamp.id()
}

/// Whether the position was made for another operation, which the member knows at this stamp.
pub fn is_known_at(stamp: &Stamp, at: &Position) -> bool
    requires { IsStamp stamp.now }
    ensures { IsTrue result ↔ IsDeleteOf stamp.now at.now }
{
    may_name(stamp, at) && at.maker() != stamp.id() && stamp.clock.covers(at.maker())
}

/// The tower of texts, of one level. A text is at first empty, and is shown as a string. An edit finds its place by halving the
/// text, and moves what stands behind it.
#[derive(Clone, Copy, Debug, PartialEq, Eq)]
pub struct Text;

impl Tower for Text {
    ghost use Rattle.list_crdt.specs.Text.{text_meaning};
    ghost use Rattle.list_crdt.specs.TextLaws.{text_lawful};

    type State = TextState;

    type Op = TextOp;

    ghost meaning = { λ _. text_meaning };

    fn top(&self) -> u8 {
        1
    }

    fn level(&self, _op: &TextOp) -> u8 {
        1
    }

    fn valid(&self, stamp: &Stamp, op: &TextOp) -> bool {
        match op {
            TextOp::Insert { at, ch } => {
                let _char = *ch;
                may_insert_at(stamp, at)
            }
            TextOp::Delete { at } => is_known_at(stamp, at),
        }
    }

    fn init(&self, alloc: Global) -> Result<TextState, NoMemory> {
        Ok(List::new(alloc))
    }

    fn apply(
        &self,
        alloc: Global,
        state: TextState,
        _stamp: &Stamp,
        op: &TextOp,
    ) -> Result<TextState, NoMemory> {
        match op {
            TextOp::Insert { at, ch } => {
                let at = at.copy(alloc)?;
                with_cell(state, Cell { at, ch: *ch })
            }
            TextOp::Delete { at } => Ok(without(state, at)),
        }
    }

    fn act(&self, alloc: Global, _y: &TextOp, x: &TextOp) -> Result<TextOp, NoMemory> {
        self.copy_op(alloc, x)
    }

    fn settle(&self, _alloc: Global, state: TextState, _k: &Clock) -> Result<TextState, NoMemory> {
        Ok(state)
    }

    fn copy_op(&self, alloc: Global, op: &TextOp) -> Result<TextOp, NoMemory> {
        match op {
            TextOp::Insert { at, ch } => Ok(TextOp::Insert {
                at: at.copy(alloc)?,
                ch: *ch,
            }),
            TextOp::Delete { at } => Ok(TextOp::Delete {
                at: at.copy(alloc)?,
            }),
        }
    }

    fn same_op(&self, a: &TextOp, b: &TextOp) -> bool {
        match (a, b) {
            (TextOp::Insert { at: p, ch: c }, TextOp::Insert { at: q, ch: d }) => {
                p == q && c == d
            }
            (TextOp::Delete { at: p }, TextOp::Delete { at: q }) => p == q,
            _ => false,
        }
    }

    fn copy_state(&self, alloc: Global, state: &TextState) -> Result<TextState, NoMemory> {
        let mut cells = Vec::with_capacity(alloc, state.items.len())?;
        for cell in &state.items {
            cells.push(cell.copy(alloc)?)?;
        }
        Ok(List { items: cells })
    }

    fn show(&self, alloc: Global, state: &TextState) -> Result<Value, NoMemory> {
        let mut text = String::new(alloc);
        for cell in &state.items {
            text.push(cell.ch)?;
        }
        Ok(Value::from(text))
    }

    ghost lawful = { λ _. text_lawful };
}

impl Text {
    ghost use Rattle.std.specs.Prelude.{◌≡◌, ◌≤◌, ◌↔◌, IsNone, length};
    ghost use Rattle.std.specs.Option.{option_copied};
    ghost use Rattle.list_crdt.specs.Text.{place};

    /// The position of the character at this index, counted from 0, or None past the last one.
    pub fn place<'a>(&self, state: &'a TextState, index: u32) -> Option<&'a Position>
        ensures place { option_copied result ≡ place state.now index }
        ensures none { IsNone result ↔ (length state.now ≤ index) }
    {
        Some(&state.items.get(index as usize)?.at)
    }
}
