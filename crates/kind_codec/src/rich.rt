ghost use Rattle.std.specs.Prelude.{◌≡◌, [], OnOk};
ghost use Rattle.std.specs.List.{All};
ghost use Rattle.vector_clock.specs.declared.clock.Clock.{Clock};
ghost use Rattle.rich_text.specs.Marked.{IsCellOf};
ghost use Rattle.wire_core.specs.Reading.{spell_each};
ghost use Rattle.wire_core.specs.Calls.{rules_of, wrote};
ghost use Rattle.kind_codec.specs.Rich.{rich_cell_grammar};

use crate::marks::{put_entry, put_marks, take_entry, take_marks};
use crate::position::{put_position, take_next_position, take_position};
use crdt_laws::NoMemory;
use rich_text::{MarkEntry, MarkOver, MarkRange, MarkedText, RichCell, RichOp, RichState};
use std::alloc::Global;
use vector_clock::Clock;
use wire_core::{
    ActorCoder, ByteIn, ByteOut, Coder, Elements, WireError, put_char, take_char, take_listed,
};

/// How the characters of a text with so many marks are read, each behind its position, which was made for an operation that the
/// clock `d` covers.
#[derive(Drop)]
struct RichCells<'a> {
    marks: u8,
    d: &'a Clock,
}

impl Elements for RichCells<'_> {
    ghost use Rattle.kind_codec.specs.Rich.{rich_cell_exact, rich_cell_grammar};

    type Item = RichCell;

    ghost element = { λ e. rich_cell_grammar e.marks e.d.now };

    ghost reads = { λ _ _. Unit {0} };

    fn take_next(
        &self,
        alloc: Global,
        before: &[RichCell],
        from: &mut ByteIn<'_>,
    ) -> Result<RichCell, WireError> {
        let at = take_next_position(alloc, before, self.d, from)?;
        let ch = take_char(from)?;
        let marks = take_marks(alloc, self.marks, from)?;
        Ok(RichCell { at, ch, marks })
    }

    ghost exact = { λ e. rich_cell_exact e.marks e.d.now };
}

/// Writes positions with their characters and the marks of these.
fn put_rich_cells(marks: u8, cells: &[RichCell], out: &mut ByteOut) -> Result<(), NoMemory>
    requires { All (IsCellOf marks out.old.n) cells.now }
    ensures { OnOk result ((d : Clock) → out.new ≡ wrote out.old (spell_each (rich_cell_grammar marks d) (rules_of out.old) [] cells.now)) }
{
    let _members = out.n;
    for cell in cells {
        put_position(&cell.at, out)?;
        put_char(cell.ch, out)?;
        put_marks(marks, &cell.marks, out)?;
    }
    Ok(())
}

/// The coder of texts with marks: a tag, a position, and the character with its marks that an insert puts there; and how many
/// characters there are, and each of them behind its position, with its marks.
#[derive(Clone, Copy, Debug, PartialEq, Eq)]
pub struct MarkedTextCoder;

impl Coder<MarkedText> for MarkedTextCoder {
    ghost use Rattle.kind_codec.specs.Rich.{rich_fits, rich_good, rich_may_stand, rich_op_exact, rich_op_grammar, rich_op_in_order, rich_states, rich_states_exact, rich_states_steady, rich_tells, rich_writes};

    ghost op_grammar = { λ _ t. rich_op_grammar t.marks };

    ghost may_stand = { λ _ _. rich_may_stand };

    ghost state_grammar = { λ _ t. rich_states t.marks };

    ghost state_fits = { λ _ _. rich_fits };

    fn put_op(&self, tower: &MarkedText, op: &RichOp, out: &mut ByteOut) -> Result<(), NoMemory> {
        match op {
            RichOp::Insert { at, ch, marks } => {
                out.put_u8(0)?;
                put_position(at, out)?;
                put_char(*ch, out)?;
                put_marks(tower.marks, marks, out)
            }
            RichOp::Delete { at } => {
                out.put_u8(1)?;
                put_position(at, out)
            }
        }
    }

    fn take_op(
        &self,
        alloc: Global,
        tower: &MarkedText,
        from: &mut ByteIn<'_>,
    ) -> Result<RichOp, WireError> {
        let place = from.at;
        match from.take_u8()? {
            0 => {
                let at = take_position(alloc, from)?;
                let ch = take_char(from)?;
                let marks = take_marks(alloc, tower.marks, from)?;
                Ok(RichOp::Insert { at, ch, marks })
            }
            1 => Ok(RichOp::Delete {
                at: take_position(alloc, from)?,
            }),
            _ => Err(WireError::Bad { at: place }),
        }
    }

    fn put_state(
        &self,
        tower: &MarkedText,
        state: &RichState,
        out: &mut ByteOut,
    ) -> Result<(), NoMemory> {
        let cells = state.items.as_slice();
        out.put_count(cells.len())?;
        put_rich_cells(tower.marks, cells, out)
    }

    fn take_state(
        &self,
        alloc: Global,
        tower: &MarkedText,
        d: &Clock,
        from: &mut ByteIn<'_>,
    ) -> Result<RichState, WireError> {
        let cells = RichCells {
            marks: tower.marks,
            d,
        };
        take_listed(alloc, &cells, from)
    }

    ghost op_exact = { λ _ t. rich_op_exact t.marks };

    ghost op_in_order = { λ _ t. rich_op_in_order t.marks };

    ghost op_writes = { λ _ t. rich_writes t.marks };

    ghost op_tells = { λ _ t. rich_tells t.marks };

    ghost state_exact = { λ _ t. rich_states_exact t.marks };

    ghost state_steady = { λ _ t. rich_states_steady t.marks };

    ghost state_good = { λ _ t. rich_good t.marks };
}

/// The coder of marks over ranges of a text: the first position, the last one, and the entry that the range joins.
#[derive(Clone, Copy, Debug, PartialEq, Eq)]
pub struct MarkOverCoder;

impl ActorCoder<MarkedText, MarkOver> for MarkOverCoder {
    ghost use Rattle.kind_codec.specs.Rich.{range_exact, range_grammar, range_in_order, range_may_stand, range_tells, range_writes};

    ghost acting_grammar = { λ _ b. range_grammar b.marks };

    ghost acting_may_stand = { λ _ _. range_may_stand };

    fn put_op(&self, actor: &MarkOver, op: &MarkRange, out: &mut ByteOut) -> Result<(), NoMemory> {
        let entry = MarkEntry {
            mark: op.mark,
            key: op.key,
            on: op.on,
        };
        put_position(&op.first, out)?;
        put_position(&op.last, out)?;
        put_entry(actor.marks, &entry, out)
    }

    fn take_op(
        &self,
        alloc: Global,
        actor: &MarkOver,
        from: &mut ByteIn<'_>,
    ) -> Result<MarkRange, WireError> {
        let first = take_position(alloc, from)?;
        let last = take_position(alloc, from)?;
        let MarkEntry { mark, key, on } = take_entry(alloc, actor.marks, &[], from)?;
        Ok(MarkRange {
            first,
            last,
            mark,
            key,
            on,
        })
    }

    ghost acting_exact = { λ _ b. range_exact b.marks };

    ghost acting_in_order = { λ _ b. range_in_order b.marks };

    ghost acting_writes = { λ _ b _. range_writes b.marks };

    ghost acting_tells = { λ _ b _. range_tells b.marks };
}
