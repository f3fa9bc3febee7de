ghost use Rattle.std.specs.Prelude.{◌≡◌, [], OnOk};
ghost use Rattle.std.specs.List.{All};
ghost use Rattle.vector_clock.specs.declared.clock.Clock.{Clock};
ghost use Rattle.list_crdt.specs.Text.{IsCellOf};
ghost use Rattle.wire_core.specs.Reading.{spell_each};
ghost use Rattle.wire_core.specs.Calls.{rules_of, wrote};
ghost use Rattle.kind_codec.specs.TextStates.{cell_grammar};

use crate::position::{put_position, take_next_position, take_position};
use crdt_laws::NoMemory;
use list_crdt::{Cell, Text, TextOp, TextState};
use std::alloc::Global;
use vector_clock::Clock;
use wire_core::{ByteIn, ByteOut, Coder, Elements, WireError, put_char, take_char, take_listed};

/// How the characters of a text are read, each behind its position, which was made for an operation that the clock `d` covers.
#[derive(Drop)]
struct Cells<'a> {
    d: &'a Clock,
}

impl Elements for Cells<'_> {
    ghost use Rattle.kind_codec.specs.TextStates.{cell_exact, cell_grammar};

    type Item = Cell;

    ghost element = { λ e. cell_grammar e.d.now };

    ghost reads = { λ _ _. Unit {0} };

    fn take_next(
        &self,
        alloc: Global,
        before: &[Cell],
        from: &mut ByteIn<'_>,
    ) -> Result<Cell, WireError> {
        let at = take_next_position(alloc, before, self.d, from)?;
        let ch = take_char(from)?;
        Ok(Cell { at, ch })
    }

    ghost exact = { λ e. cell_exact e.d.now };
}

/// Writes positions with their characters.
fn put_cells(cells: &[Cell], out: &mut ByteOut) -> Result<(), NoMemory>
    requires { All (IsCellOf out.old.n) cells.now }
    ensures { OnOk result ((d : Clock) → out.new ≡ wrote out.old (spell_each (cell_grammar d) (rules_of out.old) [] cells.now)) }
{
    let _members = out.n;
    for cell in cells {
        put_position(&cell.at, out)?;
        put_char(cell.ch, out)?;
    }
    Ok(())
}

/// The coder of texts: a tag, a position, and the character that an insert puts there; and how many characters there are, and each
/// of them behind its position.
#[derive(Clone, Copy, Debug, PartialEq, Eq)]
pub struct TextCoder;

impl Coder<Text> for TextCoder {
    ghost use Rattle.kind_codec.specs.Text.{text_op_grammar, text_op_exact, text_op_in_order, text_may_stand, text_tells, text_writes};
    ghost use Rattle.kind_codec.specs.TextStates.{text_fits, text_good, text_states, text_states_exact, text_states_steady};

    ghost op_grammar = { λ _ _. text_op_grammar };

    ghost may_stand = { λ _ _. text_may_stand };

    ghost state_grammar = { λ _ _. text_states };

    ghost state_fits = { λ _ _. text_fits };

    fn put_op(&self, _tower: &Text, op: &TextOp, out: &mut ByteOut) -> Result<(), NoMemory> {
        match op {
            TextOp::Insert { at, ch } => {
                out.put_u8(0)?;
                put_position(at, out)?;
                put_char(*ch, out)
            }
            TextOp::Delete { at } => {
                out.put_u8(1)?;
                put_position(at, out)
            }
        }
    }

    fn take_op(
        &self,
        alloc: Global,
        _tower: &Text,
        from: &mut ByteIn<'_>,
    ) -> Result<TextOp, WireError> {
        let place = from.at;
        match from.take_u8()? {
            0 => {
                let at = take_position(alloc, from)?;
                let ch = take_char(from)?;
                Ok(TextOp::Insert { at, ch })
            }
            1 => Ok(TextOp::Delete {
                at: take_position(alloc, from)?,
            }),
            _ => Err(WireError::Bad { at: place }),
        }
    }

    fn put_state(
        &self,
        _tower: &Text,
        state: &TextState,
        out: &mut ByteOut,
    ) -> Result<(), NoMemory> {
        let cells = state.items.as_slice();
        out.put_count(cells.len())?;
        put_cells(cells, out)
    }

    fn take_state(
        &self,
        alloc: Global,
        _tower: &Text,
        d: &Clock,
        from: &mut ByteIn<'_>,
    ) -> Result<TextState, WireError> {
        take_listed(alloc, &Cells { d }, from)
    }

    ghost op_exact = { λ _ _. text_op_exact };

    ghost op_in_order = { λ _ _. text_op_in_order };

    ghost op_writes = { λ _ _. text_writes };

    ghost op_tells = { λ _ _. text_tells };

    ghost state_exact = { λ _ _. text_states_exact };

    ghost state_steady = { λ _ _. text_states_steady };

    ghost state_good = { λ _ _. text_good };
}
