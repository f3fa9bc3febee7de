//! Edits of texts.
ghost use Rattle.std.specs.Prelude.{◌≡◌, ◌≢◌, ◌≤◌, Err, Ok, IfErr, IfOk, length, map};
ghost use Rattle.std.specs.Str.{chars};
ghost use Rattle.vector_clock.specs.Stamp.{IsStamp};
ghost use Rattle.forgetting_model.specs.Made.{AreValidWithin};
ghost use Rattle.list_crdt.specs.Between.{AreInOrder};
ghost use Rattle.list_crdt.specs.Text.{IsTextAt, place, place_before, text_meaning};
ghost use Rattle.register_crdts.specs.Text.{max_text};
ghost use Rattle.kind_edits.specs.PlainEdit.{insert_of, text_delete, text_edit, text_insert};
ghost use Rattle.kind_edits.specs.Stamps.{clock_before};

use crate::fault::EditError;
use crate::forms::{delete_words, insert_words};
use crate::letters::{letters_at, only, place};
use crdt_laws::{List, NoMemory};
use list_crdt::{Cell, TextOp, TextState};
use std::alloc::Global;
use vector_clock::Stamp;

/// The inserts of letters at their positions.
fn inserts(alloc: Global, letters: List<Cell>) -> Result<List<TextOp>, NoMemory>
    ensures { IfOk result (λ ops. ops ≡ map insert_of letters) }
{
    let mut ops = List::new(alloc);
    for Cell { at, ch } in letters.items {
        ops.push(TextOp::Insert { at, ch })?;
    }
    Ok(ops)
}

/// The inserts of a text's letters at the index.
fn insert_text(
    alloc: Global,
    state: &TextState,
    index: usize,
    first: &Stamp,
    text: &str,
) -> Result<List<TextOp>, EditError>
    requires order { AreInOrder (place_before state.now index) (place state.now index) }
    requires text { length text.now ≤ max_text }
    requires stamp { IsStamp first.now }
    ensures ok { IfOk result (λ ops. text_insert first.now state.now index (chars text.now) ≡ Ok ops) }
    ensures refused { IfErr result (λ fault. fault ≢ EditError.NoMemory → text_insert first.now state.now index (chars text.now) ≡ Err fault) }
{
    let cells = state.items.as_slice();
    if index > cells.len() {
        return Err(EditError::IndexOut {
            len: cells.len() as u64,
        });
    }
    let letters = letters_at(alloc, cells, index, first, text)?;
    Ok(inserts(alloc, letters)?)
}

/// The delete of the character at the index.
fn delete_at(alloc: Global, state: &TextState, index: usize) -> Result<List<TextOp>, EditError>
    ensures ok { IfOk result (λ ops. text_delete state.now index ≡ Ok ops) }
    ensures refused { IfErr result (λ fault. fault ≢ EditError.NoMemory → text_delete state.now index ≡ Err fault) }
{
    let cells = state.items.as_slice();
    let at = place(cells, index).ok_or(EditError::IndexOut {
        len: cells.len() as u64,
    })?;
    let at = at.copy(alloc)?;
    Ok(only(alloc, TextOp::Delete { at })?)
}

/// The operations of an edit of a text: `insert`, an index and a text of 1 to 1,024 bytes, or `delete` and an index. An insert is one
/// operation for each character of its text: the first has the stamp `first`, and each further one the next stamp of its member. The
/// work grows with the length of the text that is inserted, and not with that of the text that is there.
///
/// It is refused as `NoVerb`, `BadNumber`, `TextLong`, `IndexOut` or `PositionFull`, and `NoMemory` comes where it runs out of memory.
/// The index of an insert is at most the length of the text, and that of a delete is below it.
pub fn prepare_text(
    alloc: Global,
    state: &TextState,
    first: &Stamp,
    verb: &str,
    rest: &str,
) -> Result<List<TextOp>, EditError>
    requires state { IsTextAt (clock_before first.now) state.now }
    requires stamp { IsStamp first.now }
    ensures ok { IfOk result (λ ops. text_edit first.now state.now verb.now rest.now ≡ Ok ops) }
    ensures refused { IfErr result (λ fault. fault ≢ EditError.NoMemory → text_edit first.now state.now verb.now rest.now ≡ Err fault) }
    ensures valid { IfOk result (λ ops. AreValidWithin text_meaning first.now ops) }
{
    match verb {
        "insert" => {
            let (index, text) = insert_words(rest)?;
            insert_text(alloc, state, index as usize, first, text)
        }
        "delete" => {
            let index = delete_words(rest)?;
            delete_at(alloc, state, index as usize)
        }
        _ => Err(EditError::NoVerb),
    }
}
