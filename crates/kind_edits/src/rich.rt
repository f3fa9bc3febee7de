//! Edits of rich texts.
ghost use Rattle.std.specs.Prelude.{◌≡◌, ◌≢◌, ◌≤◌, ◌<◌, Err, Ok, IfErr, IfOk, length, map};
ghost use Rattle.std.specs.Str.{chars};
ghost use Rattle.vector_clock.specs.Stamp.{IsStamp};
ghost use Rattle.forgetting_model.specs.Made.{AreValidWithin};
ghost use Rattle.list_crdt.specs.Between.{AreInOrder};
ghost use Rattle.list_crdt.specs.Cells.{place, place_before};
ghost use Rattle.register_crdts.specs.Text.{max_text};
ghost use Rattle.rich_text.specs.ByIndex.{marks_before};
ghost use Rattle.rich_text.specs.Marked.{IsRichTextAt, at};
ghost use Rattle.rich_text.specs.Over.{rich_meaning};
ghost use Rattle.kind_edits.specs.RichEdit.{marked_insert, rich_delete, rich_edit, rich_insert, rich_mark};
ghost use Rattle.kind_edits.specs.Stamps.{clock_before};

use crate::fault::EditError;
use crate::forms::{MarkWords, delete_words, insert_words, mark_words};
use crate::letters::{letters_at, only, place};
use crdt_laws::{List, Names, NoMemory};
use list_crdt::Cell;
use rich_text::{MarkEntry, MarkRange, RichCell, RichOp, RichState};
use semidirect_product::StackOp;
use std::alloc::Global;
use vector_clock::Stamp;

/// The marks of the character before the index, none at the start.
fn marks_before(cells: &[RichCell], index: usize) -> &[MarkEntry]
    ensures { result.now ≡ marks_before cells.now index }
{
    if index == 0 {
        return &[];
    }
    match cells.get(index - 1) {
        Some(cell) => cell.marks.items.as_slice(),
        None => &[],
    }
}

/// The inserts of letters at their positions, each with these marks.
fn marked_inserts(
    alloc: Global,
    letters: List<Cell>,
    marks: &[MarkEntry],
) -> Result<List<StackOp<RichOp, MarkRange>>, NoMemory>
    ensures { IfOk result (λ ops. ops ≡ map (marked_insert marks.now) letters) }
{
    let mut ops = List::new(alloc);
    for Cell { at, ch } in letters.items {
        let marks = List {
            items: Vec::from_slice(alloc, marks)?,
        };
        ops.push(StackOp::Low(RichOp::Insert { at, ch, marks }))?;
    }
    Ok(ops)
}

/// The inserts of a text's letters at the index.
fn insert_text(
    alloc: Global,
    state: &RichState,
    index: usize,
    first: &Stamp,
    text: &str,
) -> Result<List<StackOp<RichOp, MarkRange>>, EditError>
    requires order { AreInOrder (place_before at state.now index) (place at state.now index) }
    requires text { length text.now ≤ max_text }
    requires stamp { IsStamp first.now }
    ensures ok { IfOk result (λ ops. rich_insert first.now state.now index (chars text.now) ≡ Ok ops) }
    ensures refused { IfErr result (λ fault. fault ≢ EditError.NoMemory → rich_insert first.now state.now index (chars text.now) ≡ Err fault) }
{
    let cells = state.items.as_slice();
    if index > cells.len() {
        return Err(EditError::IndexOut {
            len: cells.len() as u64,
        });
    }
    let letters = letters_at(alloc, cells, index, first, text)?;
    let marks = marks_before(cells, index);
    Ok(marked_inserts(alloc, letters, marks)?)
}

/// The delete of the character at the index.
fn delete_at(
    alloc: Global,
    state: &RichState,
    index: usize,
) -> Result<List<StackOp<RichOp, MarkRange>>, EditError>
    ensures ok { IfOk result (λ ops. rich_delete state.now index ≡ Ok ops) }
    ensures refused { IfErr result (λ fault. fault ≢ EditError.NoMemory → rich_delete state.now index ≡ Err fault) }
{
    let cells = state.items.as_slice();
    let at = place(cells, index).ok_or(EditError::IndexOut {
        len: cells.len() as u64,
    })?;
    let at = at.copy(alloc)?;
    Ok(only(alloc, StackOp::Low(RichOp::Delete { at }))?)
}

/// The range that puts the mark on the characters between the indexes, or takes it off.
fn mark_between(
    alloc: Global,
    state: &RichState,
    words: MarkWords,
    on: bool,
    first: &Stamp,
) -> Result<List<StackOp<RichOp, MarkRange>>, EditError>
    requires { IsStamp first.now }
    ensures ok { IfOk result (λ ops. rich_mark first.now state.now words on ≡ Ok ops) }
    ensures refused { IfErr result (λ fault. fault ≢ EditError.NoMemory → rich_mark first.now state.now words on ≡ Err fault) }
{
    let entry = MarkEntry {
        mark: words.mark,
        key: first.key(),
        on,
    };
    let range = MarkRange::over(alloc, state, words.from as usize, words.to as usize, entry)?;
    let range = range.ok_or(EditError::IndexOut {
        len: state.items.len() as u64,
    })?;
    Ok(only(alloc, StackOp::High(range))?)
}

/// The operations of an edit of a rich text whose marks have these names: `insert`, an index and a text of 1 to 1,024 bytes, `delete`
/// and an index, or `mark` or `unmark`, two indexes and the name of a mark. An insert is one operation for each character of its text:
/// the first has the stamp `first`, and each further one the next stamp of its member. Each character takes the marks of the one before
/// it, none at the start. `mark` and `unmark` are one operation. It covers the characters from the first index to before the second.
///
/// It is refused as `NoVerb`, `BadNumber`, `TextLong`, `IndexOut` or `PositionFull`, and `NoMemory` comes where it runs out of memory.
/// The index of an insert is at most the length of the text, and that of a delete is below it. The first index of `mark` is below the
/// second, and that is at most the length.
pub fn prepare_rich(
    alloc: Global,
    names: &Names,
    state: &RichState,
    first: &Stamp,
    verb: &str,
    rest: &str,
) -> Result<List<StackOp<RichOp, MarkRange>>, EditError>
    requires names { length names.now ≤ 255 }
    requires state { IsRichTextAt (length names.now) (clock_before first.now) state.now }
    requires stamp { IsStamp first.now }
    ensures ok { IfOk result (λ ops. rich_edit first.now names.now state.now verb.now rest.now ≡ Ok ops) }
    ensures refused { IfErr result (λ fault. fault ≢ EditError.NoMemory → rich_edit first.now names.now state.now verb.now rest.now ≡ Err fault) }
    ensures valid { IfOk result (λ ops. AreValidWithin (rich_meaning (length names.now)) first.now ops) }
{
    match verb {
        "insert" => {
            let (index, text) = insert_words(rest)?;
            insert_text(alloc, state, index as usize, first, text)
        }
        "delete" => {
            let index = delete_words(rest)?;
            delete_at(alloc, state, index as usize)
        }
        "mark" => {
            let words = mark_words(names, rest)?;
            mark_between(alloc, state, words, true, first)
        }
        "unmark" => {
            let words = mark_words(names, rest)?;
            mark_between(alloc, state, words, false, first)
        }
        _ => Err(EditError::NoVerb),
    }
}
