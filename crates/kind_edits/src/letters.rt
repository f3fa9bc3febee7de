//! Where the letters of an insert stand.
ghost use Rattle.std.specs.Prelude.{◌≡◌, ◌≢◌, ◌≤◌, [], ◌∷◌, Err, Ok, IfErr, IfOk, length};
ghost use Rattle.std.specs.Option.{option_copied};
ghost use Rattle.std.specs.Str.{chars};
ghost use Rattle.vector_clock.specs.Clock.{count, max_entry};
ghost use Rattle.vector_clock.specs.Stamp.{IsStamp};
ghost use Rattle.list_crdt.specs.Between.{AreInOrder, IsBetween, position_between};
ghost use Rattle.list_crdt.specs.Cells.{place, place_before};
ghost use Rattle.register_crdts.specs.Text.{max_text};
ghost use Rattle.kind_edits.specs.Letters.{last_place, letters_between};

use crate::fault::EditError;
use crdt_laws::{List, NoMemory};
use list_crdt::{Cell, Placed, Position, between};
use std::alloc::Global;
use vector_clock::{Id, Stamp};

/// A list of one thing.
pub(crate) fn only<T: Drop>(alloc: Global, item: T) -> Result<List<T>, NoMemory>
    ensures { IfOk result (λ items. items ≡ item ∷ []) }
{
    let mut items = List::new(alloc);
    items.push(item)?;
    Ok(items)
}

/// The position of the thing at the index, or None past the last one.
pub(crate) fn place<C: Placed>(cells: &[C], index: usize) -> Option<&Position>
    ensures { option_copied result ≡ place C.position cells.now index }
{
    Some(cells.get(index)?.at())
}

/// The position of the thing before the index, or None at the start and past the end.
pub(crate) fn place_before<C: Placed>(cells: &[C], index: usize) -> Option<&Position>
    ensures { option_copied result ≡ place_before C.position cells.now index }
{
    if index == 0 {
        return None;
    }
    place(cells, index - 1)
}

/// The position of the last of the letters, or `low` where there is none.
fn last_place<'a>(low: Option<&'a Position>, letters: &'a [Cell]) -> Option<&'a Position>
    ensures { option_copied result ≡ last_place (option_copied low.entry) letters.now }
{
    match letters.last() {
        Some(cell) => Some(&cell.at),
        None => low,
    }
}

/// The letters of a text of at most 1,024 bytes between two positions, of which the first comes before the second. They are put
/// there by operations of one member, one for each letter: the first has this id, and each further one the next sequence number.
fn letters_between(
    alloc: Global,
    first: Id,
    low: Option<&Position>,
    high: Option<&Position>,
    text: &str,
) -> Result<List<Cell>, EditError>
    requires order { AreInOrder (option_copied low) (option_copied high) }
    requires text { length text.now ≤ max_text }
    requires seq { first.seq ≤ max_entry }
    ensures ok { IfOk result (λ cells. letters_between first.member (option_copied high.entry) first.seq (option_copied low.entry) (chars text.now) ≡ Ok cells) }
    ensures refused { IfErr result (λ fault. fault ≢ EditError.NoMemory → letters_between first.member (option_copied high.entry) first.seq (option_copied low.entry) (chars text.now) ≡ Err fault) }
{
    let mut letters = List::new(alloc);
    let mut seq = first.seq;
    for ch in text.chars() {
        let below = last_place(low, letters.items.as_slice());
        let at = between(alloc, below, high, first.member, seq)?;
        letters.push(Cell { at, ch })?;
        seq += 1;
    }
    Ok(letters)
}

/// The letters of a text of at most 1,024 bytes at the index, put there by operations of which the first has this stamp.
pub(crate) fn letters_at<C: Placed>(
    alloc: Global,
    cells: &[C],
    index: usize,
    first: &Stamp,
    text: &str,
) -> Result<List<Cell>, EditError>
    requires order { AreInOrder (place_before C.position cells.now index) (place C.position cells.now index) }
    requires text { length text.now ≤ max_text }
    requires stamp { IsStamp first.now }
    ensures ok { IfOk result (λ letters. letters_between first.now.member (place C.position cells.now index) (count first.now.clock first.now.member) (place_before C.position cells.now index) (chars text.now) ≡ Ok letters) }
    ensures refused { IfErr result (λ fault. fault ≢ EditError.NoMemory → letters_between first.now.member (place C.position cells.now index) (count first.now.clock first.now.member) (place_before C.position cells.now index) (chars text.now) ≡ Err fault) }
{
    let low = place_before(cells, index);
    let high = place(cells, index);
    letters_between(alloc, first.id(), low, high, text)
}
