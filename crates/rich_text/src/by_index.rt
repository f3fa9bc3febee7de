ghost use Rattle.std.specs.Prelude.{◌≡◌, ℕ, ◌≤◌, ◌<◌, ◌⊎◌, ◌↔◌, IsNone, IfOk, IfSome, length};
ghost use Rattle.std.specs.Option.{option_copied, option_map};
ghost use Rattle.vector_clock.specs.Stamp.{IsStamp};
ghost use Rattle.list_crdt.specs.Between.{AreInOrder};
ghost use Rattle.list_crdt.specs.Cells.{place, place_before};
ghost use Rattle.list_crdt.specs.Position.{max_steps};
ghost use Rattle.rich_text.specs.ByIndex.{IsRangeOver, insert_at, marks_before, position_at};
ghost use Rattle.rich_text.specs.Marked.{IsRichText, at};
ghost use Rattle.rich_text.specs.Over.{entry_of};
ghost use Rattle.rich_text.specs.declared.marked.RichOp.TheVariants.{Delete};

use crate::marked::{MarkedText, RichCell, RichOp, RichState};
use crate::marks::{MarkEntry, Marks, copy_marks};
use crate::over::MarkRange;
use crdt_laws::{List, NoMemory};
use list_crdt::{ListError, Position, between};
use std::alloc::Global;
use vector_clock::Stamp;

/// The position of the character at the index, or None past the last one.
fn place(cells: &[RichCell], index: usize) -> Option<&Position>
    ensures { option_copied result ≡ place at cells.now index }
{
    Some(&cells.get(index)?.at)
}

/// The position of the character before the index, or None at the start and past the end.
fn place_before(cells: &[RichCell], index: usize) -> Option<&Position>
    ensures { option_copied result ≡ place_before at cells.now index }
{
    if index == 0 {
        return None;
    }
    place(cells, index - 1)
}

/// The next position at the index, for the operation at the stamp.
fn next_at(
    alloc: Global,
    cells: &[RichCell],
    index: usize,
    stamp: &Stamp,
) -> Result<Position, ListError>
    requires order { AreInOrder (place_before at cells.now index) (place at cells.now index) }
    requires stamp { IsStamp stamp.now }
    ensures next { IfOk result (λ r. r ≡ position_at stamp.now cells.now index) }
    ensures full { (k : ℕ) → (result ≡ Err (ListError.PositionFull k)) ↔ ((max_steps < length (position_at stamp.now cells.now index)) × (k ≡ length (position_at stamp.now cells.now index))) }
{
    let low = place_before(cells, index);
    let high = place(cells, index);
    between(alloc, low, high, stamp.member, stamp.id().seq)
}

/// The marks of the character before the index, none at the start.
fn marks_before(alloc: Global, cells: &[RichCell], index: usize) -> Result<Marks, NoMemory>
    ensures { IfOk result (λ m. m ≡ marks_before cells.now index) }
{
    if index == 0 {
        return Ok(List::new(alloc));
    }
    match cells.get(index - 1) {
        Some(cell) => copy_marks(alloc, &cell.marks),
        None => Ok(List::new(alloc)),
    }
}

impl MarkedText {
    /// The insert of a character at this index, counted from 0, by the operation at the stamp. Its position is the next one
    /// between the characters around the index, and it takes the marks of the one before it, none at the start. None where
    /// the index is past the end of the text.
    ///
    /// `PositionFull` comes where that position would have more than 32 steps, and `NoMemory` where it runs out of memory.
    pub fn insert_at(
        &self,
        alloc: Global,
        state: &RichState,
        index: usize,
        ch: char,
        stamp: &Stamp,
    ) -> Result<Option<RichOp>, ListError>
        requires text { IsRichText self.now.marks stamp.now.clock.n state.now }
        requires stamp { IsStamp stamp.now }
        ensures insert { IfOk result (λ o. IfSome o (λ x. x ≡ insert_at stamp.now state.now index ch)) }
        ensures none { IfOk result (λ o. IsNone o ↔ (length state.now < index)) }
        ensures full { (k : ℕ) → (result ≡ Err (ListError.PositionFull k)) ↔ ((index ≤ length state.now) × ((max_steps < length (position_at stamp.now state.now index)) × (k ≡ length (position_at stamp.now state.now index)))) }
    {
        let cells = state.items.as_slice();
        if index > cells.len() {
            return Ok(None);
        }
        let at = next_at(alloc, cells, index, stamp)?;
        let marks = marks_before(alloc, cells, index)?;
        Ok(Some(RichOp::Insert { at, ch, marks }))
    }

    /// The delete of the character at this index, counted from 0. None where there is none.
    ///
    /// `NoMemory` comes where it runs out of memory.
    pub fn delete_at(
        &self,
        alloc: Global,
        state: &RichState,
        index: usize,
    ) -> Result<Option<RichOp>, NoMemory>
        ensures { IfOk result (λ o. o ≡ option_map Delete (place at state.now index)) }
    {
        match place(state.items.as_slice(), index) {
            Some(at) => Ok(Some(RichOp::Delete {
                at: at.copy(alloc)?,
            })),
            None => Ok(None),
        }
    }
}

impl MarkRange {
    /// The range that says this of its mark, from the character at the index `from`, counted from 0, to the one before `to`.
    /// None where there is no such range: `to` is past the end of the text, or `from` is not below `to`.
    ///
    /// `NoMemory` comes where it runs out of memory.
    pub fn over(
        alloc: Global,
        state: &RichState,
        from: usize,
        to: usize,
        entry: MarkEntry,
    ) -> Result<Option<MarkRange>, NoMemory>
        ensures over { IfOk result (λ o. IfSome o (λ r. IsRangeOver state.now from to r)) }
        ensures entry { IfOk result (λ o. IfSome o (λ r. entry_of r ≡ entry)) }
        ensures none { IfOk result (λ o. IsNone o ↔ ((length state.now < to) ⊎ (to ≤ from))) }
    {
        let cells = state.items.as_slice();
        if to <= from {
            return Ok(None);
        }
        let (Some(first), Some(last)) = (place(cells, from), place_before(cells, to)) else {
            return Ok(None);
        };
        Ok(Some(MarkRange {
            first: first.copy(alloc)?,
            last: last.copy(alloc)?,
            mark: entry.mark,
            key: entry.key,
            on: entry.on,
        }))
    }
}
