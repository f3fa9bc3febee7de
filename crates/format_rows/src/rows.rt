//! What the tables of tests are made of.
ghost use Rattle.std.specs.Prelude.{◌≤◌, length};

use action_tables::{LawfulTable, Table, TableTower};
use crdt_laws::{Bytes, NoMemory};
use std::alloc::{AllocError, Global};
use wire_core::WireError;

/// Some bytes behind one other, with the places where their fields begin, and what may be forged: a place, the byte that stands
/// there instead, and the place of the field that is then not allowed.
#[derive(Clone, Copy, Debug)]
pub struct Row {
    pub bytes: &'static [u8],
    pub fields: &'static [u32],
    pub forged: &'static [(usize, u8, u32)],
}

/// The fault of the first so many bytes of a row: the last field that begins before them is not whole, or the next one has not
/// begun.
pub fn short_at(row: &Row, end: usize) -> WireError {
    let at = row
        .fields
        .iter()
        .copied()
        .filter(|field| *field as usize <= end)
        .max()
        .unwrap_or(0);
    WireError::Short { at }
}

/// What is read from the bytes of a row, and written again.
pub trait Case {
    /// Reads what begins at place 1, and gives the place behind it and the bytes that it is written as again.
    fn there_and_back(&self, alloc: Global, bytes: &[u8]) -> Result<(u32, Bytes), WireError>
        requires some { 1 ≤ length bytes.now }
        requires few { length bytes.now ≤ 100 };
}

/// Whether the row is read to its end and written again.
pub fn is_whole<K: Case>(alloc: Global, case: &K, row: &Row) -> bool
    requires some { 1 ≤ length row.now.bytes.now }
    requires few { length row.now.bytes.now ≤ 100 }
{
    match case.there_and_back(alloc, row.bytes) {
        Ok((at, again)) => {
            at as usize == row.bytes.len() && again.items.as_slice() == &row.bytes[1..]
        }
        Err(_) => false,
    }
}

/// The first number of bytes that is not short as the row says.
pub fn not_short<K: Case>(alloc: Global, case: &K, row: &Row) -> Option<usize>
    requires some { 1 ≤ length row.now.bytes.now }
    requires few { length row.now.bytes.now ≤ 100 }
{
    let bytes = row.bytes;
    for end in 1..bytes.len() {
        if case.there_and_back(alloc, &bytes[..end]).err() != Some(short_at(row, end)) {
            return Some(end);
        }
    }
    None
}

/// The fault of the row with one byte forged.
pub fn forged<K: Case>(
    alloc: Global,
    case: &K,
    bytes: &[u8],
    place: usize,
    byte: u8,
) -> Result<Option<WireError>, AllocError>
    requires some { 1 ≤ length bytes.now }
    requires few { length bytes.now ≤ 100 }
{
    let mut bad = Vec::from_slice(alloc, bytes)?;
    if let Some(old) = bad.get_mut(place) {
        *old = byte;
    }
    Ok(case.there_and_back(alloc, bad.as_slice()).err())
}

/// The tower of a flag as a table.
pub fn on_flag(alloc: Global) -> Result<TableTower, NoMemory> {
    let level = Vec::from_slice(alloc, &[1, 1, 2])?;
    let next = Vec::from_slice(alloc, &[0, 1, 0, 0, 1, 1])?;
    let act = Vec::from_slice(alloc, &[0, 1, 2, 0, 1, 2, 0, 0, 2])?;
    let Ok(table) = Table::of_parts(2, 0, level, next, act) else {
        return Err(NoMemory);
    };
    match LawfulTable::of(table) {
        Ok(table) => Ok(TableTower::of(table)),
        Err(_) => Err(NoMemory),
    }
}
