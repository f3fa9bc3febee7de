//! Marks of characters: a count, and so many entries by rising mark.
ghost use Rattle.std.specs.Prelude.{◌≡◌, ◌<◌, [], None, OnOk, length, nat_lt};
ghost use Rattle.std.specs.List.{last_or};
ghost use Rattle.wire_core.specs.Calls.{IsInside, Takes, rules_of, wrote};
ghost use Rattle.wire_core.specs.Rising.{comes_next};
ghost use Rattle.wire_core.specs.Reading.{spell_each};
ghost use Rattle.kind_codec.specs.Marks.{bytes_of, entry_grammar, entry_parts, is_next_entry, mark_of, marks_grammar};

use crdt_laws::{List, NoMemory};
use rich_text::{MarkEntry, Marks};
use std::alloc::Global;
use vector_clock::Key;
use wire_core::{ByteIn, ByteOut, Elements, Wire, WireError, take_each};

/// An entry as it stands in a file: whether the mark is on is 0 or 1.
#[derive(Clone, Copy, Debug, PartialEq, Eq)]
struct EntryBytes {
    mark: u8,
    key: Key,
    on: u8,
}

/// Reads a mark, a key and a byte.
fn take_entry_parts(
    alloc: Global,
    marks: u8,
    from: &mut ByteIn<'_>,
) -> Result<EntryBytes, WireError>
    requires { IsInside from.old }
    ensures { Takes (entry_parts marks) from.old from.new result }
{
    Ok(EntryBytes {
        mark: from.take_u8()?,
        key: Key::take(alloc, from)?,
        on: from.take_u8()?,
    })
}

/// Whether the mark comes after that of the last entry.
fn is_next_mark(before: &[MarkEntry], mark: u8) -> bool
    ensures { result ≡ comes_next mark_of nat_lt (last_or None before.now) mark }
{
    match before.last() {
        Some(last) => last.mark < mark,
        None => true,
    }
}

/// Whether the entry comes after those before it and is one of a text with so many marks.
fn is_next_entry(marks: u8, before: &[MarkEntry], bytes: &EntryBytes) -> bool
    ensures { result ≡ is_next_entry marks before.now bytes.now }
{
    let EntryBytes { mark, on, .. } = *bytes;
    is_next_mark(before, mark) && (mark < marks && on <= 1)
}

/// Reads an entry that comes after those before it, in a text with so many marks.
pub(crate) fn take_entry(
    alloc: Global,
    marks: u8,
    before: &[MarkEntry],
    from: &mut ByteIn<'_>,
) -> Result<MarkEntry, WireError>
    requires { IsInside from.old }
    ensures { Takes (entry_grammar marks before.now) from.old from.new result }
{
    let at = from.at;
    match take_entry_parts(alloc, marks, from) {
        Ok(bytes) => {
            if is_next_entry(marks, before, &bytes) {
                let EntryBytes { mark, key, on } = bytes;
                Ok(MarkEntry {
                    mark,
                    key,
                    on: on == 1,
                })
            } else {
                Err(WireError::Bad { at })
            }
        }
        Err(error) => Err(error.moved(at)),
    }
}

/// How the marks of a character are read, in a text with so many.
#[derive(Drop)]
struct Entries {
    marks: u8,
}

impl Elements for Entries {
    ghost use Rattle.kind_codec.specs.Marks.{entry_exact, entry_grammar};

    type Item = MarkEntry;

    ghost element = { λ e. entry_grammar e.marks };

    ghost reads = { λ _ _. Unit {0} };

    fn take_next(
        &self,
        alloc: Global,
        before: &[MarkEntry],
        from: &mut ByteIn<'_>,
    ) -> Result<MarkEntry, WireError> {
        take_entry(alloc, self.marks, before, from)
    }

    ghost exact = { λ e. entry_exact e.marks };
}

/// Reads the marks of a character in a text with so many.
pub(crate) fn take_marks(
    alloc: Global,
    marks: u8,
    from: &mut ByteIn<'_>,
) -> Result<Marks, WireError>
    requires { IsInside from.old }
    ensures { Takes (marks_grammar marks) from.old from.new result }
{
    let count = from.take_u8()?;
    let items = take_each(alloc, &Entries { marks }, u32::from(count), from)?;
    Ok(List { items })
}

/// Writes an entry.
pub(crate) fn put_entry(marks: u8, entry: &MarkEntry, out: &mut ByteOut) -> Result<(), NoMemory>
    requires { (entry_parts marks).allows (rules_of out.old) (bytes_of entry.now) }
    ensures { OnOk result (out.new ≡ wrote out.old ((entry_parts marks).spell (rules_of out.old) (bytes_of entry.now))) }
{
    out.put_u8(entry.mark)?;
    entry.key.put(out)?;
    out.put_u8(u8::from(entry.on))
}

/// Writes entries.
fn put_entries(marks: u8, entries: &[MarkEntry], out: &mut ByteOut) -> Result<(), NoMemory>
    requires { (marks_grammar marks).allows (rules_of out.old) entries.now }
    ensures { OnOk result (out.new ≡ wrote out.old (spell_each (entry_grammar marks) (rules_of out.old) [] entries.now)) }
{
    for entry in entries {
        put_entry(marks, entry, out)?;
    }
    Ok(())
}

/// Writes the marks of a character in a text with so many.
pub(crate) fn put_marks(marks: u8, entries: &Marks, out: &mut ByteOut) -> Result<(), NoMemory>
    requires { (marks_grammar marks).allows (rules_of out.old) entries.now }
    ensures { OnOk result (out.new ≡ wrote out.old ((marks_grammar marks).spell (rules_of out.old) entries.now)) }
{
    out.put_u8(entries.items.len() as u8)?;
    put_entries(marks, entries.items.as_slice(), out)
}
