ghost use Rattle.std.specs.Prelude.{◌≤◌, length};

use crate::{
    ByteIn, ByteOut, ClockForm, Wire, WireError, put_char, put_map_key, put_text, take_char,
    take_map_key, take_text,
};
use crdt_laws::Bytes;
use std::alloc::Global;
use std::test::*;
use vector_clock::{Clock, Key, Stamp};

#[derive(Clone, Copy, Debug)]
enum Field {
    OneByte,
    TwoBytes,
    FourBytes,
    EightBytes,
    Clock,
    Stamp,
    Key,
    Text,
    MapKey,
    Char,
}

// Reads the value that begins at place 1, and gives the place behind it and the bytes that it is written as again.
fn take_and_put<W: Wire + Drop>(
    alloc: Global,
    form: ClockForm,
    bytes: &[u8],
) -> Result<(u32, Bytes), WireError>
    requires some { 1 ≤ length bytes.now }
    requires few { length bytes.now ≤ 4294967295 }
{
    let mut from = ByteIn {
        bytes,
        at: 1,
        n: 3,
        form,
    };
    let value = W::take(alloc, &mut from)?;
    let mut out = ByteOut {
        bytes: Bytes {
            items: Vec::new(alloc),
        },
        n: 3,
        form,
    };
    value.put(&mut out)?;
    Ok((from.at, out.bytes))
}

fn take_and_put_text(alloc: Global, field: Field, bytes: &[u8]) -> Result<(u32, Bytes), WireError>
    requires some { 1 ≤ length bytes.now }
    requires few { length bytes.now ≤ 4294967295 }
{
    let form = ClockForm::Sparse;
    let mut from = ByteIn {
        bytes,
        at: 1,
        n: 3,
        form,
    };
    let mut out = ByteOut {
        bytes: Bytes {
            items: Vec::new(alloc),
        },
        n: 3,
        form,
    };
    match field {
        Field::Text => {
            let text = take_text(alloc, &mut from)?;
            put_text(&text, &mut out)?;
        }
        Field::MapKey => {
            let key = take_map_key(alloc, &mut from)?;
            put_map_key(&key, &mut out)?;
        }
        _ => {
            let character = take_char(&mut from)?;
            put_char(character, &mut out)?;
        }
    }
    Ok((from.at, out.bytes))
}

fn there_and_back(
    alloc: Global,
    field: Field,
    form: ClockForm,
    bytes: &[u8],
) -> Result<(u32, Bytes), WireError>
    requires some { 1 ≤ length bytes.now }
    requires few { length bytes.now ≤ 4294967295 }
{
    match field {
        Field::OneByte => take_and_put::<u8>(alloc, form, bytes),
        Field::TwoBytes => take_and_put::<u16>(alloc, form, bytes),
        Field::FourBytes => take_and_put::<u32>(alloc, form, bytes),
        Field::EightBytes => take_and_put::<u64>(alloc, form, bytes),
        Field::Clock => take_and_put::<Clock>(alloc, form, bytes),
        Field::Stamp => take_and_put::<Stamp>(alloc, form, bytes),
        Field::Key => take_and_put::<Key>(alloc, form, bytes),
        Field::Text | Field::MapKey | Field::Char => take_and_put_text(alloc, field, bytes),
    }
}

// Each field behind one byte, in a document of three members: it is read and written again; each of its proper prefixes is
// short; and with one byte forged it is whole and not allowed.
#[test]
fn fields(rt: HostRuntime) -> Result<(), Fail> {
    use ClockForm::{Dense, Sparse};
    let rows: [(Field, ClockForm, &[u8]); 14] = [
        (Field::OneByte, Sparse, &[9, 255]),
        (Field::TwoBytes, Sparse, &[9, 1, 2]),
        (Field::FourBytes, Sparse, &[9, 1, 2, 3, 4]),
        (Field::EightBytes, Sparse, &[9, 1, 2, 3, 4, 5, 6, 7, 8]),
        (
            Field::Clock,
            Dense,
            &[9, 0, 0, 0, 1, 0, 0, 0, 0, 0, 15, 66, 64],
        ),
        (
            Field::Clock,
            Sparse,
            &[9, 2, 0, 0, 0, 0, 1, 2, 0, 15, 66, 64],
        ),
        (Field::Clock, Sparse, &[9, 0]),
        (
            Field::Stamp,
            Dense,
            &[9, 1, 0, 0, 0, 0, 0, 0, 0, 2, 0, 0, 0, 0],
        ),
        (Field::Stamp, Sparse, &[9, 1, 1, 1, 0, 0, 0, 2]),
        (
            Field::Key,
            Sparse,
            &[9, 0, 0, 0, 0, 0, 45, 198, 192, 2, 0, 15, 66, 64],
        ),
        (Field::Text, Sparse, &[9, 0, 2, 195, 169]),
        (Field::Text, Sparse, &[9, 0, 0]),
        (Field::MapKey, Sparse, &[9, 0, 1, 107]),
        (Field::Char, Sparse, &[9, 0, 0, 0, 97]),
    ];
    for (field, form, bytes) in rows {
        assert!(rt; 1 <= bytes.len() && bytes.len() <= 100);
        let (at, again) = there_and_back(rt.alloc(), field, form, bytes)
            .ok()
            .ok_or("not read")?;
        assert_eq!(rt; at as usize, bytes.len());
        assert_eq!(rt; again.items.as_slice(), &bytes[1..]);
        for end in 1..bytes.len() {
            let short = there_and_back(rt.alloc(), field, form, &bytes[..end]).err();
            assert_eq!(rt;
                short,
                Some(WireError::Short { at: 1 }),
                "{end} bytes of {field:?}"
            );
        }
    }
    // which row, which of its bytes, and what it is in place of the right one
    let forged = [
        // an entry above 1,000,000
        (4, 12, 65),
        // an entry of 0, one above 1,000,000, a member twice, and one that the document has not
        (5, 6, 0),
        (5, 11, 65),
        (5, 7, 0),
        (5, 7, 3),
        // the stamp of a member without an operation, and of one that the document has not
        (7, 1, 0),
        (7, 1, 3),
        (8, 1, 0),
        (8, 1, 3),
        (8, 7, 0),
        // a sum above three times 1,000,000, a member that the document has not, and a sequence number above 1,000,000
        (9, 8, 193),
        (9, 9, 3),
        (9, 13, 65),
        // no UTF-8
        (10, 4, 40),
        (12, 3, 255),
        // a surrogate, and a number above that of the last character
        (13, 3, 216),
        (13, 2, 17),
    ];
    for (row, place, byte) in forged {
        let (field, form, bytes) = *rows.get(row).ok_or("no row")?;
        let mut bad = Vec::from_slice(rt.alloc(), bytes)?;
        if let Some(old) = bad.get_mut(place) {
            *old = byte;
        }
        assert!(rt; 1 <= bad.len() && bad.len() <= 100);
        let fault = there_and_back(rt.alloc(), field, form, bad.as_slice()).err();
        assert_eq!(rt;
            fault,
            Some(WireError::Bad { at: 1 }),
            "{byte} at {place} of {field:?}"
        );
    }
    Ok(())
}

// A text has at most 1,024 bytes, and a key 1 to 256.
#[test]
fn lengths(rt: HostRuntime) -> Result<(), Fail> {
    let rows = [
        (Field::Text, 1024, true),
        (Field::Text, 1025, false),
        (Field::MapKey, 0, false),
        (Field::MapKey, 256, true),
        (Field::MapKey, 257, false),
    ];
    for (field, length, allowed) in rows {
        let mut bytes = Vec::from_slice(
            rt.alloc(),
            &[9, (length / 256) as u8, (length % 256) as u8],
        )?;
        for _ in 0..length {
            bytes.push(b'a')?;
        }
        assert!(rt; 1 <= bytes.len() && bytes.len() <= 2000);
        let taken = there_and_back(rt.alloc(), field, ClockForm::Sparse, bytes.as_slice());
        if allowed {
            assert!(rt; matches!(taken, Ok((at, _)) if at as usize == bytes.len()));
        } else {
            assert_eq!(rt; taken.err(), Some(WireError::Bad { at: 1 }));
        }
    }
    Ok(())
}

// A count above the members of the document: the field is looked at when it is whole.
#[test]
fn too_many_entries(rt: HostRuntime) {
    let bytes = [
        4, 0, 0, 0, 0, 1, 1, 0, 0, 0, 1, 2, 0, 0, 0, 1, 3, 0, 0, 0, 1,
    ];
    for (end, fault) in [
        (20, WireError::Short { at: 0 }),
        (21, WireError::Bad { at: 0 }),
    ] {
        let mut from = ByteIn {
            bytes: &bytes[..end],
            at: 0,
            n: 3,
            form: ClockForm::Sparse,
        };
        assert_eq!(rt; Clock::take(rt.alloc(), &mut from).err(), Some(fault));
    }
}
