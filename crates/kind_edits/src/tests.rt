use super::*;
use crdt_laws::{Names, Txt};
use semidirect_product::StackOp;
use std::alloc::{AllocError, Global};
use std::test::Fail;

// `ok` where an edit is accepted, and else what its refusal prints.
fn told<Op: Drop>(alloc: Global, edit: Result<Op, EditError>) -> Result<String, AllocError> {
    match edit {
        Ok(_) => String::from_str(alloc, "ok"),
        Err(fault) => format!(in alloc; "{fault}"),
    }
}

// The letter so many times, and then the text.
fn letters(alloc: Global, count: usize, then: &str) -> Result<String, AllocError> {
    let mut text = String::new(alloc);
    for _ in 0..count {
        text.push('a')?;
    }
    text.push_str(then)?;
    Ok(text)
}

#[test]
fn numbers(rt: HostRuntime) -> Result<(), Fail> {
    let alloc = rt.alloc();
    for (verb, rest, text) in [
        ("add", "7", "ok"),
        ("mul", "-9223372036854775808", "ok"),
        ("mul", "9223372036854775807", "ok"),
        ("sub", "1", "no-verb"),
        ("add", "", "no-verb"),
        ("add", "1 ", "no-verb"),
        ("add", " 1", "no-verb"),
        ("add", "1 2", "no-verb"),
        ("add", "one", "bad-number"),
        ("add", "+1", "bad-number"),
        ("add", "01", "bad-number"),
        ("add", "-0", "bad-number"),
        ("add", "-", "bad-number"),
        ("mul", "-9223372036854775809", "bad-number"),
        ("mul", "9223372036854775808", "bad-number"),
    ] {
        let got = told(alloc, prepare_number(12, verb, rest))?;
        assert_eq!(rt; got.as_str(), text, "{verb} {rest}");
    }
    let greatest = 18446744073709551615;
    assert_eq!(rt; prepare_number(12, "add", "-8")?, StackOp::Low(4));
    assert_eq!(rt; prepare_number(12, "mul", "17")?, StackOp::High(5));
    assert_eq!(rt; prepare_number(0, "add", "-1")?, StackOp::Low(greatest));
    assert_eq!(rt;
        prepare_number(greatest, "add", "-1")?,
        StackOp::Low(greatest - 1)
    );
    assert_eq!(rt; count_of("4294967295"), Some(4294967295));
    assert_eq!(rt; count_of("4294967296"), None);
    Ok(())
}

#[test]
fn flags_choices_and_tables(rt: HostRuntime) -> Result<(), Fail> {
    let alloc = rt.alloc();
    for (verb, rest, on_flag, off_flag) in [
        ("on", "", Some(2), Some(1)),
        ("off", "", Some(1), Some(2)),
        ("on", " ", None, None),
        ("off", "now", None, None),
        ("On", "", None, None),
        ("", "", None, None),
    ] {
        assert_eq!(rt; prepare_on_flag(verb, rest).ok(), on_flag, "{verb} {rest}");
        assert_eq!(rt;
            prepare_off_flag(verb, rest).ok(),
            off_flag,
            "{verb} {rest}"
        );
    }
    let mut items = Vec::new(alloc);
    for name in ["draft", "agreed", "booked"] {
        items.push(Txt {
            items: Vec::from_slice(alloc, name.as_bytes())?,
        })?;
    }
    assert_eq!(rt; items.len(), 3);
    let names = Names { items };
    for (verb, rest, choice, table) in [
        ("set", "draft", Some(0), None),
        ("set", "booked", Some(2), None),
        ("do", "agreed", None, Some(1)),
        ("set", "Draft", None, None),
        ("do", "draft ", None, None),
        ("set", "", None, None),
        ("do", "", None, None),
    ] {
        assert_eq!(rt;
            prepare_choice(&names, verb, rest).ok(),
            choice,
            "{verb} {rest}"
        );
        assert_eq!(rt;
            prepare_table(&names, verb, rest).ok(),
            table,
            "{verb} {rest}"
        );
    }
    Ok(())
}

#[test]
fn registers(rt: HostRuntime) -> Result<(), Fail> {
    let alloc = rt.alloc();
    for text in ["Trip", "", " a  b "] {
        let op = prepare_register(alloc, "set", text)?;
        assert_eq!(rt; op.items.as_slice(), text.as_bytes());
    }
    for (count, then, text) in [
        (1024, "", "ok"),
        (1025, "", "text-long 1025"),
        (1022, "é", "ok"),
        (1023, "é", "text-long 1025"),
    ] {
        let rest = letters(alloc, count, then)?;
        let got = told(alloc, prepare_register(alloc, "set", rest.as_str()))?;
        assert_eq!(rt; got.as_str(), text, "{count} {then}");
    }
    let got = told(alloc, prepare_register(alloc, "put", "Trip"))?;
    assert_eq!(rt; got.as_str(), "no-verb");
    Ok(())
}

#[test]
fn tallies(rt: HostRuntime) -> Result<(), Fail> {
    let alloc = rt.alloc();
    let op = prepare_tally(alloc, 0, "add", "ann 1")?;
    assert_eq!(rt; op.key.items.as_slice(), b"ann".as_slice());
    assert_eq!(rt; op.op, StackOp::Low(1));
    for (count, then, text) in [
        (3, " -1", "ok"),
        (256, " 1", "ok"),
        (0, "", "no-verb"),
        (0, " 1", "no-verb"),
        (3, "", "no-verb"),
        (3, " ", "no-verb"),
        (3, "  1", "no-verb"),
        (3, " 1 ", "no-verb"),
        (257, "", "no-verb"),
        (257, " 1", "key-long 257"),
        (257, " one", "key-long 257"),
        (256, " one", "bad-number"),
    ] {
        let rest = letters(alloc, count, then)?;
        let got = told(alloc, prepare_tally(alloc, 0, "mul", rest.as_str()))?;
        assert_eq!(rt; got.as_str(), text, "{count} {then}");
    }
    Ok(())
}

#[test]
fn entries(rt: HostRuntime) -> Result<(), Fail> {
    let alloc = rt.alloc();
    for (rest, key, text) in [
        ("map m.example/1", "map", "m.example/1"),
        ("map", "map", ""),
        ("map ", "map", ""),
        ("map  a b ", "map", " a b "),
    ] {
        let op = prepare_entry(alloc, "put", rest)?;
        assert_eq!(rt; op.key.items.as_slice(), key.as_bytes());
        assert_eq!(rt; op.op.items.as_slice(), text.as_bytes());
    }
    let long = letters(alloc, 1025, "")?;
    let short = letters(alloc, 1024, "")?;
    for (count, last, text) in [
        (0, short.as_str(), "no-verb"),
        (256, short.as_str(), "ok"),
        (257, short.as_str(), "key-long 257"),
        (257, long.as_str(), "key-long 257"),
        (256, long.as_str(), "text-long 1025"),
    ] {
        let mut rest = letters(alloc, count, " ")?;
        rest.push_str(last)?;
        let got = told(alloc, prepare_entry(alloc, "put", rest.as_str()))?;
        assert_eq!(rt; got.as_str(), text, "{count}");
    }
    let got = told(alloc, prepare_entry(alloc, "set", "map a"))?;
    assert_eq!(rt; got.as_str(), "no-verb");
    Ok(())
}

// What is printed of the refusals that these kinds do not have.
#[test]
fn refusals(rt: HostRuntime) -> Result<(), Fail> {
    let alloc = rt.alloc();
    for (fault, text) in [
        (EditError::NoField, "no-field"),
        (EditError::IndexOut { len: 3 }, "index-out 3"),
        (EditError::PositionFull { steps: 33 }, "position-full 33"),
        (EditError::NoMemory, "no-memory"),
    ] {
        let got = format!(in alloc; "{fault}")?;
        assert_eq!(rt; got.as_str(), text);
    }
    Ok(())
}
