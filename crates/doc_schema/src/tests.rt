use crate::{Kind, Reset, Schema, SchemaError, TableRefusal};
use action_tables::{Shape, Verdict};
use std::alloc::Global;
use std::test::Fail;

// Why the text is no schema.
fn fault_of(alloc: Global, text: &[u8]) -> Option<SchemaError> {
    if u32::try_from(text.len()).is_err() {
        return None;
    }
    Schema::from_json(alloc, text).err()
}

// The canonical bytes of a copy of the schema of this text, as a string.
fn canonical(alloc: Global, text: &[u8]) -> Result<String, Fail> {
    if u32::try_from(text.len()).is_err() {
        return Ok(String::new(alloc));
    }
    let copy = Schema::from_json(alloc, text)?.copy(alloc)?;
    let bytes = copy.canonical_bytes(alloc)?;
    Ok(String::from_utf8(bytes.items)?)
}

#[test]
fn refuses_the_whole(rt: HostRuntime) -> Result<(), Fail> {
    let not_json = Some(SchemaError::NotJson);
    let shape = Some(SchemaError::Shape { field: 255 });
    let members = |n| Some(SchemaError::Members { n });
    let name = Some(SchemaError::Name { field: 255 });
    for (text, want) in [
        (
            br#"{"doc":"d","members":2,"fields":[{"name":"n","kind":"number"}]}"#.as_slice(),
            None,
        ),
        (b"".as_slice(), not_json),
        (
            br#"{"doc":"d","members":2,"fields":[{"name":"n","kind":"number"}]"#.as_slice(),
            not_json,
        ),
        (b"\"\xff\"".as_slice(), not_json),
        (b"[]".as_slice(), shape),
        (br#"{"doc":"d","members":2}"#.as_slice(), shape),
        (
            br#"{"doc":"d","members":2,"field":[{"name":"n","kind":"number"}]}"#.as_slice(),
            shape,
        ),
        (
            br#"{"doc":"d","members":2,"fields":[{"name":"n","kind":"number"}],"x":0}"#.as_slice(),
            shape,
        ),
        (
            br#"{"doc":1,"members":2,"fields":[{"name":"n","kind":"number"}]}"#.as_slice(),
            shape,
        ),
        (
            br#"{"doc":"d","members":2.0,"fields":[{"name":"n","kind":"number"}]}"#.as_slice(),
            shape,
        ),
        (
            br#"{"doc":"d","members":-1,"fields":[{"name":"n","kind":"number"}]}"#.as_slice(),
            shape,
        ),
        (br#"{"doc":"d","members":2,"fields":[]}"#.as_slice(), shape),
        (br#"{"doc":"d","members":2,"fields":{}}"#.as_slice(), shape),
        (
            br#"{"doc":"d","members":0,"fields":[{"name":"n","kind":"number"}]}"#.as_slice(),
            members(0),
        ),
        (
            br#"{"doc":"d","members":64,"fields":[{"name":"n","kind":"number"}]}"#.as_slice(),
            None,
        ),
        (
            br#"{"doc":"d","members":65,"fields":[{"name":"n","kind":"number"}]}"#.as_slice(),
            members(65),
        ),
        (
            br#"{"doc":"d","members":18446744073709551615,"fields":[{"name":"n","kind":"number"}]}"#.as_slice(),
            members(18_446_744_073_709_551_615),
        ),
        // a whole number that no u64 holds is none
        (
            br#"{"doc":"d","members":18446744073709551616,"fields":[{"name":"n","kind":"number"}]}"#.as_slice(),
            shape,
        ),
        // the members come before the name, and both before the fields
        (
            br#"{"doc":"D","members":65,"fields":[0]}"#.as_slice(),
            members(65),
        ),
        (br#"{"doc":"D","members":2,"fields":[0]}"#.as_slice(), name),
        (br#"{"doc":"","members":2,"fields":[0]}"#.as_slice(), name),
        // a key that stands twice: the last value stays
        (
            br#"{"members":65,"doc":"d","members":2,"fields":[{"name":"n","kind":"number"}]}"#.as_slice(),
            None,
        ),
    ] {
        assert_eq!(rt; fault_of(rt.alloc(), text), want);
    }
    Ok(())
}

#[test]
fn refuses_fields(rt: HostRuntime) -> Result<(), Fail> {
    let shape = |field| Some(SchemaError::Shape { field });
    let name = |field| Some(SchemaError::Name { field });
    let twice = |field| Some(SchemaError::Twice { field });
    let modulus = |field, got| Some(SchemaError::Modulus { field, got });
    for (fields, want) in [
        (r#"{"name":"n","kind":"number"}"#, None),
        ("0", shape(0)),
        (r#"{"name":"n"}"#, shape(0)),
        (r#"{"kind":"number"}"#, shape(0)),
        (r#"{"name":"n","kind":"numbers"}"#, shape(0)),
        (r#"{"name":"n","kind":"number","x":0}"#, shape(0)),
        (r#"{"name":"n","kind":"number","reset":"winning"}"#, None),
        (r#"{"name":"n","kind":"number","reset":"never"}"#, shape(0)),
        (r#"{"name":"n","kind":"number","reset":null}"#, shape(0)),
        // keys of other kinds
        (r#"{"name":"n","kind":"latest","modulus":12}"#, shape(0)),
        (
            r#"{"name":"n","kind":"number","values":["a","b"]}"#,
            shape(0),
        ),
        // a modulus
        (r#"{"name":"n","kind":"number","modulus":2}"#, None),
        (
            r#"{"name":"n","kind":"tally","modulus":18446744073709551615}"#,
            None,
        ),
        (
            r#"{"name":"n","kind":"number","modulus":18446744073709551616}"#,
            shape(0),
        ),
        (r#"{"name":"n","kind":"number","modulus":1.0}"#, shape(0)),
        (r#"{"name":"h","kind":"number","modulus":1}"#, modulus(0, 1)),
        (r#"{"name":"h","kind":"tally","modulus":0}"#, modulus(0, 0)),
        (r#"{"name":"H","kind":"number","modulus":1}"#, modulus(0, 1)),
        // how many values and marks there are
        (r#"{"name":"c","kind":"choice"}"#, shape(0)),
        (r#"{"name":"c","kind":"choice","values":["a"]}"#, shape(0)),
        (r#"{"name":"c","kind":"choice","values":["a","b"]}"#, None),
        (
            r#"{"name":"c","kind":"choice","values":["a","b","c","d","e","f","g","h"]}"#,
            None,
        ),
        (
            r#"{"name":"c","kind":"choice","values":["a","b","c","d","e","f","g","h","i"]}"#,
            shape(0),
        ),
        (r#"{"name":"c","kind":"choice","values":["a",1]}"#, shape(0)),
        (r#"{"name":"r","kind":"rich"}"#, shape(0)),
        (r#"{"name":"r","kind":"rich","marks":[]}"#, shape(0)),
        (r#"{"name":"r","kind":"rich","marks":["a"]}"#, None),
        (
            r#"{"name":"r","kind":"rich","marks":["a","b","c","d","e","f","g","h","i"]}"#,
            shape(0),
        ),
        // names
        (r#"{"name":"N","kind":"number"}"#, name(0)),
        (
            r#"{"name":"c","kind":"choice","values":["a","B"]}"#,
            name(0),
        ),
        (r#"{"name":"r","kind":"rich","marks":["a b"]}"#, name(0)),
        // two values of one name that are no neighbours, and two marks
        (
            r#"{"name":"c","kind":"choice","values":["a","b","a"]}"#,
            twice(0),
        ),
        (
            r#"{"name":"r","kind":"rich","marks":["a","b","a"]}"#,
            twice(0),
        ),
        // a name of the field is looked at before two values of one name, and these before an earlier field
        (
            r#"{"name":"C","kind":"choice","values":["a","a"]}"#,
            name(0),
        ),
        (
            r#"{"name":"n","kind":"number"},{"name":"m","kind":"text"},{"name":"n","kind":"latest"}"#,
            twice(2),
        ),
        (
            r#"{"name":"n","kind":"number"},{"name":"n","kind":"choice","values":["a","B"]}"#,
            name(1),
        ),
        // the first field's faults come before the second one's
        (r#"{"name":"N","kind":"number"},0"#, name(0)),
        (
            r#"{"name":"c","kind":"choice","values":["a","a"]},{"name":"n","kind":"number","modulus":1}"#,
            twice(0),
        ),
        (r#"{"name":"n","kind":"number"},0"#, shape(1)),
        // a table's form
        (r#"{"name":"s","kind":"table"}"#, shape(0)),
        (
            r#"{"name":"s","kind":"table","ops":[],"start":0,"states":[0]}"#,
            shape(0),
        ),
        (
            r#"{"name":"s","kind":"table","ops":[],"start":256,"states":["a"]}"#,
            shape(0),
        ),
        (
            r#"{"name":"s","kind":"table","ops":[],"start":0,"states":["A"]}"#,
            name(0),
        ),
        (
            r#"{"name":"s","kind":"table","ops":[],"start":0,"states":["a","b","a"]}"#,
            twice(0),
        ),
    ] {
        let text = format!(in rt.alloc(); "{{\"doc\":\"d\",\"members\":2,\"fields\":[{fields}]}}")?;
        assert_eq!(rt; fault_of(rt.alloc(), text.as_bytes()), want, "{fields}");
    }
    Ok(())
}

#[test]
fn refuses_tables(rt: HostRuntime) -> Result<(), Fail> {
    let shape = |shape| Some(SchemaError::Table {
        field: 1,
        fault: TableRefusal::Shape(shape),
    });
    let broken = |law, a, b, c| {
        Some(SchemaError::Table {
            field: 1,
            fault: TableRefusal::Broken(Verdict::Broken { law, a, b, c }),
        })
    };
    for (table, want) in [
        (
            r#""ops":[{"act":[0],"level":1,"name":"o","next":[0]}],"start":0,"states":["s"]"#,
            None,
        ),
        (r#""ops":[],"start":0,"states":["s"]"#, shape(Shape::Size)),
        (
            r#""ops":[{"act":[0],"level":1,"name":"o","next":[0]}],"start":1,"states":["s"]"#,
            shape(Shape::Size),
        ),
        (
            r#""ops":[{"act":[0],"level":9,"name":"o","next":[0]}],"start":0,"states":["s"]"#,
            shape(Shape::Level),
        ),
        (
            r#""ops":[{"act":[1],"level":1,"name":"o","next":[0]}],"start":0,"states":["s"]"#,
            shape(Shape::Entry { at: 1 }),
        ),
        // y does not leave an operation of its own level as it is
        (
            r#""ops":[{"name":"y","level":1,"next":[0],"act":[0,0]},{"name":"x","level":1,"next":[0],"act":[0,1]}],"start":0,"states":["s"]"#,
            broken(1, 0, 1, 0),
        ),
        // the later one of two wins
        (
            r#""ops":[{"act":[0,1],"level":1,"name":"zero","next":[0,0]},{"act":[0,1],"level":1,"name":"one","next":[1,1]}],"start":0,"states":["a","b"]"#,
            broken(2, 0, 1, 0),
        ),
        // a state that has the name of an operation is none of two states
        (
            r#""ops":[{"act":[0],"level":1,"name":"s","next":[0]}],"start":0,"states":["s"]"#,
            None,
        ),
    ] {
        let text = format!(in rt.alloc();
            "{{\"doc\":\"d\",\"members\":2,\"fields\":[{{\"name\":\"n\",\"kind\":\"number\"}},{{\"kind\":\"table\",\"name\":\"s\",{table}}}]}}"
        )?;
        assert_eq!(rt; fault_of(rt.alloc(), text.as_bytes()), want, "{table}");
    }
    Ok(())
}

// Each text with its canonical bytes, which are read again as the same schema.
#[test]
fn has_canonical_bytes(rt: HostRuntime) -> Result<(), Fail> {
    let alloc = rt.alloc();
    for (text, want) in [
        (
            br#"{"members":2,"doc":"pair","fields":[{"name":"n","kind":"number"}]}"#.as_slice(),
            r#"{"doc":"pair","fields":[{"kind":"number","name":"n"}],"members":2}"#,
        ),
        (
            br#" { "members" : 3 , "fields" : [ { "name" : "n" , "kind" : "number" } ] , "doc" : "trio" } "#.as_slice(),
            r#"{"doc":"trio","fields":[{"kind":"number","name":"n"}],"members":3}"#,
        ),
        (
            br#"{"doc":"hours","members":2,"fields":[{"name":"h","kind":"number","modulus":12}]}"#.as_slice(),
            r#"{"doc":"hours","fields":[{"kind":"number","modulus":12,"name":"h"}],"members":2}"#,
        ),
        (
            br#"{"doc":"rt","members":2,"fields":[{"name":"r","kind":"rich","marks":["bold","link"]}]}"#.as_slice(),
            r#"{"doc":"rt","fields":[{"kind":"rich","marks":["bold","link"],"name":"r"}],"members":2}"#,
        ),
        (
            br#"{"doc":"plan","members":3,"fields":[{"name":"budget","kind":"number"},{"name":"done","kind":"on_flag"},{"name":"stage","kind":"choice","values":["draft","agreed","booked"]},{"name":"title","kind":"latest"},{"name":"hotels","kind":"several"},{"name":"notes","kind":"text","reset":"winning"},{"name":"votes","kind":"tally","reset":"observed"},{"name":"links","kind":"entries"}]}"#.as_slice(),
            r#"{"doc":"plan","fields":[{"kind":"number","name":"budget"},{"kind":"on_flag","name":"done"},{"kind":"choice","name":"stage","values":["draft","agreed","booked"]},{"kind":"latest","name":"title"},{"kind":"several","name":"hotels"},{"kind":"text","name":"notes","reset":"winning"},{"kind":"tally","name":"votes","reset":"observed"},{"kind":"entries","name":"links"}],"members":3}"#,
        ),
        (
            br#"{"doc":"d","members":2,"fields":[{"name":"f","kind":"off_flag"},{"kind":"table","reset":"winning","name":"s","states":["off","on"],"start":0,"ops":[{"name":"none","level":1,"next":[0,1],"act":[0,1,2]},{"name":"off","level":1,"next":[0,0],"act":[0,1,2]},{"name":"on","level":2,"next":[1,1],"act":[0,0,2]}]}]}"#.as_slice(),
            r#"{"doc":"d","fields":[{"kind":"off_flag","name":"f"},{"kind":"table","name":"s","ops":[{"act":[0,1,2],"level":1,"name":"none","next":[0,1]},{"act":[0,1,2],"level":1,"name":"off","next":[0,0]},{"act":[0,0,2],"level":2,"name":"on","next":[1,1]}],"reset":"winning","start":0,"states":["off","on"]}],"members":2}"#,
        ),
    ] {
        let bytes = canonical(alloc, text)?;
        assert_eq!(rt; bytes.as_str(), want);
        assert_eq!(rt; canonical(alloc, bytes.as_bytes())?.as_str(), want);
    }
    Ok(())
}

#[test]
fn makes_the_built_in_schemas(rt: HostRuntime) -> Result<(), Fail> {
    let alloc = rt.alloc();
    for (schema, members, want) in [
        (
            Schema::pair(alloc)?,
            2,
            r#"{"doc":"pair","fields":[{"kind":"number","name":"n"}],"members":2}"#,
        ),
        (
            Schema::trio(alloc)?,
            3,
            r#"{"doc":"trio","fields":[{"kind":"number","name":"n"}],"members":3}"#,
        ),
    ] {
        assert_eq!(rt; schema.members(), members);
        let bytes = schema.canonical_bytes(alloc)?;
        assert_eq!(rt; bytes.items.len(), 66);
        assert_eq!(rt; bytes.items.as_slice(), want.as_bytes());
    }
    Ok(())
}

// A text of this many fields, with this many blanks before it.
fn many_fields(alloc: Global, fields: usize, blanks: usize) -> Result<String, Fail> {
    let mut text = String::new(alloc);
    for _ in 0..blanks {
        text.push(' ')?;
    }
    text.push_str(r#"{"doc":"d","members":2,"fields":["#)?;
    for at in 0..fields {
        if at > 0 {
            text.push(',')?;
        }
        let field = format!(in alloc; "{{\"name\":\"f{at}\",\"kind\":\"number\"}}")?;
        text.push_str(field.as_str())?;
    }
    text.push_str("]}")?;
    Ok(text)
}

#[test]
fn has_limits(rt: HostRuntime) -> Result<(), Fail> {
    let alloc = rt.alloc();
    let shape = Some(SchemaError::Shape { field: 255 });
    assert_eq!(rt;
        fault_of(alloc, many_fields(alloc, 64, 0)?.as_bytes()),
        None
    );
    assert_eq!(rt;
        fault_of(alloc, many_fields(alloc, 65, 0)?.as_bytes()),
        shape
    );
    let short = many_fields(alloc, 1, 0)?.len();
    assert!(rt; short < 65_536);
    let most = many_fields(alloc, 1, 65_536 - short)?;
    assert_eq!(rt; fault_of(alloc, most.as_bytes()), None);
    let long = many_fields(alloc, 1, 65_537 - short)?;
    assert_eq!(rt;
        fault_of(alloc, long.as_bytes()),
        Some(SchemaError::Long { bytes: 65_537 })
    );
    Ok(())
}

#[test]
fn knows_its_fields(rt: HostRuntime) -> Result<(), Fail> {
    let text =
        br#"{"doc":"d","members":5,"fields":[{"name":"a","kind":"tally","modulus":7,"reset":"observed"},{"name":"b","kind":"text"}]}"#;
    let schema = Schema::from_json(rt.alloc(), text.as_slice())?;
    assert_eq!(rt; schema.members(), 5);
    assert_eq!(rt; schema.place_of(b"b"), Some(1));
    assert_eq!(rt; schema.place_of(b"c"), None);
    let field = schema.fields.get(0).ok_or("no field")?;
    assert_eq!(rt; field.reset, Reset::Observed);
    assert!(rt; matches!(&field.kind, Kind::Tally { modulus: 7 }));
    Ok(())
}

#[test]
fn prints_faults(rt: HostRuntime) -> Result<(), Fail> {
    let shape = |shape| SchemaError::Table {
        field: 3,
        fault: TableRefusal::Shape(shape),
    };
    let verdict = Verdict::Broken {
        law: 3,
        a: 2,
        b: 1,
        c: 0,
    };
    for (fault, want) in [
        (SchemaError::Long { bytes: 65_537 }, "long 65537"),
        (SchemaError::NotJson, "not-json"),
        (SchemaError::Shape { field: 255 }, "shape 255"),
        (SchemaError::Members { n: 65 }, "members 65"),
        (SchemaError::Modulus { field: 0, got: 1 }, "modulus 0 1"),
        (SchemaError::Name { field: 2 }, "name 2"),
        (SchemaError::Twice { field: 2 }, "twice 2"),
        (shape(Shape::Size), "table 3 size"),
        (shape(Shape::Level), "table 3 level"),
        (shape(Shape::Entry { at: 9 }), "table 3 entry 9"),
        (
            SchemaError::Table {
                field: 3,
                fault: TableRefusal::Broken(verdict),
            },
            "table 3 broken 3 2 1 0",
        ),
        (SchemaError::NoMemory, "no-memory"),
    ] {
        let text = format!(in rt.alloc(); "{fault}")?;
        assert_eq!(rt; text.as_str(), want);
    }
    Ok(())
}
