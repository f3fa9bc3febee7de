use super::*;
use action_tables::{Shape, TableFault, Verdict};
use doc_schema::{SchemaError, TableRefusal};
use kind_edits::EditError;
use std::alloc::{AllocError, Global};
use std::test::Fail;

// The parts of a command.
fn parts_of(alloc: Global, command: &Command) -> Result<String, AllocError> {
    match command {
        Command::New {
            file,
            member,
            schema,
        } => format!(in alloc; "new|{file}|{member}|{schema}"),
        Command::Edit {
            file,
            field,
            verb,
            rest,
        } => format!(in alloc; "edit|{file}|{field}|{verb}|{rest}"),
        Command::Show { file } => format!(in alloc; "show|{file}"),
        Command::Stat { file } => format!(in alloc; "stat|{file}"),
        Command::Export {
            file,
            batch,
            to: None,
        } => format!(in alloc; "export|{file}|{batch}"),
        Command::Export {
            file,
            batch,
            to: Some(to),
        } => format!(in alloc; "export|{file}|{batch}|{to}"),
        Command::Merge { file, batch } => format!(in alloc; "merge|{file}|{batch}"),
        Command::Play => format!(in alloc; "play"),
        Command::Check { table } => format!(in alloc; "check|{table}"),
        Command::Gen {
            start,
            members,
            steps,
        } => format!(in alloc; "gen|{start}|{members}|{steps}"),
        Command::Upgrade { file } => format!(in alloc; "upgrade|{file}"),
    }
}

// The parts of the command that a line is, or `none`.
fn parts(alloc: Global, line: &[u8]) -> Result<String, Fail> {
    match command_of(alloc, line)? {
        Some(command) => Ok(parts_of(alloc, &command)?),
        None => Ok(String::from_str(alloc, "none")?),
    }
}

#[test]
fn reads_each_line_and_no_other(rt: HostRuntime) -> Result<(), Fail> {
    let alloc = rt.alloc();
    for (line, want) in [
        ("new a 0 @pair", "new|a|0|@pair"),
        ("new 7.b_C-d 99 @trio", "new|7.b_C-d|99|@trio"),
        ("new a 0 plan.json", "new|a|0|plan.json"),
        ("new a 0", "none"),
        ("new a 0 @pair x", "none"),
        ("new a 0 @pairs", "none"),
        ("new a 100 @pair", "none"),
        ("new a 01 @pair", "none"),
        ("new a -1 @pair", "none"),
        ("new a x @pair", "none"),
        ("new .a 0 @pair", "none"),
        ("new a/b 0 @pair", "none"),
        ("edit a n add -5", "edit|a|n|add|-5"),
        (
            "edit a t insert 0  two  words ",
            "edit|a|t|insert|0  two  words ",
        ),
        ("edit a title set café", "edit|a|title|set|café"),
        ("edit a * clear", "edit|a|*|clear|"),
        ("edit a * clear ", "edit|a|*|clear|"),
        ("edit a n", "none"),
        ("edit a", "none"),
        ("edit a  add 1", "none"),
        ("edit a n  1", "none"),
        ("edit a n ", "none"),
        ("edit -a n add 1", "none"),
        ("edit a t insert 0 a\tb", "none"),
        ("show a", "show|a"),
        (
            "show aaaaaaaaaaaaaaaabbbbbbbbbbbbbbbbccccccccccccccccdddddddddddddddd",
            "show|aaaaaaaaaaaaaaaabbbbbbbbbbbbbbbbccccccccccccccccdddddddddddddddd",
        ),
        (
            "show aaaaaaaaaaaaaaaabbbbbbbbbbbbbbbbccccccccccccccccdddddddddddddddde",
            "none",
        ),
        ("show  a", "none"),
        (" show a", "none"),
        ("show a ", "none"),
        ("show\ta", "none"),
        ("show a\r", "none"),
        ("show a b", "none"),
        ("show", "none"),
        ("Show a", "none"),
        ("show é", "none"),
        ("stat a", "stat|a"),
        ("stat", "none"),
        ("export a x", "export|a|x"),
        ("export a x 0", "export|a|x|0"),
        ("export a x 99", "export|a|x|99"),
        ("export a x 100", "none"),
        ("export a x 01", "none"),
        ("export a x 1 2", "none"),
        ("export a x ", "none"),
        ("export a", "none"),
        ("merge a x", "merge|a|x"),
        ("merge a", "none"),
        ("merge a x 1", "none"),
        ("play", "play"),
        ("play a", "none"),
        ("play ", "none"),
        ("check t", "check|t"),
        ("check", "none"),
        ("gen 7 3 2000", "gen|7|3|2000"),
        ("gen 0 2 1", "gen|0|2|1"),
        ("gen 65535 8 100000", "gen|65535|8|100000"),
        ("gen 65536 8 100000", "none"),
        ("gen 7 1 10", "none"),
        ("gen 7 9 10", "none"),
        ("gen 7 2 0", "none"),
        ("gen 7 2 100001", "none"),
        ("gen 7 2", "none"),
        ("gen 18446744073709551623 2 10", "none"),
        ("upgrade a", "upgrade|a"),
        ("upgrade", "none"),
        ("upgrade a b", "none"),
        ("", "none"),
        (" ", "none"),
        ("frob", "none"),
    ] {
        let told = parts(alloc, line.as_bytes())?;
        assert_eq!(rt; told.as_str(), want, "{line}");
    }
    let told = parts(alloc, b"edit a t set \xff")?;
    assert_eq!(rt; told.as_str(), "none");
    Ok(())
}

#[test]
fn writes_lines_as_they_are_read(rt: HostRuntime) -> Result<(), Fail> {
    let alloc = rt.alloc();
    for line in [
        "new a 12 plan.json",
        "new a 0 @trio",
        "edit a * clear",
        "edit a t insert 3 two  words ",
        "show a",
        "stat a",
        "export a x",
        "export a x 7",
        "merge a x",
        "play",
        "check t",
        "gen 7 3 2000",
        "upgrade a",
    ] {
        if let Some(command) = command_of(alloc, line.as_bytes())? {
            let text = format!(in alloc; "{command}")?;
            assert_eq!(rt; text.as_str(), line);
        } else {
            assert!(rt; false, "{line}");
        }
    }
    Ok(())
}

#[test]
fn prints_causes(rt: HostRuntime) -> Result<(), Fail> {
    let alloc = rt.alloc();
    let name = FileName::of(alloc, "ana.save")?;
    assert!(rt; name.is(&FileName::of(alloc, "ana.save")?));
    assert_eq!(rt; name.as_str(), "ana.save");
    assert_eq!(rt; Part::of(alloc, "add")?.as_str(), "add");
    let missing = format!(in alloc; "{}", Refusal::Missing(name))?;
    assert_eq!(rt; missing.as_str(), "missing ana.save");
    for (refusal, text) in [
        (Refusal::Usage, "usage"),
        (Refusal::NotSave { at: 104 }, "not-save 104"),
        (Refusal::BatchVersion { got: 1 }, "batch-version 1"),
        (Refusal::OtherDocument, "other-document"),
        (Refusal::BadOp { member: 1, seq: 2 }, "bad-op 1 2"),
        (Refusal::Rollback { mine: 1, got: 2 }, "rollback 1 2"),
        (Refusal::Fork { member: 0, seq: 2 }, "fork 0 2"),
        (Refusal::Edit(EditError::IndexOut { len: 3 }), "index-out 3"),
        (Refusal::SeqFull { seq: 1_000_000 }, "seq-full 1000000"),
        (Refusal::Full { count: 50_001 }, "full 50001"),
        (Refusal::Member { member: 3 }, "member 3"),
        (
            Refusal::Schema(SchemaError::Shape { field: 255 }),
            "schema shape 255",
        ),
        (
            Refusal::Schema(SchemaError::Table {
                field: 2,
                fault: TableRefusal::Broken(Verdict::Broken {
                    law: 2,
                    a: 0,
                    b: 1,
                    c: 0,
                }),
            }),
            "schema table 2 broken 2 0 1 0",
        ),
        (
            Refusal::Table(TableFault::Shape(Shape::Entry { at: 5 })),
            "table entry 5",
        ),
    ] {
        let told = format!(in alloc; "{refusal}")?;
        assert_eq!(rt; told.as_str(), text);
    }
    Ok(())
}
