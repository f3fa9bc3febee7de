use super::command_of;
use lab_model::Command;
use std::alloc::Global;
use std::test::Fail;

#[test]
fn reads_commands(rt: HostRuntime) -> Result<(), Fail> {
    for (line, want) in [
        ("new alice 0 @pair", "new alice, member 0"),
        ("new 7.b_c-d 1 @pair", "new 7.b_c-d, member 1"),
        ("edit a n add 0", "edit a, Add 0"),
        ("edit a n mul 10", "edit a, Mul 10"),
        (
            "edit a n mul 9223372036854775807",
            "edit a, Mul 9223372036854775807",
        ),
        ("edit a n add -1", "edit a, Add 18446744073709551615"),
        (
            "edit a n add -9223372036854775808",
            "edit a, Add 9223372036854775808",
        ),
        ("show Z", "show Z"),
        ("export a b", "export a, b"),
        ("merge a b", "merge a, b"),
        ("play", "play"),
        ("check lamp.json", "check lamp.json"),
        (
            "show aaaaaaaaaaaaaaaabbbbbbbbbbbbbbbbccccccccccccccccdddddddddddddddd",
            "show aaaaaaaaaaaaaaaabbbbbbbbbbbbbbbbccccccccccccccccdddddddddddddddd",
        ),
    ] {
        let told = told(rt.alloc(), line.as_bytes())?;
        assert_eq!(rt; told.as_str(), want);
    }
    Ok(())
}

#[test]
fn refuses_other_words(rt: HostRuntime) -> Result<(), Fail> {
    for line in [
        "",
        "show",
        " show a",
        "show  a",
        "show a ",
        "show a b",
        "Show a",
        "stat a",
        "Play",
        "play a",
        "export a",
        "merge a b c",
        "merge .a b",
        "merge a ",
        "show .a",
        "show -a",
        "show _a",
        "show a/b",
        "show a:",
        "show é",
        "show aaaaaaaaaaaaaaaabbbbbbbbbbbbbbbbccccccccccccccccdddddddddddddddde",
        "new a 2 @pair",
        "new a 01 @pair",
        "new a -0 @pair",
        "new a  @pair",
        "new a 0 @trio",
        "new a 0",
        "edit a m add 1",
        "edit a n sub 1",
        "edit a n add",
        "edit a n add 1 2",
    ] {
        let told = told(rt.alloc(), line.as_bytes())?;
        assert_eq!(rt; told.as_str(), "none", "at {line}");
    }
    Ok(())
}

#[test]
fn refuses_other_numbers(rt: HostRuntime) -> Result<(), Fail> {
    for number in [
        "",
        "-",
        "+1",
        "00",
        "07",
        "-0",
        "-07",
        "--1",
        "1x",
        "1-",
        "9223372036854775808",
        "-9223372036854775809",
        "18446744073709551615",
        "18446744073709551616",
        "-18446744073709551617",
        "1000000000000000000000000000000000000000000000000000000000001",
    ] {
        let line = format!(in rt.alloc(); "edit a n add {number}")?;
        let told = told(rt.alloc(), line.as_bytes())?;
        assert_eq!(rt; told.as_str(), "none", "at {number}");
    }
    Ok(())
}

#[test]
fn refuses_other_bytes(rt: HostRuntime) -> Result<(), Fail> {
    for line in [
        b"show a\x80".as_slice(),
        b"show \xff",
        b"show \xc3\xa9",
        b"show a\0",
        b"show a\r",
        b"show\ta",
        b"\xefshow a",
        b"edit a n add 1\x7f",
        b"edit a n add 1\n",
    ] {
        let told = told(rt.alloc(), line)?;
        assert_eq!(rt; told.as_str(), "none");
    }
    Ok(())
}

/// The command that the line is, in words.
fn told(alloc: Global, line: &[u8]) -> Result<String, Fail> {
    let told = match command_of(alloc, line)? {
        None => String::from_str(alloc, "none")?,
        Some(Command::New { file, member }) => format!(in alloc; "new {file}, member {member}")?,
        Some(Command::Edit { file, verb, amount }) => {
            format!(in alloc; "edit {file}, {verb:?} {amount}")?
        }
        Some(Command::Show { file }) => format!(in alloc; "show {file}")?,
        Some(Command::Export { file, batch }) => format!(in alloc; "export {file}, {batch}")?,
        Some(Command::Merge { file, batch }) => format!(in alloc; "merge {file}, {batch}")?,
        Some(Command::Play) => String::from_str(alloc, "play")?,
        Some(Command::Check { table }) => format!(in alloc; "check {table}")?,
    };
    Ok(told)
}
