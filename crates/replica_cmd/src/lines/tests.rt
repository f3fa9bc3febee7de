use super::lines_of;
use std::test::Fail;

#[test]
fn cuts_scripts(rt: HostRuntime) -> Result<(), Fail> {
    let none: &[&[u8]] = &[];
    for (script, want) in [
        (b"".as_slice(), none),
        (b"\n\n", none),
        (b"\r\n#\r\n# show a", none),
        (b"show a", &[b"show a"]),
        (b"show a\n", &[b"show a"]),
        (b"show a\r\nshow b", &[b"show a", b"show b"]),
        (b"show a\r", &[b"show a"]),
        (b"show a\r\r\n", &[b"show a\r"]),
        (b"\xff\n \n #\na\rb", &[b"\xff", b" ", b" #", b"a\rb"]),
    ] {
        let lines = lines_of(rt.alloc(), script)?;
        assert_eq!(rt; lines.as_slice(), want);
    }
    Ok(())
}
