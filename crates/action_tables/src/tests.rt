ghost use Rattle.std.specs.Prelude.{IsTrue};
ghost use Rattle.vector_clock.specs.Stamp.{IsStamp};
ghost use Rattle.crdt_laws.specs.Tower.{IsWithin};

use crate::{LawfulTable, NamedTable, Shape, Table, TableFault, TableTower, Verdict, named_table};
use crdt_laws::{Names, NoMemory, Tower};
use std::alloc::{AllocError, Global};
use std::test::Fail;
use vector_clock::{Clock, Stamp};

// The flag on which on wins.
const ON_FLAG: &[u8] = br#"{"ops":[{"act":[0,1,2],"level":1,"name":"none","next":[0,1]},
    {"act":[0,1,2],"level":1,"name":"off","next":[0,0]},{"act":[0,0,2],"level":2,"name":"on","next":[1,1]}],
    "start":0,"states":["off","on"]}"#;

// Sets of three elements, to which an element is added, whose elements are moved on, and whose elements are doubled.
const SETS: &[u8] = br#"{"states":["s0","s1","s2","s3","s4","s5","s6","s7"],"start":0,"ops":[
    {"name":"x0","level":1,"next":[1,1,3,3,5,5,7,7],"act":[0,1,2,3,4,5]},
    {"name":"x1","level":1,"next":[2,3,2,3,6,7,6,7],"act":[0,1,2,3,4,5]},
    {"name":"x2","level":1,"next":[4,5,6,7,4,5,6,7],"act":[0,1,2,3,4,5]},
    {"name":"y1","level":2,"next":[0,2,4,6,1,3,5,7],"act":[1,2,0,3,4,5]},
    {"name":"y2","level":2,"next":[0,4,1,5,2,6,3,7],"act":[2,0,1,3,4,5]},
    {"name":"z","level":3,"next":[0,1,4,5,2,3,6,7],"act":[0,2,1,4,3,5]}]}"#;

// What the checker says of the table of this text.
fn verdict_of(alloc: Global, text: &[u8]) -> Result<Verdict, TableFault> {
    Ok(named_table(alloc, text)?.table.check())
}

#[test]
fn names_the_first_broken_case(rt: HostRuntime) -> Result<(), Fail> {
    for (text, want) in [
        (ON_FLAG, Verdict::Lawful),
        (SETS, Verdict::Lawful),
        // y does not leave an operation of its own level as it is
        (
            br#"{"states":["s"],"start":0,"ops":[{"name":"y","level":1,"next":[0],"act":[0,0]},
                {"name":"x","level":1,"next":[0],"act":[0,1]}]}"#
                .as_slice(),
            Verdict::Broken {
                law: 1,
                a: 0,
                b: 1,
                c: 0,
            },
        ),
        // the later one of two wins
        (
            br#"{"ops":[{"act":[0,1],"level":1,"name":"zero","next":[0,0]},
                {"act":[0,1],"level":1,"name":"one","next":[1,1]}],"start":0,"states":["a","b"]}"#
                .as_slice(),
            Verdict::Broken {
                law: 2,
                a: 0,
                b: 1,
                c: 0,
            },
        ),
        // on is to win, and leaves off as it is
        (
            br#"{"ops":[{"act":[0,1,2],"level":1,"name":"none","next":[0,1]},
                {"act":[0,1,2],"level":1,"name":"off","next":[0,0]},{"act":[0,1,2],"level":2,"name":"on","next":[1,1]}],
                "start":0,"states":["off","on"]}"#
                .as_slice(),
            Verdict::Broken {
                law: 3,
                a: 2,
                b: 1,
                c: 0,
            },
        ),
        // y swaps the first two, and v the last two
        (
            br#"{"states":["s"],"start":0,"ops":[{"name":"p","level":1,"next":[0],"act":[0,1,2,3,4]},
                {"name":"q","level":1,"next":[0],"act":[0,1,2,3,4]},{"name":"r","level":1,"next":[0],"act":[0,1,2,3,4]},
                {"name":"y","level":2,"next":[0],"act":[1,0,2,3,4]},{"name":"v","level":2,"next":[0],"act":[0,2,1,3,4]}]}"#
                .as_slice(),
            Verdict::Broken {
                law: 4,
                a: 3,
                b: 4,
                c: 0,
            },
        ),
        // z first makes x of what y would turn into v
        (
            br#"{"states":["s"],"start":0,"ops":[{"name":"x","level":1,"next":[0],"act":[0,1,2,3]},
                {"name":"v","level":1,"next":[0],"act":[0,1,2,3]},{"name":"y","level":2,"next":[0],"act":[1,1,2,3]},
                {"name":"z","level":3,"next":[0],"act":[0,0,2,3]}]}"#
                .as_slice(),
            Verdict::Broken {
                law: 5,
                a: 3,
                b: 2,
                c: 0,
            },
        ),
    ] {
        assert_eq!(rt; verdict_of(rt.alloc(), text), Ok(want));
    }
    Ok(())
}

// Why the text is no table.
fn fault_of(alloc: Global, text: &[u8]) -> Option<TableFault> {
    named_table(alloc, text).err()
}

// Most of the texts are those of one state and one operation, with something changed.
#[test]
fn refuses_what_is_no_table(rt: HostRuntime) -> Result<(), Fail> {
    let form = Some(TableFault::Form);
    let not_json = Some(TableFault::NotJson);
    let name = Some(TableFault::Name);
    let twice = Some(TableFault::Twice);
    let size = Some(TableFault::Shape(Shape::Size));
    let level = Some(TableFault::Shape(Shape::Level));
    for (text, want) in [
        (
            br#"{"ops":[{"act":[0],"level":1,"name":"o","next":[0]}],"start":0,"states":["s"]}"#.as_slice(),
            None,
        ),
        // a key that stands twice: the last value stays
        (
            br#"{"start":9,"ops":[{"act":[0],"level":1,"name":"o","next":[0]}],"states":["s"],"start":0}"#.as_slice(),
            None,
        ),
        (
            br#"{"start":0,"ops":[{"act":[0],"level":1,"name":"o","next":[0]}],"states":["s"],"start":9}"#.as_slice(),
            size,
        ),
        // a name of 32 bytes, and one of 33
        (
            br#"{"ops":[{"act":[0],"level":1,"name":"o","next":[0]}],"start":0,"states":["abcdefghijklmnopqrstuvwxyz_01234"]}"#.as_slice(),
            None,
        ),
        (
            br#"{"ops":[{"act":[0],"level":1,"name":"o","next":[0]}],"start":0,"states":["abcdefghijklmnopqrstuvwxyz_012345"]}"#.as_slice(),
            name,
        ),
        (
            br#"{"ops":[{"act":[0],"level":1,"name":"","next":[0]}],"start":0,"states":["s"]}"#.as_slice(),
            name,
        ),
        (
            br#"{"ops":[{"act":[0],"level":1,"name":"1o","next":[0]}],"start":0,"states":["s"]}"#.as_slice(),
            name,
        ),
        (
            br#"{"ops":[{"act":[0],"level":1,"name":"O","next":[0]}],"start":0,"states":["s"]}"#.as_slice(),
            name,
        ),
        // names before what is said twice, and that before the shape
        (
            br#"{"ops":[{"act":[0],"level":9,"name":"o-","next":[0,0]}],"start":0,"states":["s","s"]}"#.as_slice(),
            name,
        ),
        (
            br#"{"ops":[{"act":[0],"level":9,"name":"o","next":[0]}],"start":0,"states":["s","s"]}"#.as_slice(),
            twice,
        ),
        (
            br#"{"ops":[{"act":[0,1],"level":1,"name":"o","next":[0]},{"act":[0,1],"level":1,"name":"o","next":[0]}],"start":0,"states":["s"]}"#.as_slice(),
            twice,
        ),
        // an operation may have the name of a state
        (
            br#"{"ops":[{"act":[0],"level":1,"name":"s","next":[0]}],"start":0,"states":["s"]}"#.as_slice(),
            None,
        ),
        // no JSON: nothing, a byte order mark, half of a surrogate pair, a byte that is no UTF-8, a rest
        (b"".as_slice(), not_json),
        (b"\xef\xbb\xbf{}".as_slice(), not_json),
        (
            br#"{"ops":[],"start":0,"states":["\ud800"]}"#.as_slice(),
            not_json,
        ),
        (
            b"{\"ops\":[],\"start\":0,\"states\":[\"\xff\"]}".as_slice(),
            not_json,
        ),
        (b"{} {}".as_slice(), not_json),
        // other kinds of values, a key too many and one too few
        (b"[]".as_slice(), form),
        (
            br#"{"ops":[{"act":[0],"level":1,"name":"o","next":[0]}],"start":0,"states":["s"],"top":1}"#.as_slice(),
            form,
        ),
        (
            br#"{"ops":[{"act":[0],"level":1,"name":"o","next":[0]}],"states":["s"]}"#.as_slice(),
            form,
        ),
        (
            br#"{"ops":[{"act":[0],"level":1,"name":"o","next":[0],"top":1}],"start":0,"states":["s"]}"#.as_slice(),
            form,
        ),
        (
            br#"{"ops":[{"act":[0],"name":"o","next":[0]}],"start":0,"states":["s"]}"#.as_slice(),
            form,
        ),
        (
            br#"{"ops":[{"act":[0],"level":1,"name":"o","next":0}],"start":0,"states":["s"]}"#.as_slice(),
            form,
        ),
        (
            br#"{"ops":[{"act":[0],"level":1,"name":0,"next":[0]}],"start":0,"states":["s"]}"#.as_slice(),
            form,
        ),
        // no whole number of 0 to 255
        (
            br#"{"ops":[{"act":[0],"level":2.0,"name":"o","next":[0]}],"start":0,"states":["s"]}"#.as_slice(),
            form,
        ),
        (
            br#"{"ops":[{"act":[0],"level":2e0,"name":"o","next":[0]}],"start":0,"states":["s"]}"#.as_slice(),
            form,
        ),
        (
            br#"{"ops":[{"act":[0],"level":1,"name":"o","next":[-0]}],"start":0,"states":["s"]}"#.as_slice(),
            form,
        ),
        (
            br#"{"ops":[{"act":[-1],"level":1,"name":"o","next":[0]}],"start":0,"states":["s"]}"#.as_slice(),
            form,
        ),
        (
            br#"{"ops":[{"act":[0],"level":1,"name":"o","next":[0]}],"start":256,"states":["s"]}"#.as_slice(),
            form,
        ),
        (
            br#"{"ops":[{"act":[0],"level":1,"name":"o","next":[18446744073709551616]}],"start":0,"states":["s"]}"#.as_slice(),
            form,
        ),
        // the sizes, also where only the sum of two rows is right
        (br#"{"ops":[],"start":0,"states":["s"]}"#.as_slice(), size),
        (
            br#"{"ops":[{"act":[0],"level":1,"name":"o","next":[]}],"start":0,"states":[]}"#.as_slice(),
            size,
        ),
        (
            br#"{"ops":[{"act":[0],"level":1,"name":"o","next":[0]}],"start":255,"states":["s"]}"#.as_slice(),
            size,
        ),
        (
            br#"{"ops":[{"act":[0,1],"level":1,"name":"o","next":[0,0]},{"act":[0,1],"level":1,"name":"p","next":[]}],"start":0,"states":["s"]}"#.as_slice(),
            size,
        ),
        (
            br#"{"ops":[{"act":[0],"level":1,"name":"o","next":[0]},{"act":[0,1,0],"level":1,"name":"p","next":[0]}],"start":0,"states":["s"]}"#.as_slice(),
            size,
        ),
        // levels before entries, and the first entry that is out
        (
            br#"{"ops":[{"act":[1],"level":0,"name":"o","next":[1]}],"start":0,"states":["s"]}"#.as_slice(),
            level,
        ),
        (
            br#"{"ops":[{"act":[0],"level":9,"name":"o","next":[0]}],"start":0,"states":["s"]}"#.as_slice(),
            level,
        ),
        (
            br#"{"ops":[{"act":[9],"level":8,"name":"o","next":[0,2]}],"start":0,"states":["s","t"]}"#.as_slice(),
            Some(TableFault::Shape(Shape::Entry { at: 1 })),
        ),
        (
            br#"{"ops":[{"act":[0,2],"level":1,"name":"o","next":[0]},{"act":[0,1],"level":1,"name":"p","next":[0]}],"start":0,"states":["s"]}"#.as_slice(),
            Some(TableFault::Shape(Shape::Entry { at: 3 })),
        ),
    ] {
        assert_eq!(rt; fault_of(rt.alloc(), text), want);
    }
    Ok(())
}

// The front, so many times the part, and the back.
fn repeated(
    alloc: Global,
    front: &[u8],
    part: &[u8],
    times: usize,
    back: &[u8],
) -> Result<Vec<u8>, AllocError> {
    let mut text = Vec::from_slice(alloc, front)?;
    for _ in 0..times {
        text.extend_from_slice(part)?;
    }
    text.extend_from_slice(back)?;
    Ok(text)
}

#[test]
fn reads_so_many_states_and_so_deep(rt: HostRuntime) -> Result<(), Fail> {
    let alloc = rt.alloc();
    // 255 states are of the form, though two have one name, and 256 are not
    for (others, want) in [(254, TableFault::Twice), (255, TableFault::Form)] {
        let text = repeated(
            alloc,
            br#"{"ops":[],"start":0,"states":["s""#,
            br#","s""#,
            others,
            b"]}",
        )?;
        assert_eq!(rt; fault_of(alloc, &text), Some(want));
    }
    // 127 arrays within each other are JSON, and 128 are not read
    for (depth, want) in [(127, TableFault::Form), (128, TableFault::NotJson)] {
        let open = repeated(alloc, b"", b"[", depth, b"")?;
        let text = repeated(alloc, &open, b"]", depth, b"")?;
        assert_eq!(rt; fault_of(alloc, &text), Some(want));
    }
    Ok(())
}

// What the tower shows after one operation at its first state.
fn shown_after<T: Tower<State = u8, Op = u8>>(
    alloc: Global,
    tower: &T,
    stamp: &Stamp,
    op: u8,
) -> Result<String, NoMemory>
    requires plain { IsTrue (T.meaning tower.now).plain }
    requires stamp { IsStamp stamp.now }
    requires valid { (T.meaning tower.now).valid stamp.now op }
{
    let state = tower.init(alloc)?;
    let state = tower.apply(alloc, state, stamp, &op)?;
    let state = tower.settle(alloc, state, &stamp.clock)?;
    let state = tower.copy_state(alloc, &state)?;
    Ok(tower.show(alloc, &state)?.to_string(alloc)?)
}

// The names, each with a semicolon after it.
fn lined(alloc: Global, names: &Names) -> Result<Vec<u8>, AllocError> {
    let mut line = Vec::new(alloc);
    for name in &names.items {
        line.extend_from_slice(&name.items)?;
        line.extend_from_slice(b";")?;
    }
    Ok(line)
}

// A stamp of the first of two members.
fn first_stamp() -> Stamp
    ensures stamp { IsStamp result }
    ensures within { IsWithin result }
{
    Stamp {
        member: 0,
        clock: Clock::zero(2).with(0, 1),
    }
}

#[test]
fn makes_a_tower_of_a_named_table(rt: HostRuntime) -> Result<(), Fail> {
    let alloc = rt.alloc();
    let NamedTable { table, states, ops } = named_table(alloc, ON_FLAG)?;
    assert_eq!(rt; (table.states, table.start), (2, 0));
    assert_eq!(rt; table.level.as_slice(), [1, 1, 2].as_slice());
    assert_eq!(rt; table.next.as_slice(), [0, 1, 0, 0, 1, 1].as_slice());
    assert_eq!(rt;
        table.act.as_slice(),
        [0, 1, 2, 0, 1, 2, 0, 0, 2].as_slice()
    );
    assert_eq!(rt; lined(alloc, &states)?.as_slice(), b"off;on;".as_slice());
    assert_eq!(rt; lined(alloc, &ops)?.as_slice(), b"none;off;on;".as_slice());
    let lawful = LawfulTable::of(table).map_err(|(_, verdict)| verdict)?;
    let copied = lawful.copy(alloc)?;
    assert_eq!(rt;
        copied.table().act.as_slice(),
        lawful.table().act.as_slice()
    );
    let tower = TableTower::of(copied);
    assert_eq!(rt; tower.top(), 2);
    for (op, want) in [(0, "0"), (1, "0"), (2, "1")] {
        assert!(rt; tower.valid(&first_stamp(), &op));
        assert_eq!(rt; tower.copy_op(alloc, &op)?, op);
        assert_eq!(rt;
            shown_after(alloc, &tower, &first_stamp(), op)?.as_str(),
            want
        );
    }
    assert!(rt; !tower.valid(&first_stamp(), &3));
    Ok(())
}

#[test]
fn gives_a_broken_table_back(rt: HostRuntime) -> Result<(), Fail> {
    let alloc = rt.alloc();
    let level = Vec::from_slice(alloc, &[1, 1])?;
    let next = Vec::from_slice(alloc, &[0, 0, 1, 1])?;
    let act = Vec::from_slice(alloc, &[0, 1, 0, 1])?;
    let table = Table::of_parts(2, 0, level, next, act)?;
    let Err((table, verdict)) = LawfulTable::of(table) else {
        return Err("the table is not lawful".into());
    };
    assert_eq!(rt; table.next.as_slice(), [0, 0, 1, 1].as_slice());
    let want = Verdict::Broken {
        law: 2,
        a: 0,
        b: 1,
        c: 0,
    };
    assert_eq!(rt; verdict, want);
    Ok(())
}
