ghost use Rattle.std.specs.Prelude.{◌≤◌};
ghost use Rattle.crdt_laws.specs.Tower.{IsStampOf};

use super::{acted, after, document_of, first_of, with_one};
use action_tables::named_table;
use crdt_laws::{NoMemory, Ops, Tower};
use flag_crdts::{Choice, Fixed, off_wins, on_wins};
use std::alloc::Global;
use std::test::Fail;
use vector_clock::{Clock, Stamp};

// The stamp of the second operation of one of two members, who knows the own first one alone.
fn second_of(member: u8) -> Stamp
    requires { member ≤ 1 }
    ensures { IsStampOf 3 result }
{
    Stamp {
        member,
        clock: Clock::zero(3).with(member, 2),
    }
}

// The flag after two members, who do not know of each other, have each done one thing and then another.
fn crossed(alloc: Global, flag: &Fixed<2, 3>, first: u8, second: u8) -> Result<u8, NoMemory> {
    let ops = with_one(alloc, flag, Ops::new(alloc), first_of(0), first)?;
    let ops = with_one(alloc, flag, ops, first_of(1), first)?;
    let ops = with_one(alloc, flag, ops, second_of(0), second)?;
    let ops = with_one(alloc, flag, ops, second_of(1), second)?;
    document_of(alloc, flag, &ops)
}

// On and then off, twice at once: where on wins, each on has turned the other's off into nothing.
#[test]
fn two_crossed_pairs_of_on_and_off(rt: HostRuntime) -> Result<(), Fail> {
    let alloc = rt.alloc();
    assert_eq!(rt; crossed(alloc, &on_wins(), 2, 1)?, 1);
    assert_eq!(rt; crossed(alloc, &on_wins(), 1, 2)?, 1);
    assert_eq!(rt; crossed(alloc, &off_wins(), 1, 2)?, 0);
    assert_eq!(rt; crossed(alloc, &off_wins(), 2, 1)?, 0);
    Ok(())
}

// What each call gives where one operation of a flag acts on another.
#[test]
fn flags_switch(rt: HostRuntime) -> Result<(), Fail> {
    let alloc = rt.alloc();
    for (flag, strong, weak, left) in [(on_wins(), 2, 1, 1), (off_wins(), 2, 1, 0)] {
        assert_eq!(rt; flag.top(), 2);
        assert_eq!(rt; acted(alloc, &flag, &strong, &weak)?, 0);
        assert_eq!(rt; acted(alloc, &flag, &weak, &strong)?, strong);
        let start = flag.init(alloc)?;
        let state = after(alloc, &flag, start, 0, &weak)?;
        let state = after(alloc, &flag, state, 1, &strong)?;
        let state = flag.settle(alloc, state, &Clock::zero(3))?;
        assert_eq!(rt; flag.copy_state(alloc, &state)?, left);
        let shown = flag.show(alloc, &state)?.to_string(alloc)?;
        assert_eq!(rt; shown.as_str(), if left == 1 { "1" } else { "0" });
        assert!(rt; flag.same_op(&strong, &flag.copy_op(alloc, &strong)?));
        assert!(rt; !flag.same_op(&strong, &weak));
    }
    Ok(())
}

// The flag that is on in the end, entry by entry as its text has it.
#[test]
fn the_flag_is_its_table(rt: HostRuntime) -> Result<(), Fail> {
    let alloc = rt.alloc();
    let text =
        br#"{"ops":[{"act":[0,1,2],"level":1,"name":"none","next":[0,1]},{"act":[0,1,2],"level":1,"name":"off","next":[0,0]},{"act":[0,0,2],"level":2,"name":"on","next":[1,1]}],"start":0,"states":["off","on"]}"#;
    let table = named_table(alloc, text).map_err(|_| NoMemory)?.table;
    let flag = on_wins();
    assert_eq!(rt; table.states, 2);
    assert_eq!(rt; table.start, flag.init(alloc)?);
    assert_eq!(rt; table.level.as_slice(), flag.level.as_slice());
    for (op, (next, act)) in flag.next.iter().zip(&flag.act).enumerate() {
        assert_eq!(rt; &table.next[2 * op..2 * op + 2], next.as_slice());
        assert_eq!(rt; &table.act[3 * op..3 * op + 3], act.as_slice());
    }
    Ok(())
}

// A choice of each number of values: the setting of the highest value turns the setting of the first one into nothing.
#[test]
fn chooses_the_highest(rt: HostRuntime) -> Result<(), Fail> {
    let alloc = rt.alloc();
    for count in 2..9 {
        let choice = Choice::of(count);
        let highest = count - 1;
        assert_eq!(rt; choice.top(), count);
        assert_eq!(rt; acted(alloc, &choice, &highest, &0)?, count);
        assert_eq!(rt; acted(alloc, &choice, &0, &highest)?, highest);
        let start = choice.init(alloc)?;
        let state = after(alloc, &choice, start, 0, &highest)?;
        let state = after(alloc, &choice, state, 1, &count)?;
        let state = choice.settle(alloc, state, &Clock::zero(3))?;
        assert_eq!(rt; choice.copy_state(alloc, &state)?, highest);
        assert_eq!(rt;
            choice.show(alloc, &state)?.as_u64(),
            Some(u64::from(highest))
        );
        assert!(rt; choice.same_op(&count, &choice.copy_op(alloc, &count)?));
        assert!(rt; !choice.same_op(&count, &highest));
    }
    Ok(())
}
