ghost use Rattle.std.specs.Prelude.{◌≡◌, ◌≤◌};
ghost use Rattle.vector_clock.specs.Clock.{IsClock, count};

use crate::{Clock, Id, Key, Stamp};

// A clock of three members.
fn knows(first: u32, second: u32, third: u32) -> Clock
    requires first { first ≤ 9 }
    requires second { second ≤ 9 }
    requires third { third ≤ 9 }
    ensures clock { IsClock result }
    ensures members { result.n ≡ 3 }
    ensures first { count result 0 ≡ first }
    ensures second { count result 1 ≡ second }
    ensures third { count result 2 ≡ third }
{
    Clock::zero(3).with(0, first).with(1, second).with(2, third)
}

fn key_of((sum, member, seq): (u64, u8, u32)) -> Key {
    Key { sum, member, seq }
}

#[test]
fn orders_operations(rt: HostRuntime) {
    let first = Stamp {
        member: 0,
        clock: knows(1, 0, 0),
    };
    let beside = Stamp {
        member: 2,
        clock: knows(0, 0, 1),
    };
    let after = Stamp {
        member: 1,
        clock: knows(1, 1, 0),
    };
    let first_key = Key {
        sum: 1,
        member: 0,
        seq: 1,
    };
    assert_eq!(rt; first.key(), first_key);
    assert_eq!(rt; after.id(), Id { member: 1, seq: 1 });
    assert!(rt; first.key() < beside.key() && beside.key() < after.key());
    assert!(rt; first.before(&after) && !after.before(&first) && !first.before(&first));
    assert!(rt; first.concurrent(&beside) && after.concurrent(&beside));
    assert!(rt; !first.concurrent(&after) && !first.concurrent(&first));
}

#[test]
fn joins_and_meets(rt: HostRuntime) {
    let left = knows(5, 1, 0);
    let right = knows(2, 7, 0);
    assert_eq!(rt; left.join(&right), knows(5, 7, 0));
    assert_eq!(rt; left.meet(&right), knows(2, 1, 0));
    assert_eq!(rt; left.sum(), 6);
    assert_eq!(rt; left.count(0), 5);
    assert_eq!(rt; left.count(20), 0);
    assert!(rt; left.covers(Id { member: 0, seq: 5 }) && !left.covers(Id { member: 0, seq: 6 }));
    assert!(rt; !left.le(&right) && !right.le(&left) && left.le(&knows(5, 1, 1)));
}

// The last member of the largest document counts as the others do.
#[test]
fn counts_sixty_four_members(rt: HostRuntime) {
    let last = Clock::zero(64).with(63, 7);
    assert_eq!(rt; last.count(63), 7);
    assert_eq!(rt; last.sum(), 7);
    assert!(rt; Clock::zero(64).le(&last) && !last.le(&Clock::zero(64)));
    assert_eq!(rt; last.join(&Clock::zero(64).with(0, 2)).sum(), 9);
    assert_eq!(rt; last.meet(&Clock::zero(64).with(0, 2)), Clock::zero(64));
}

// Sum first, then member, then sequence number.
#[test]
fn orders_keys(rt: HostRuntime) {
    let rows = [(2, 3, 9), (3, 0, 1), (3, 0, 2), (3, 1, 1), (4, 0, 1)];
    for pair in rows.windows(2) {
        let (lesser, greater) = (key_of(pair[0]), key_of(pair[1]));
        assert!(rt; lesser < greater && !(greater < lesser));
    }
}
