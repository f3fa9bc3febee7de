ghost use Rattle.std.specs.Prelude.{◌≡◌, ◌≤◌, IfOk, IsTrue, IsFalse};
ghost use Rattle.std.specs.List.{All};
ghost use Rattle.vector_clock.specs.Clock.{IsClock, count};
ghost use Rattle.vector_clock.specs.Stamp.{IsStamp, is_below, same_id};
ghost use Rattle.crdt_laws.specs.Sets.{AreApart, AreIssued, IsRising};
ghost use Rattle.crdt_laws.specs.Tower.{IsStampOf};
ghost use Rattle.reset_products.specs.Observed.{IsGoodLog};

use crdt_laws::{Entry, List, NoMemory, Ops, Tower, Txt};
use list_crdt::{Position, Step, Text, TextOp};
use map_crdt::{KeyOp, Keyed};
use number_crdts::{Number, NumberOp, number};
use reset_products::{Observed, ObservedOp, ObservedState, clean_cut, winning};
use semidirect_product::{MaybeOp, StackOp};
use std::alloc::Global;
use std::test::Fail;
use vector_clock::{Clock, Stamp};
use weave_core::fold_plain;

// What a member of two knows: so many operations of each.
fn clock_of(first: u32, second: u32) -> Clock
    requires first { first ≤ 1000 }
    requires second { second ≤ 1000 }
    ensures clock { IsClock result }
    ensures members { result.n ≡ 2 }
    ensures first { count result 0 ≡ first }
    ensures second { count result 1 ≡ second }
{
    Clock::zero(2).with(0, first).with(1, second)
}

// The stamp of the first member with this clock.
fn first_at(first: u32, second: u32) -> Stamp
    requires some { 1 ≤ first }
    requires most { first ≤ 1000 }
    requires second { second ≤ 1000 }
    ensures { IsStampOf 2 result }
{
    Stamp {
        member: 0,
        clock: clock_of(first, second),
    }
}

// The stamp of the second member with this clock.
fn second_at(first: u32, second: u32) -> Stamp
    requires first { first ≤ 1000 }
    requires some { 1 ≤ second }
    requires most { second ≤ 1000 }
    ensures { IsStampOf 2 result }
{
    Stamp {
        member: 1,
        clock: clock_of(first, second),
    }
}

// Whether the stamp has another id and a greater key than each of the entries.
fn comes_last<Op>(entries: &[Entry<Op>], stamp: &Stamp) -> bool
    requires stamps { All (λ e. IsStampOf 2 e.stamp) entries.now }
    requires stamp { IsStampOf 2 stamp.now }
    ensures { IsTrue result → All (λ e. IsTrue (is_below e.stamp stamp.now) × IsFalse (same_id e.stamp stamp.now)) entries.now }
{
    for e in entries {
        if !comes_before(&e.stamp, stamp) {
            return false;
        }
    }
    true
}

// Whether the key of the first is less, and the ids differ.
#[tactic(auto, unfolding(vector_clock::specs::Stamp::same_id))]
fn comes_before(a: &Stamp, b: &Stamp) -> bool
    requires left { IsStamp a.now }
    requires right { IsStamp b.now }
    ensures below { IsTrue result → IsTrue (is_below a.now b.now) }
    ensures other { IsTrue result → IsFalse (same_id a.now b.now) }
{
    a.below(b) && a.id() != b.id()
}

// Operations in canonical order, with one that comes last. Another one ends a test as running out of memory does.
fn with_next<T: Tower>(
    tower: &T,
    ops: Ops<T::Op>,
    stamp: Stamp,
    op: T::Op,
) -> Result<Ops<T::Op>, NoMemory>
    requires issued { AreIssued (T.meaning tower.now) 2 ops }
    requires rising { IsRising ops }
    requires apart { AreApart ops }
    requires stamp { IsStampOf 2 stamp }
    ensures issued { IfOk result (λ r. AreIssued (T.meaning tower.now) 2 r) }
    ensures rising { IfOk result (λ r. IsRising r) }
    ensures apart { IfOk result (λ r. AreApart r) }
{
    let mut ops = ops;
    if tower.valid(&stamp, &op) && comes_last(ops.as_slice(), &stamp) {
        ops.push(stamp, op)?;
        Ok(ops)
    } else {
        Err(NoMemory)
    }
}

// The document of operations in canonical order.
fn folded<T: Tower>(alloc: Global, tower: &T, ops: &Ops<T::Op>) -> Result<T::State, NoMemory>
    requires issued { AreIssued (T.meaning tower.now) 2 ops.now }
    requires rising { IsRising ops.now }
    requires apart { AreApart ops.now }
    ensures { IfOk result (λ s. (T.meaning tower.now).good 2 s) }
{
    let start = tower.init(alloc)?;
    fold_plain(alloc, tower, start, ops)
}

// The text of a state.
fn shown<T: Tower>(alloc: Global, tower: &T, state: &T::State) -> Result<String, Fail>
    requires { (T.meaning tower.now).good 2 state.now }
{
    Ok(tower.show(alloc, state)?.to_string(alloc)?)
}

// The state that an observed one stands for.
fn value_of<T: Tower>(
    alloc: Global,
    tower: &Observed<T>,
    state: &ObservedState<T>,
) -> Result<T::State, NoMemory>
    requires { IsGoodLog (T.meaning tower.now.part) 2 state.now }
{
    tower.value(alloc, state)
}

fn adds(n: u64) -> ObservedOp<NumberOp> {
    ObservedOp::Do(StackOp::Low(n))
}

// A member doubles; another one resets, and then adds 7.
#[test]
fn wins_over_a_concurrent_factor(rt: HostRuntime) -> Result<(), Fail> {
    let alloc = rt.alloc();
    let tower = winning(number());
    let double = StackOp::Low(MaybeOp::Real(StackOp::High(2)));
    let seven = StackOp::Low(MaybeOp::Real(StackOp::Low(7)));
    let ops = with_next(&tower, Ops::new(alloc), first_at(1, 0), double)?;
    let ops = with_next(&tower, ops, second_at(0, 1), StackOp::High(()))?;
    let ops = with_next(&tower, ops, second_at(0, 2), seven)?;
    let state = folded(alloc, &tower, &ops)?;
    assert_eq!(rt; state, 7);
    Ok(())
}

// A member adds 5, of which the other one hears, and 2. The other one resets.
#[test]
fn forgets_what_each_reset_forgets(rt: HostRuntime) -> Result<(), Fail> {
    let alloc = rt.alloc();
    let tower = Observed::of(number());
    let ops = with_next(&tower, Ops::new(alloc), first_at(1, 0), adds(5))?;
    let ops = with_next(&tower, ops, first_at(3, 0), adds(2))?;
    let ops = with_next(&tower, ops, second_at(2, 1), ObservedOp::Reset)?;
    let state = folded(alloc, &tower, &ops)?;
    assert_eq!(rt; state.base, 0);
    assert_eq!(rt; state.log.len(), 1);
    assert_eq!(rt; shown(alloc, &tower, &state)?.as_str(), "2");
    assert_eq!(rt; value_of(alloc, &tower, &state)?, 2);
    let tower = winning(number());
    let five = StackOp::Low(MaybeOp::Real(StackOp::Low(5)));
    let two = StackOp::Low(MaybeOp::Real(StackOp::Low(2)));
    let ops = with_next(&tower, Ops::new(alloc), first_at(2, 0), five)?;
    let ops = with_next(&tower, ops, first_at(4, 0), two)?;
    let ops = with_next(&tower, ops, second_at(2, 2), StackOp::High(()))?;
    assert_eq!(rt; folded(alloc, &tower, &ops)?, 0);
    Ok(())
}

// A copy of a state of a document with two members.
fn copied<T: Tower>(alloc: Global, tower: &T, state: &T::State) -> Result<T::State, NoMemory>
    requires { (T.meaning tower.now).good 2 state.now }
    ensures { IfOk result (λ s. s ≡ state.now) }
{
    tower.copy_state(alloc, state)
}

// A factor of 3 and an addition of 2 that did not know of each other stay in the log until both are settled.
#[test]
fn settles_what_is_clean(rt: HostRuntime) -> Result<(), Fail> {
    let alloc = rt.alloc();
    let tower = Observed::of(number());
    let triple = ObservedOp::Do(StackOp::High(3));
    let copy = tower.copy_op(alloc, &triple)?;
    let ops = with_next(&tower, Ops::new(alloc), first_at(1, 0), copy)?;
    let ops = with_next(&tower, ops, second_at(0, 1), adds(2))?;
    let state = folded(alloc, &tower, &ops)?;
    assert_eq!(rt; shown(alloc, &tower, &state)?.as_str(), "6");
    let copy = copied(alloc, &tower, &state)?;
    let early = tower.settle(alloc, state, &clock_of(1, 0))?;
    assert_eq!(rt; early.log.len(), 2);
    let late = tower.settle(alloc, copy, &clock_of(1, 1))?;
    assert_eq!(rt; late.log.len(), 0);
    assert_eq!(rt; late.base, 6);
    assert_eq!(rt; shown(alloc, &tower, &late)?.as_str(), "6");
    let again = tower.act(alloc, &ObservedOp::Reset, &triple)?;
    assert!(rt; tower.same_op(&again, &triple));
    assert!(rt; !tower.same_op(&again, &ObservedOp::Reset));
    Ok(())
}

// One operation that both others knew of, and these two.
#[test]
fn cuts_before_what_is_concurrent(rt: HostRuntime) -> Result<(), Fail> {
    let alloc = rt.alloc();
    let tower = number();
    let ops = with_next(&tower, Ops::new(alloc), first_at(1, 0), StackOp::Low(1))?;
    let ops = with_next(&tower, ops, first_at(2, 0), StackOp::Low(2))?;
    let ops = with_next(&tower, ops, second_at(1, 1), StackOp::Low(3))?;
    for (first, second, length) in [(0, 0, 0), (1, 0, 1), (2, 0, 1), (1, 1, 1), (2, 1, 3)] {
        let cut = clean_cut(&ops, &clock_of(first, second));
        assert_eq!(rt; cut, length, "{first} {second}");
    }
    Ok(())
}

// The operation on the number at a key that adds to it.
fn adds_at(alloc: Global, key: &str, n: u64) -> Result<ObservedOp<KeyOp<NumberOp>>, NoMemory> {
    let key = Txt {
        items: Vec::from_slice(alloc, key.as_bytes())?,
    };
    let op = StackOp::Low(n);
    Ok(ObservedOp::Do(KeyOp { key, op }))
}

// The insert of a character by an operation of the first member, at a position of one step.
fn inserts(alloc: Global, digit: u16, seq: u32, ch: char) -> Result<ObservedOp<TextOp>, NoMemory> {
    let step = Step {
        digit,
        member: 0,
        seq,
    };
    let steps = List {
        items: Vec::from_slice(alloc, &[step])?,
    };
    let at = Position { steps };
    Ok(ObservedOp::Do(TextOp::Insert { at, ch }))
}

// What is shown before and after the other member, who knew of the first of two operations, resets.
fn reset_after_one<T: Tower>(
    alloc: Global,
    tower: &Observed<T>,
    first: ObservedOp<T::Op>,
    second: ObservedOp<T::Op>,
) -> Result<(String, String), Fail> {
    let ops = with_next(tower, Ops::new(alloc), first_at(1, 0), first)?;
    let ops = with_next(tower, ops, first_at(2, 0), second)?;
    let before = folded(alloc, tower, &ops)?;
    let ops = with_next(tower, ops, second_at(1, 1), ObservedOp::Reset)?;
    let after = folded(alloc, tower, &ops)?;
    Ok((shown(alloc, tower, &before)?, shown(alloc, tower, &after)?))
}

#[test]
fn forgets_parts_of_a_document(rt: HostRuntime) -> Result<(), Fail> {
    let alloc = rt.alloc();
    let map = Observed::of(Keyed::of(number()));
    let ann = adds_at(alloc, "ann", 5)?;
    let bob = adds_at(alloc, "bob", 2)?;
    let (before, after) = reset_after_one(alloc, &map, ann, bob)?;
    assert_eq!(rt; before.as_str(), r#"{"ann":5,"bob":2}"#);
    assert_eq!(rt; after.as_str(), r#"{"bob":2}"#);
    let text = Observed::of(Text);
    let last = inserts(alloc, 9, 1, 'b')?;
    let front = inserts(alloc, 8, 2, 'a')?;
    let (before, after) = reset_after_one(alloc, &text, last, front)?;
    assert_eq!(rt; before.as_str(), r#""ab""#);
    assert_eq!(rt; after.as_str(), r#""a""#);
    Ok(())
}
