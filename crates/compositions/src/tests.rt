ghost use Rattle.std.specs.Prelude.{◌≡◌, ◌<◌, IsTrue, IfOk};
ghost use Rattle.vector_clock.specs.Stamp.{IsStamp};
ghost use Rattle.crdt_laws.specs.Sets.{AreIssued};
ghost use Rattle.crdt_laws.specs.Tower.{IsStampOf};

use super::*;
use crdt_laws::{NoMemory, Ops, Tower, document};
use direct_product::{Both, Pair, PairOp, Row, RowOp};
use number_crdts::{NumberOp, number};
use semidirect_product::{Maybe, MaybeOp, StackOp};
use std::alloc::Global;
use std::test::Fail;
use vector_clock::{Clock, Stamp};

// The stamp of the first operation of one of three members, who knows no other operation.
fn first_of(member: u8) -> Stamp
    requires { member < 3 }
    ensures { IsStampOf 3 result }
{
    Stamp {
        member,
        clock: Clock::zero(3).with(member, 1),
    }
}

// The state after a first operation of a member. An operation that is not valid ends a test as running out of memory does.
fn after<T: Tower>(
    alloc: Global,
    tower: &T,
    state: T::State,
    member: u8,
    op: &T::Op,
) -> Result<T::State, NoMemory>
    requires plain { IsTrue (T.meaning tower.now).plain }
    requires good { (T.meaning tower.now).good 3 state }
    requires member { member < 3 }
    ensures { IfOk result (λ s. (T.meaning tower.now).good 3 s) }
{
    let stamp = first_of(member);
    if tower.valid(&stamp, op) {
        tower.apply(alloc, state, &stamp, op)
    } else {
        Err(NoMemory)
    }
}

// The state after operations, each as a first one.
fn after_all<T: Tower>(alloc: Global, tower: &T, ops: &[T::Op]) -> Result<T::State, NoMemory>
    requires { IsTrue (T.meaning tower.now).plain }
    ensures { IfOk result (λ s. (T.meaning tower.now).good 3 s) }
{
    let mut state = tower.init(alloc)?;
    for op in ops {
        state = after(alloc, tower, state, 0, op)?;
    }
    Ok(state)
}

// A copy of a state.
fn copied_state<T: Tower>(alloc: Global, tower: &T, state: &T::State) -> Result<T::State, NoMemory>
    requires { (T.meaning tower.now).good 3 state.now }
    ensures { IfOk result (λ s. s ≡ state.now) }
{
    tower.copy_state(alloc, state)
}

// What is shown of a copy of that state, settled.
fn shown_after<T: Tower>(alloc: Global, tower: &T, ops: &[T::Op]) -> Result<String, NoMemory>
    requires { IsTrue (T.meaning tower.now).plain }
{
    let state = after_all(alloc, tower, ops)?;
    let settled = tower.settle(alloc, state, &Clock::zero(3))?;
    let copy = copied_state(alloc, tower, &settled)?;
    Ok(tower.show(alloc, &copy)?.to_string(alloc)?)
}

// What an operation becomes when another acts on it. One that is not valid ends a test as running out of memory does.
fn acted<T: Tower>(alloc: Global, tower: &T, y: &T::Op, x: &T::Op) -> Result<T::Op, NoMemory> {
    let stamp = first_of(0);
    if tower.valid(&stamp, y) && tower.valid(&stamp, x) {
        tower.act(alloc, y, x)
    } else {
        Err(NoMemory)
    }
}

// A copy of an operation. One that is not valid ends a test as running out of memory does.
fn copied<T: Tower>(alloc: Global, tower: &T, op: &T::Op) -> Result<T::Op, NoMemory> {
    if tower.valid(&first_of(0), op) {
        tower.copy_op(alloc, op)
    } else {
        Err(NoMemory)
    }
}

// Whether two valid operations are equal.
fn are_same<T: Tower>(tower: &T, a: &T::Op, b: &T::Op) -> bool {
    let stamp = first_of(0);
    tower.valid(&stamp, a) && tower.valid(&stamp, b) && tower.same_op(a, b)
}

// Whether it becomes the same as a copy of a third one, and no longer itself.
fn turns<T: Tower>(
    alloc: Global,
    tower: &T,
    y: &T::Op,
    x: &T::Op,
    then: &T::Op,
) -> Result<bool, NoMemory> {
    let copy = copied(alloc, tower, then)?;
    let acted = acted(alloc, tower, y, x)?;
    Ok(are_same(tower, &acted, &copy) && !are_same(tower, &acted, x))
}

#[test]
fn keeps_two_numbers_apart(rt: HostRuntime) -> Result<(), Fail> {
    let alloc = rt.alloc();
    let tower = Pair::of(number(), number());
    let triple = PairOp::Right(StackOp::High(3));
    let seven = PairOp::Right(StackOp::Low(7));
    assert!(rt; !are_same(&tower, &seven, &PairOp::Left(StackOp::Low(7))));
    let more = PairOp::Right(StackOp::Low(21));
    assert!(rt; turns(alloc, &tower, &triple, &seven, &more)?);
    let ops = [PairOp::Left(StackOp::Low(2)), seven, triple];
    assert_eq!(rt;
        shown_after(alloc, &tower, ops.as_slice())?.as_str(),
        "[2,21]"
    );
    Ok(())
}

// The operation of a part of a row.
fn at_part<Op: Drop>(part: u8, op: Op) -> RowOp<MaybeOp<Op>> {
    RowOp {
        part,
        op: MaybeOp::Real(op),
    }
}

#[test]
fn keeps_the_parts_of_a_row_apart(rt: HostRuntime) -> Result<(), Fail> {
    let alloc = rt.alloc();
    let parts = vec![in alloc;
        Maybe::of(number()),
        Maybe::of(number()),
        Maybe::of(number()),
    ]?;
    let tower = Row::of(parts);
    let five = at_part(1, StackOp::Low(5));
    let triple = at_part(1, StackOp::High(3));
    let more = at_part(1, StackOp::Low(15));
    let nothing = RowOp {
        part: 1,
        op: MaybeOp::Nothing(2),
    };
    assert!(rt; turns(alloc, &tower, &triple, &five, &more)?);
    assert!(rt; !are_same(&tower, &at_part(2, StackOp::Low(5)), &five));
    let ops = [five, nothing, at_part(2, StackOp::Low(8))];
    assert_eq!(rt;
        shown_after(alloc, &tower, ops.as_slice())?.as_str(),
        "[0,5,8]"
    );
    Ok(())
}

// What is shown after three operations of rising levels, as they rise.
fn rising<T: Tower>(
    alloc: Global,
    tower: &T,
    start: &[T::Op],
    low: &T::Op,
    middle: &T::Op,
    high: &T::Op,
) -> Result<String, NoMemory>
    requires { IsTrue (T.meaning tower.now).plain }
{
    let state = after_all(alloc, tower, start)?;
    let state = after(alloc, tower, state, 0, low)?;
    let state = after(alloc, tower, state, 1, middle)?;
    let state = after(alloc, tower, state, 2, high)?;
    Ok(tower.show(alloc, &state)?.to_string(alloc)?)
}

// What is shown after them from the highest down, where each one is in the form that those before it have left of it.
fn falling<T: Tower>(
    alloc: Global,
    tower: &T,
    start: &[T::Op],
    low: &T::Op,
    middle: &T::Op,
    high: &T::Op,
) -> Result<String, NoMemory>
    requires { IsTrue (T.meaning tower.now).plain }
{
    let state = after_all(alloc, tower, start)?;
    let state = after(alloc, tower, state, 2, high)?;
    let middle = acted(alloc, tower, high, middle)?;
    let state = after(alloc, tower, state, 1, &middle)?;
    let low = acted(alloc, tower, high, low)?;
    let low = acted(alloc, tower, &middle, &low)?;
    let state = after(alloc, tower, state, 0, &low)?;
    Ok(tower.show(alloc, &state)?.to_string(alloc)?)
}

// An operation on the left number of two, and one on the right.
fn to_left<H: Drop>(op: NumberOp) -> StackOp<PairOp<NumberOp, NumberOp>, H> {
    StackOp::Low(PairOp::Left(op))
}

fn to_right<H: Drop>(op: NumberOp) -> StackOp<PairOp<NumberOp, NumberOp>, H> {
    StackOp::Low(PairOp::Right(op))
}

// An addition of 5 to the left number, its multiplication by 3, and a change of places, of which none knew of another.
#[test]
fn three_levels_of_two_numbers(rt: HostRuntime) -> Result<(), Fail> {
    let alloc = rt.alloc();
    let tower = sides(0);
    let start = [to_left(StackOp::Low(2)), to_right(StackOp::Low(7))];
    let low = to_left(StackOp::Low(5));
    let middle = to_left(StackOp::High(3));
    let high = StackOp::High(());
    let up = rising(alloc, &tower, start.as_slice(), &low, &middle, &high)?;
    assert_eq!(rt; up.as_str(), "[7,21]");
    let down = falling(alloc, &tower, start.as_slice(), &low, &middle, &high)?;
    assert_eq!(rt; down, up);
    Ok(())
}

// The same with a clearing, and an addition that becomes one of 0.
#[test]
fn three_levels_of_a_number(rt: HostRuntime) -> Result<(), Fail> {
    let alloc = rt.alloc();
    let tower = clearable(12);
    let start = [StackOp::Low(StackOp::Low(2))];
    let low = StackOp::Low(StackOp::Low(5));
    let middle = StackOp::Low(StackOp::High(3));
    let high = StackOp::High(());
    let up = rising(alloc, &tower, start.as_slice(), &low, &middle, &high)?;
    assert_eq!(rt; up.as_str(), "0");
    let down = falling(alloc, &tower, start.as_slice(), &low, &middle, &high)?;
    assert_eq!(rt; down, up);
    let none = StackOp::Low(StackOp::Low(0));
    assert!(rt; turns(alloc, &tower, &high, &low, &none)?);
    Ok(())
}

// The operations with one more, issued by a member who knew so many of each member.
fn with_one<T: Tower>(
    alloc: Global,
    tower: &T,
    ops: Ops<T::Op>,
    stamp: Stamp,
    op: T::Op,
) -> Result<Ops<T::Op>, NoMemory>
    requires issued { AreIssued (T.meaning tower.now) 3 ops }
    requires stamp { IsStampOf 3 stamp }
    ensures { IfOk result (λ r. AreIssued (T.meaning tower.now) 3 r) }
{
    let mut ops = ops;
    if tower.valid(&stamp, &op) {
        ops.push(stamp, op)?;
        Ok(ops)
    } else {
        Err(NoMemory)
    }
}

// The document of operations of three members in canonical order.
fn document_of<T: Tower>(alloc: Global, tower: &T, ops: &Ops<T::Op>) -> Result<T::State, NoMemory>
    requires plain { IsTrue (T.meaning tower.now).plain }
    requires issued { AreIssued (T.meaning tower.now) 3 ops.now }
{
    document(alloc, tower, ops)
}

// The document of an operation of each of three members, of which none knew of another.
fn document_of_three<T: Tower>(
    alloc: Global,
    tower: &T,
    first: T::Op,
    second: T::Op,
    third: T::Op,
) -> Result<T::State, NoMemory>
    requires { IsTrue (T.meaning tower.now).plain }
{
    let ops = with_one(alloc, tower, Ops::new(alloc), first_of(0), first)?;
    let ops = with_one(alloc, tower, ops, first_of(1), second)?;
    let ops = with_one(alloc, tower, ops, first_of(2), third)?;
    document_of(alloc, tower, &ops)
}

// What a member does to two numbers: one adds 5 to the left one, one multiplies that by 3, and the other lets them change places.
fn deed_of(member: u8, adds: u8, multiplies: u8) -> StackOp<PairOp<NumberOp, NumberOp>, ()> {
    if member == adds {
        to_left(StackOp::Low(5))
    } else if member == multiplies {
        to_left(StackOp::High(3))
    } else {
        StackOp::High(())
    }
}

// The three do so at once, whoever does what, and 15 is 3 modulo 12.
#[test]
fn one_document_whoever_does_what(rt: HostRuntime) -> Result<(), Fail> {
    let alloc = rt.alloc();
    let tower = sides(12);
    for (adds, multiplies) in [(0, 1), (0, 2), (1, 0), (1, 2), (2, 0), (2, 1)] {
        let first = deed_of(0, adds, multiplies);
        let second = deed_of(1, adds, multiplies);
        let third = deed_of(2, adds, multiplies);
        let state = document_of_three(alloc, &tower, first, second, third)?;
        assert_eq!(rt; state, Both { left: 0, right: 3 }, "{adds} {multiplies}");
    }
    Ok(())
}

mod flags;
mod maps;
mod resets;
