ghost use Rattle.std.specs.Prelude.{◌≡◌, ◌<◌, ◌≤◌, IfOk};
ghost use Rattle.std.specs.Option.{option_copied};
ghost use Rattle.vector_clock.specs.Clock.{max_seq};
ghost use Rattle.vector_clock.specs.Stamp.{IsStamp};
ghost use Rattle.crdt_laws.specs.Tower.{IsWithin};
ghost use Rattle.list_crdt.specs.Text.{IsText, place_before};

use super::*;
use crdt_laws::{List, Tower};
use std::alloc::{AllocError, Global};
use std::process::Abort;
use std::test::Fail;
use vector_clock::{Clock, MAX_MEMBERS, MAX_SEQ, Stamp};

// The stamp of an operation of one of two members, who knows no operation of the other.
fn stamp_of(member: u8, seq: u32) -> Stamp
    requires member { member < 2 }
    requires counted { 1 ≤ seq }
    requires bound { seq ≤ max_seq }
    ensures stamp { IsStamp result }
    ensures members { result.clock.n ≡ 2 }
    ensures within { IsWithin result }
{
    Stamp {
        member,
        clock: Clock::zero(2).with(member, seq),
    }
}

// A step of the operation 1 of member 0.
fn step(digit: u16) -> Step {
    Step {
        digit,
        member: 0,
        seq: 1,
    }
}

// The step that a position for operation 9 of member 7 ends in.
fn own(digit: u16) -> Step {
    Step {
        digit,
        member: 7,
        seq: 9,
    }
}

fn position_of(alloc: Global, steps: &[Step]) -> Result<Position, AllocError> {
    Ok(Position {
        steps: List {
            items: Vec::from_slice(alloc, steps)?,
        },
    })
}

// As many members as a document may have.
const MOST: u8 = MAX_MEMBERS as u8;

// Refused as no position is.
const OUT_OF_ORDER: ListError = ListError::PositionFull { steps: 0 };

// The next position, after a test that its neighbours keep the rules and are in order.
fn next(
    alloc: Global,
    p: Option<&Position>,
    q: Option<&Position>,
    member: u8,
    seq: u32,
) -> Result<Position, ListError> {
    match (p, q) {
        (None, None) => between(alloc, None, None, member, seq),
        (Some(p), None) if p.is_of(MOST) => between(alloc, Some(p), None, member, seq),
        (None, Some(q)) if q.is_of(MOST) => between(alloc, None, Some(q), member, seq),
        (Some(p), Some(q)) if p.is_of(MOST) && q.is_of(MOST) && p.cmp(q).is_lt() => {
            between(alloc, Some(p), Some(q), member, seq)
        }
        _ => Err(OUT_OF_ORDER),
    }
}

// What the next position between two lists of steps is, where no steps stand for an absent position.
fn assert_next<R: Abort + AllocGlobal>(
    rt: &R,
    p: &[Step],
    q: &[Step],
    want: &[Step],
) -> Result<(), Fail> {
    let low = position_of(rt.alloc(), p)?;
    let high = position_of(rt.alloc(), q)?;
    let low = if p.is_empty() { None } else { Some(&low) };
    let high = if q.is_empty() { None } else { Some(&high) };
    let made = next(rt.alloc(), low, high, 7, 9)?;
    assert_eq!(rt;
        made.steps.items.as_slice(),
        want,
        "between {p:?} and {q:?}"
    );
    Ok(())
}

#[test]
fn takes_a_digit_between(rt: HostRuntime) -> Result<(), Fail> {
    assert_next(&rt, &[], &[], &[own(32_768)])?;
    assert_next(&rt, &[], &[step(100)], &[own(99)])?;
    assert_next(&rt, &[], &[step(2)], &[own(1)])?;
    assert_next(&rt, &[step(100)], &[], &[own(101)])?;
    assert_next(&rt, &[step(65_534)], &[], &[own(65_535)])?;
    assert_next(&rt, &[step(100)], &[step(102)], &[own(101)])?;
    assert_next(&rt, &[step(100)], &[step(300)], &[own(101)])?;
    assert_next(&rt, &[step(100), step(5)], &[step(300)], &[own(101)])
}

#[test]
fn goes_down_by_pads(rt: HostRuntime) -> Result<(), Fail> {
    let pad = Step::PAD;
    assert_next(&rt, &[], &[step(1)], &[pad, own(32_768)])?;
    assert_next(&rt, &[], &[step(1), step(5)], &[pad, own(32_768)])?;
    assert_next(&rt, &[], &[pad, step(2)], &[pad, own(1)])?;
    assert_next(&rt, &[], &[pad, step(1)], &[pad, pad, own(32_768)])?;
    assert_next(&rt, &[], &[pad, pad, step(500)], &[pad, pad, own(499)])
}

#[test]
fn keeps_a_common_front(rt: HostRuntime) -> Result<(), Fail> {
    let (pad, front) = (Step::PAD, step(100));
    assert_next(&rt, &[front], &[front, step(5)], &[front, own(4)])?;
    assert_next(&rt, &[front], &[front, step(1)], &[front, pad, own(32_768)])?;
    assert_next(&rt, &[front, step(5)], &[front, step(7)], &[front, own(6)])?;
    assert_next(
        &rt,
        &[front, step(5)],
        &[front, step(5), pad, step(9)],
        &[front, step(5), pad, own(8)],
    )?;
    assert_next(&rt, &[pad, step(3)], &[pad, step(9)], &[pad, own(4)])
}

#[test]
fn stays_below_the_lower_front(rt: HostRuntime) -> Result<(), Fail> {
    let (pad, front, last) = (Step::PAD, step(100), step(65_535));
    let other = Step {
        digit: 100,
        member: 1,
        seq: 1,
    };
    assert_next(&rt, &[front], &[step(101)], &[front, own(32_768)])?;
    assert_next(&rt, &[front, step(5)], &[step(101)], &[front, own(6)])?;
    assert_next(&rt, &[front], &[other], &[front, own(32_768)])?;
    assert_next(&rt, &[front, step(5)], &[other, step(1)], &[front, own(6)])?;
    assert_next(&rt, &[last], &[], &[last, own(32_768)])?;
    assert_next(&rt, &[last, last], &[], &[last, last, own(32_768)])?;
    assert_next(&rt, &[last, step(3)], &[], &[last, own(4)])?;
    assert_next(&rt, &[pad, last], &[step(1)], &[pad, last, own(32_768)])
}

#[test]
fn has_at_most_32_steps(rt: HostRuntime) -> Result<(), Fail> {
    let full = position_of(rt.alloc(), &[step(65_535); 32])?;
    let refused = next(rt.alloc(), Some(&full), None, 7, 9).err();
    assert_eq!(rt; refused, Some(ListError::PositionFull { steps: 33 }));
    let shorter = position_of(rt.alloc(), &[step(65_535); 31])?;
    let made = next(rt.alloc(), Some(&shorter), None, 7, 9)?;
    assert_eq!(rt; made.steps.len(), 32);
    assert_eq!(rt; made.steps.get(31), Some(&own(32_768)));
    Ok(())
}

// The position of the character before the index.
fn before<'a>(state: &'a TextState, index: u32) -> Option<&'a Position>
    ensures { option_copied result ≡ place_before state.now index }
{
    if index == 0 {
        return None;
    }
    Text.place(state, index - 1)
}

// The next position at the index of a text, for the operation at this stamp.
fn next_at(
    alloc: Global,
    state: &TextState,
    index: u32,
    stamp: &Stamp,
) -> Result<Position, ListError>
    requires text { IsText stamp.now.clock.n state.now }
    requires stamp { IsStamp stamp.now }
{
    let low = before(state, index);
    let high = Text.place(state, index);
    between(alloc, low, high, stamp.member, stamp.id().seq)
}

// The text after a valid operation.
fn edit(alloc: Global, state: TextState, stamp: &Stamp, op: &TextOp) -> Result<TextState, Fail>
    requires text { IsText stamp.now.clock.n state }
    requires stamp { IsStamp stamp.now }
    ensures { IfOk result (IsText stamp.now.clock.n) }
{
    if !Text.valid(stamp, op) {
        return Err(Fail::from("an operation that is not valid"));
    }
    Ok(Text.apply(alloc, state, stamp, op)?)
}

// The text with a character put in at the index, by the operation at this stamp.
fn put(
    alloc: Global,
    state: TextState,
    index: u32,
    ch: char,
    stamp: &Stamp,
) -> Result<TextState, Fail>
    requires text { IsText stamp.now.clock.n state }
    requires stamp { IsStamp stamp.now }
    ensures { IfOk result (IsText stamp.now.clock.n) }
{
    let at = next_at(alloc, &state, index, stamp)?;
    edit(alloc, state, stamp, &TextOp::Insert { at, ch })
}

// The JSON text that a text is shown as.
fn shown(alloc: Global, state: &TextState) -> Result<String, Fail>
    requires { IsText 2 state.now }
{
    Ok(Text.show(alloc, state)?.to_string(alloc)?)
}

// The text of characters that member 0 puts in one after another, each at its index.
fn typed(alloc: Global, places: &[u32]) -> Result<TextState, Fail>
    ensures { IfOk result (IsText 2) }
{
    if places.len() > MAX_SEQ as usize {
        return Err(Fail::from("too many characters"));
    }
    let mut state = Text.init(alloc)?;
    let mut seq = 0;
    for place in places {
        seq += 1;
        state = put(alloc, state, *place, 'a', &stamp_of(0, seq))?;
    }
    Ok(state)
}

// How many steps the positions of the text have in all, and the most that one has.
fn steps_of(state: &TextState) -> (usize, usize) {
    let mut sum = 0usize;
    let mut most = 0usize;
    for cell in &state.items {
        let steps = cell.at.steps.len();
        sum = sum.saturating_add(steps);
        most = most.max(steps);
    }
    (sum, most)
}

// Typing at one place takes short positions: each new digit is next to the last one's.
#[test]
fn counts_the_steps_of_positions(rt: HostRuntime) -> Result<(), Fail> {
    let alloc = rt.alloc();
    let front = typed(alloc, &[0; 100])?;
    assert_eq!(rt; steps_of(&front), (100, 1));
    let mut places = [0; 100];
    for i in 0..100 {
        places[i] = i as u32;
    }
    let end = typed(alloc, &places)?;
    assert_eq!(rt; steps_of(&end), (100, 1));
    // The second character has no room for a digit behind it, so each further one goes a level down.
    let mut second = [1; 100];
    second[0] = 0;
    let middle = typed(alloc, &second)?;
    assert_eq!(rt; steps_of(&middle), (198, 2));
    Ok(())
}

// Each second character that is put in exactly in the middle takes one step more, until there is no position left.
#[test]
fn ends_in_the_middle(rt: HostRuntime) -> Result<(), Fail> {
    let mut places = [0; 64];
    for i in 0..64 {
        places[i] = i as u32 / 2;
    }
    let text = typed(rt.alloc(), &places)?;
    assert_eq!(rt; steps_of(&text), (1056, 32));
    let refused = next_at(rt.alloc(), &text, 32, &stamp_of(0, 65)).err();
    assert_eq!(rt; refused, Some(ListError::PositionFull { steps: 33 }));
    Ok(())
}

// Two members type at once, and then one of them between the two characters.
#[test]
fn gives_the_positions_of_three_characters(rt: HostRuntime) -> Result<(), Fail> {
    let alloc = rt.alloc();
    let first = next(alloc, None, None, 0, 1)?;
    let other = next(alloc, None, None, 1, 1)?;
    let middle = next(alloc, Some(&first), Some(&other), 0, 2)?;
    let step = |member: u8, seq: u32| Step {
        digit: 32_768,
        member,
        seq,
    };
    assert_eq!(rt; first.steps.items.as_slice(), [step(0, 1)].as_slice());
    assert_eq!(rt; other.steps.items.as_slice(), [step(1, 1)].as_slice());
    assert_eq!(rt;
        middle.steps.items.as_slice(),
        [step(0, 1), step(0, 2)].as_slice()
    );
    Ok(())
}

// An insert has its own id in its position, and a delete the id of another operation, which its member knows.
#[test]
fn tells_valid_operations(rt: HostRuntime) -> Result<(), Fail> {
    let alloc = rt.alloc();
    let at = next(alloc, None, None, 0, 1)?;
    let insert = TextOp::Insert {
        at: at.copy(alloc)?,
        ch: 'x',
    };
    let delete = TextOp::Delete { at };
    let rows = [
        (0, 1, true, false),
        (0, 2, false, true),
        (1, 1, false, false),
    ];
    for (member, seq, inserts, deletes) in rows {
        let stamp = stamp_of(member, seq);
        assert_eq!(rt; Text.valid(&stamp, &insert), inserts);
        assert_eq!(rt; Text.valid(&stamp, &delete), deletes);
    }
    Ok(())
}

// The text of three characters: two members type one each at once, and then one of them types one between the two.
fn three(alloc: Global) -> Result<TextState, Fail>
    ensures { IfOk result (IsText 2) }
{
    let text = put(alloc, Text.init(alloc)?, 0, 'A', &stamp_of(0, 1))?;
    let text = put(alloc, text, 1, 'B', &stamp_of(1, 1))?;
    put(alloc, text, 1, 'ü', &stamp_of(0, 2))
}

// The position of the character at the index.
fn copy_at(alloc: Global, state: &TextState, index: u32) -> Result<Position, Fail> {
    match Text.place(state, index) {
        Some(at) => Ok(at.copy(alloc)?),
        None => Err(Fail::from("no character at the index")),
    }
}

#[test]
fn shows_characters_in_order(rt: HostRuntime) -> Result<(), Fail> {
    let text = shown(rt.alloc(), &three(rt.alloc())?)?;
    assert_eq!(rt; text.as_str(), "\"AüB\"");
    Ok(())
}

#[test]
fn replaces_a_character(rt: HostRuntime) -> Result<(), Fail> {
    let text = three(rt.alloc())?;
    let at = copy_at(rt.alloc(), &text, 0)?;
    let again = TextOp::Insert { at, ch: 'C' };
    let text = edit(rt.alloc(), text, &stamp_of(0, 1), &again)?;
    assert_eq!(rt; shown(rt.alloc(), &text)?.as_str(), "\"CüB\"");
    Ok(())
}

// The second delete finds nothing.
#[test]
fn deletes_a_character(rt: HostRuntime) -> Result<(), Fail> {
    let text = three(rt.alloc())?;
    let at = copy_at(rt.alloc(), &text, 1)?;
    let delete = TextOp::Delete { at };
    let text = edit(rt.alloc(), text, &stamp_of(0, 3), &delete)?;
    let text = edit(rt.alloc(), text, &stamp_of(0, 4), &delete)?;
    assert_eq!(rt; shown(rt.alloc(), &text)?.as_str(), "\"AB\"");
    Ok(())
}

// A copy of a state of a document with two members, where a copy of the valid operation is equal to it.
fn copied<T: Tower>(
    alloc: Global,
    tower: &T,
    state: &T::State,
    stamp: &Stamp,
    op: &T::Op,
) -> Result<T::State, Fail>
    requires good { (T.meaning tower.now).good 2 state.now }
    requires stamp { IsStamp stamp.now }
    ensures { IfOk result (λ s. s ≡ state.now) }
{
    if !tower.valid(stamp, op) {
        return Err(Fail::from("an operation that is not valid"));
    }
    let copy = tower.copy_op(alloc, op)?;
    if !tower.same_op(&copy, op) {
        return Err(Fail::from("an operation that is no copy"));
    }
    Ok(tower.copy_state(alloc, state)?)
}

#[test]
fn copies_texts_and_operations(rt: HostRuntime) -> Result<(), Fail> {
    let text = three(rt.alloc())?;
    let delete = TextOp::Delete {
        at: copy_at(rt.alloc(), &text, 1)?,
    };
    let copy = copied(rt.alloc(), &Text, &text, &stamp_of(0, 3), &delete)?;
    assert_eq!(rt; copy.len(), 3);
    Ok(())
}

// How many characters the tests below type.
const MANY: u32 = 5_000;

#[test]
fn types_many_at_the_end(rt: HostRuntime) -> Result<(), Fail> {
    let places: Vec<u32> = (0..MANY).collect(rt.alloc())?;
    assert_eq!(rt; typed(rt.alloc(), &places)?.len(), MANY as usize);
    Ok(())
}

#[test]
fn types_many_at_the_front(rt: HostRuntime) -> Result<(), Fail> {
    let places = vec![in rt.alloc(); 0; MANY as usize]?;
    assert_eq!(rt; typed(rt.alloc(), &places)?.len(), MANY as usize);
    Ok(())
}

#[test]
fn types_many_at_random(rt: HostRuntime) -> Result<(), Fail> {
    let mut draw = 1u32;
    let places: Vec<u32> = (0..MANY)
        .map(|i| {
            draw = draw.wrapping_mul(75).wrapping_add(74) % 65_537;
            draw % (i + 1)
        })
        .collect(rt.alloc())?;
    assert_eq!(rt; typed(rt.alloc(), &places)?.len(), MANY as usize);
    Ok(())
}
