ghost use Rattle.std.specs.Prelude.{◌≡◌, IfOk, IsTrue, length};
ghost use Rattle.vector_clock.specs.Clock.{IsClock};
ghost use Rattle.vector_clock.specs.Stamp.{IsStamp};
ghost use Rattle.forgetting_model.specs.Made.{stamp_after};
ghost use Rattle.list_crdt.specs.Text.{IsTextAt};
ghost use Rattle.rich_text.specs.Marked.{IsRichTextAt};

use super::*;
use crdt_laws::{List, Names, Tower, Txt};
use list_crdt::{Text, TextState};
use rich_text::{RichState, rich};
use std::alloc::{AllocError, Global};
use std::test::Fail;
use vector_clock::{Clock, MAX_SEQ, Stamp};

// The stamp of the next operation of the first member, where the clock is what it has.
fn next_stamp(clock: &Clock) -> Result<Stamp, Fail>
    requires { IsClock clock.now }
    ensures next { IfOk result (λ p. p ≡ stamp_after clock.now 0) }
    ensures stamp { IfOk result IsStamp }
{
    let seq = clock.count(0);
    if seq >= MAX_SEQ {
        return Err(Fail::from("too many operations"));
    }
    Ok(Stamp {
        member: 0,
        clock: clock.with(0, seq + 1),
    })
}

// The state after the next operation of the first member. One that is not valid ends a test.
fn applied<T: Tower>(
    alloc: Global,
    tower: &T,
    clock: &Clock,
    state: T::State,
    stamp: &Stamp,
    op: &T::Op,
) -> Result<T::State, Fail>
    requires plain { IsTrue (T.meaning tower.now).plain }
    requires clock { IsClock clock.now }
    requires good { (T.meaning tower.now).good_at clock.now state }
    requires next { stamp.now ≡ stamp_after clock.now 0 }
    requires stamp { IsStamp stamp.now }
    ensures { IfOk result (λ s. (T.meaning tower.now).good_at stamp.now.clock s) }
{
    if !tower.valid(stamp, op) {
        return Err(Fail::from("an operation that is not valid"));
    }
    Ok(tower.apply(alloc, state, stamp, op)?)
}

// The state after operations of the first member, each at its next stamp, and what it has then.
fn all_applied<T: Tower>(
    alloc: Global,
    tower: &T,
    clock: Clock,
    state: T::State,
    ops: &List<T::Op>,
) -> Result<(Clock, T::State), Fail>
    requires plain { IsTrue (T.meaning tower.now).plain }
    requires clock { IsClock clock }
    requires good { (T.meaning tower.now).good_at clock state }
    ensures clock { IfOk result (λ r. IsClock r.0) }
    ensures good { IfOk result (λ r. (T.meaning tower.now).good_at r.0 r.1) }
{
    let (mut clock, mut state) = (clock, state);
    for op in &ops.items {
        let stamp = next_stamp(&clock)?;
        state = applied(alloc, tower, &clock, state, &stamp, op)?;
        clock = stamp.clock;
    }
    Ok((clock, state))
}

// The text after an edit of the first member, and what it has then.
fn edited(
    alloc: Global,
    clock: Clock,
    state: TextState,
    verb: &str,
    rest: &str,
) -> Result<(Clock, TextState), Fail>
    requires clock { IsClock clock }
    requires good { IsTextAt clock state }
    ensures clock { IfOk result (λ r. IsClock r.0) }
    ensures good { IfOk result (λ r. IsTextAt r.0 r.1) }
{
    let first = next_stamp(&clock)?;
    let ops = prepare_text(alloc, &state, &first, verb, rest)?;
    all_applied(alloc, &Text, clock, state, &ops)
}

// The same of a rich text.
fn rich_edited(
    alloc: Global,
    names: &Names,
    clock: Clock,
    state: RichState,
    verb: &str,
    rest: &str,
) -> Result<(Clock, RichState), Fail>
    requires names { length names.now ≡ 2 }
    requires clock { IsClock clock }
    requires good { IsRichTextAt 2 clock state }
    ensures clock { IfOk result (λ r. IsClock r.0) }
    ensures good { IfOk result (λ r. IsRichTextAt 2 r.0 r.1) }
{
    let first = next_stamp(&clock)?;
    let ops = prepare_rich(alloc, names, &state, &first, verb, rest)?;
    all_applied(alloc, &rich(2), clock, state, &ops)
}

// How many operations an accepted edit makes, and else what its refusal prints.
fn told<Op: Drop>(alloc: Global, edit: Result<List<Op>, EditError>) -> Result<String, AllocError> {
    match edit {
        Ok(ops) => format!(in alloc; "made {}", ops.len()),
        Err(fault) => format!(in alloc; "{fault}"),
    }
}

// The letter so many times, after the text.
fn letters(alloc: Global, text: &str, count: usize) -> Result<String, AllocError> {
    let mut all = String::from_str(alloc, text)?;
    for _ in 0..count {
        all.push('a')?;
    }
    Ok(all)
}

// The characters of a text.
fn text_of(alloc: Global, state: &TextState) -> Result<String, AllocError> {
    let mut text = String::new(alloc);
    for cell in &state.items {
        text.push(cell.ch)?;
    }
    Ok(text)
}

// The characters of a rich text, each with a sign behind it for each mark that it shows.
fn rich_text_of(alloc: Global, state: &RichState) -> Result<String, AllocError> {
    let mut text = String::new(alloc);
    for cell in &state.items {
        text.push(cell.ch)?;
        for entry in &cell.marks.items {
            if entry.on {
                text.push(if entry.mark == 0 { '*' } else { '_' })?;
            }
        }
    }
    Ok(text)
}

// The names of two marks.
fn two_marks(alloc: Global) -> Result<Names, AllocError>
    ensures { IfOk result (λ names. length names ≡ 2) }
{
    let mut items = Vec::new(alloc);
    items.push(Txt {
        items: Vec::from_slice(alloc, b"bold")?,
    })?;
    items.push(Txt {
        items: Vec::from_slice(alloc, b"link")?,
    })?;
    Ok(Names { items })
}

// The first member of two, which has nothing.
fn nothing() -> Clock
    ensures { IsClock result }
{
    Clock::zero(2)
}

// The text "ab", and what the member has that typed it.
fn begun(alloc: Global) -> Result<(Clock, TextState), Fail>
    ensures clock { IfOk result (λ r. IsClock r.0) }
    ensures good { IfOk result (λ r. IsTextAt r.0 r.1) }
{
    edited(alloc, nothing(), List::new(alloc), "insert", "0 ab")
}

#[test]
fn words_of_texts(rt: HostRuntime) -> Result<(), Fail> {
    let alloc = rt.alloc();
    let (clock, state) = begun(alloc)?;
    let first = next_stamp(&clock)?;
    for (verb, rest, text) in [
        ("insert", "0 x", "made 1"),
        ("insert", "2 x y ", "made 4"),
        ("insert", "1  ", "made 1"),
        ("insert", "1 é", "made 1"),
        ("insert", "", "no-verb"),
        ("insert", "0", "no-verb"),
        ("insert", "0 ", "no-verb"),
        ("insert", " x", "no-verb"),
        ("insert", "00 x", "bad-number"),
        ("insert", "-1 x", "bad-number"),
        ("insert", "4294967296 x", "bad-number"),
        ("insert", "3 x", "index-out 2"),
        ("delete", "0", "made 1"),
        ("delete", "1", "made 1"),
        ("delete", "", "no-verb"),
        ("delete", "0 ", "no-verb"),
        ("delete", "0 1", "no-verb"),
        ("delete", "one", "bad-number"),
        ("delete", "2", "index-out 2"),
        ("mark", "0 1 bold", "no-verb"),
        ("", "0", "no-verb"),
    ] {
        let got = told(alloc, prepare_text(alloc, &state, &first, verb, rest))?;
        assert_eq!(rt; got.as_str(), text, "{verb} {rest}");
    }
    for (rest, count, text) in [
        ("2 ", 1024, "made 1024"),
        ("2 ", 1025, "text-long 1025"),
        ("2 é", 1022, "made 1023"),
        ("2 é", 1023, "text-long 1025"),
        ("3 ", 1025, "text-long 1025"),
        ("x ", 1025, "bad-number"),
    ] {
        let words = letters(alloc, rest, count)?;
        let got = told(
            alloc,
            prepare_text(alloc, &state, &first, "insert", words.as_str()),
        )?;
        assert_eq!(rt; got.as_str(), text, "{rest} {count}");
    }
    Ok(())
}

#[test]
fn texts_in_order(rt: HostRuntime) -> Result<(), Fail> {
    let alloc = rt.alloc();
    let (mut clock, mut state) = begun(alloc)?;
    for (verb, rest, text) in [
        ("insert", "1 xyz", "axyzb"),
        ("insert", "5 !", "axyzb!"),
        ("insert", "0 é ", "é axyzb!"),
        ("delete", "3", "é ayzb!"),
        ("delete", "0", " ayzb!"),
        ("insert", "3 -", " ay-zb!"),
        ("delete", "6", " ay-zb"),
    ] {
        (clock, state) = edited(alloc, clock, state, verb, rest)?;
        let got = text_of(alloc, &state)?;
        assert_eq!(rt; got.as_str(), text, "{verb} {rest}");
    }
    Ok(())
}

// Each second letter that is put in exactly in the middle takes one step more, until a position would have 33.
#[test]
fn full_in_the_middle(rt: HostRuntime) -> Result<(), Fail> {
    let alloc = rt.alloc();
    let (mut clock, mut state) = (nothing(), List::new(alloc));
    for i in 0..64 {
        let rest = format!(in alloc; "{} a", i / 2)?;
        (clock, state) = edited(alloc, clock, state, "insert", rest.as_str())?;
    }
    let first = next_stamp(&clock)?;
    let got = told(
        alloc,
        prepare_text(alloc, &state, &first, "insert", "32 ab"),
    )?;
    assert_eq!(rt; got.as_str(), "position-full 33");
    Ok(())
}

#[test]
fn words_of_rich_texts(rt: HostRuntime) -> Result<(), Fail> {
    let alloc = rt.alloc();
    let names = two_marks(alloc)?;
    let (clock, state) = rich_edited(
        alloc,
        &names,
        nothing(),
        List::new(alloc),
        "insert",
        "0 abc",
    )?;
    let first = next_stamp(&clock)?;
    for (verb, rest, text) in [
        ("insert", "3 xy", "made 2"),
        ("insert", "4 x", "index-out 3"),
        ("insert", "0", "no-verb"),
        ("delete", "2", "made 1"),
        ("delete", "3", "index-out 3"),
        ("mark", "0 3 bold", "made 1"),
        ("unmark", "2 3 link", "made 1"),
        ("mark", "0 3", "no-verb"),
        ("mark", "0 3 ", "no-verb"),
        ("mark", "0  bold", "no-verb"),
        ("mark", "0 3 bold ", "no-verb"),
        ("mark", "0 3 bald", "no-verb"),
        ("mark", "x 3 bald", "no-verb"),
        ("mark", "x 3 bold", "bad-number"),
        ("unmark", "0 03 bold", "bad-number"),
        ("mark", "9 -1 bold", "bad-number"),
        ("mark", "2 4 link", "index-out 3"),
        ("unmark", "1 1 bold", "index-out 3"),
        ("mark", "2 1 bold", "index-out 3"),
        ("set", "x", "no-verb"),
    ] {
        let got = told(
            alloc,
            prepare_rich(alloc, &names, &state, &first, verb, rest),
        )?;
        assert_eq!(rt; got.as_str(), text, "{verb} {rest}");
    }
    Ok(())
}

#[test]
fn rich_texts_in_order(rt: HostRuntime) -> Result<(), Fail> {
    let alloc = rt.alloc();
    let names = two_marks(alloc)?;
    let (mut clock, mut state) = (nothing(), List::new(alloc));
    for (verb, rest, text) in [
        ("insert", "0 ac", "ac"),
        ("mark", "0 2 bold", "a*c*"),
        ("insert", "1 b", "a*b*c*"),
        ("unmark", "0 1 bold", "ab*c*"),
        ("mark", "1 3 link", "ab*_c*_"),
        ("insert", "1 xy", "axyb*_c*_"),
        ("insert", "4 z", "axyb*_z*_c*_"),
        ("insert", "0 -", "-axyb*_z*_c*_"),
        ("delete", "4", "-axyz*_c*_"),
        ("unmark", "0 6 link", "-axyz*c*"),
    ] {
        (clock, state) = rich_edited(alloc, &names, clock, state, verb, rest)?;
        let got = rich_text_of(alloc, &state)?;
        assert_eq!(rt; got.as_str(), text, "{verb} {rest}");
    }
    Ok(())
}
