//! Positions: a count, and so many steps.
ghost use Rattle.std.specs.Prelude.{◌≡◌, [], None, OnOk, length};
ghost use Rattle.std.specs.List.{last_or};
ghost use Rattle.wire_core.specs.Reading.{repeated, spell_each};
ghost use Rattle.wire_core.specs.Rising.{comes_next};
ghost use Rattle.wire_core.specs.Calls.{Takes, IsInside, items_of, rules_of, wrote};
ghost use Rattle.kind_codec.specs.Placed.{is_before, next_position};
ghost use Rattle.kind_codec.specs.Position.{step_parts, step_grammar, step_at, is_step, position_grammar};

use crdt_laws::{List, NoMemory};
use list_crdt::{Placed, Position, Step};
use std::alloc::Global;
use vector_clock::{Clock, MAX_SEQ};
use wire_core::{ByteIn, ByteOut, WireError};

/// How many bytes a step has.
const STEP_BYTES: u32 = 7;

/// Whether the step may stand in a position of a document with `n` members: the last one is no pad.
fn is_step(step: &Step, n: u8, last: bool) -> bool
    ensures { result ≡ is_step n last step.now }
{
    let Step { digit, member, seq } = *step;
    let names = (1 <= digit && member < n) && (1 <= seq && seq <= MAX_SEQ);
    let pad = digit == 0 && (member == 0 && seq == 0);
    names || (!last && pad)
}

/// Reads a digit, a member and a sequence number.
fn take_step_parts(from: &mut ByteIn<'_>) -> Result<Step, WireError>
    requires { IsInside from.old }
    ensures { Takes step_parts from.old from.new result }
{
    Ok(Step {
        digit: from.take_u16()?,
        member: from.take_u8()?,
        seq: from.take_u32()?,
    })
}

/// Reads a step.
fn take_step(last: bool, from: &mut ByteIn<'_>) -> Result<Step, WireError>
    requires { IsInside from.old }
    ensures { Takes (step_grammar last) from.old from.new result }
{
    let at = from.at;
    let n = from.n;
    match take_step_parts(from) {
        Ok(step) => {
            if is_step(&step, n, last) {
                Ok(step)
            } else {
                Err(WireError::Bad { at })
            }
        }
        Err(error) => Err(error.moved(at)),
    }
}

/// Reads so many steps.
fn take_steps(alloc: Global, count: u8, from: &mut ByteIn<'_>) -> Result<Vec<Step>, WireError>
    requires { IsInside from.old }
    ensures { Takes (repeated (step_at count) count []) from.old from.new (items_of result) }
{
    let mut steps = Vec::new(alloc);
    for i in 0..count {
        let step = take_step(i + 1 == count, from)?;
        steps.push(step)?;
    }
    Ok(steps)
}

/// Reads a position.
pub(crate) fn take_position(alloc: Global, from: &mut ByteIn<'_>) -> Result<Position, WireError>
    requires { IsInside from.old }
    ensures { Takes position_grammar from.old from.new result }
{
    let at = from.at;
    let count = from.take_u8()?;
    if 1 <= count && count <= 32 {
        let items = take_steps(alloc, count, from)?;
        Ok(Position {
            steps: List { items },
        })
    } else {
        Err(WireError::Bad { at })
    }
}

/// Writes a step.
fn put_step(step: &Step, out: &mut ByteOut) -> Result<(), NoMemory>
    ensures { OnOk result (out.new ≡ wrote out.old (step_parts.spell (rules_of out.old) step.now)) }
{
    out.put_u16(step.digit)?;
    out.put_u8(step.member)?;
    out.put_u32(step.seq)
}

/// Writes steps.
fn put_steps(steps: &[Step], out: &mut ByteOut) -> Result<(), NoMemory>
    ensures { OnOk result (out.new ≡ wrote out.old (spell_each (step_at (length steps.now)) (rules_of out.old) [] steps.now)) }
{
    for step in steps {
        put_step(step, out)?;
    }
    Ok(())
}

/// Writes a position.
pub(crate) fn put_position(position: &Position, out: &mut ByteOut) -> Result<(), NoMemory>
    requires { position_grammar.allows (rules_of out.old) position.now }
    ensures { OnOk result (out.new ≡ wrote out.old (position_grammar.spell (rules_of out.old) position.now)) }
{
    out.put_u8(position.steps.items.len() as u8)?;
    put_steps(position.steps.items.as_slice(), out)
}

/// Whether the position comes after that of the last thing.
fn is_next_position<P: Placed>(before: &[P], position: &Position) -> bool
    ensures { result ≡ comes_next P.position is_before (last_or None before.now) position.now }
{
    match before.last() {
        Some(last) => last.at().cmp(position).is_lt(),
        None => true,
    }
}

/// Reads a position that comes after those of the things before it, and was made for an operation that the clock covers.
pub(crate) fn take_next_position<P: Placed>(
    alloc: Global,
    before: &[P],
    d: &Clock,
    from: &mut ByteIn<'_>,
) -> Result<Position, WireError>
    requires { IsInside from.old }
    ensures { Takes (next_position P.position d.now before.now) from.old from.new result }
{
    let at = from.at;
    let position = take_position(alloc, from)?;
    if !is_next_position(before, &position) {
        return Err(WireError::Bad { at });
    }
    if !d.covers(position.maker()) {
        return Err(WireError::Bad {
            at: from.at - STEP_BYTES,
        });
    }
    Ok(position)
}
