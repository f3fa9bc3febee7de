ghost use Rattle.std.specs.Prelude.{◌≡◌, ◌++◌, [], ◌∷◌, IfOk, OnOk};
ghost use Rattle.std.specs.List.{All};
ghost use Rattle.vector_clock.specs.declared.clock.Clock.{Clock};
ghost use Rattle.vector_clock.specs.declared.clock.Id.{Id};
ghost use Rattle.vector_clock.specs.Clock.{IsClock};
ghost use Rattle.vector_clock.specs.Stamp.{IsStamp};
ghost use Rattle.crdt_laws.specs.Entry.{entry};
ghost use Rattle.crdt_laws.specs.Sets.{AreIssued, has_id};
ghost use Rattle.wire_core.specs.Reading.{allows_each, repeated, spell_each};
ghost use Rattle.wire_core.specs.Calls.{IsInside, Takes, input_of, items_of, rules_of, wrote};
ghost use Rattle.wire_core.specs.Ids.{has};
ghost use Rattle.tower_codec.specs.Observed.{log_grammar, logged_grammar, logged_stamp};

use crdt_laws::{Entry, NoMemory, Ops, Tower};
use reset_products::{Observed, ObservedOp, ObservedState};
use std::alloc::Global;
use vector_clock::{Clock, Stamp};
use wire_core::{ByteIn, ByteOut, Coder, Ids, Wire, WireError, take_next_stamp, take_valid_op};

/// Reads the stamp of an operation that the clock knows, which comes after those of the log before it and is none of these. The
/// ids are those of the log.
fn take_new_stamp<Op>(
    alloc: Global,
    before: &[Entry<Op>],
    ids: &mut Ids,
    d: &Clock,
    from: &mut ByteIn<'_>,
) -> Result<Stamp, WireError>
    requires inside { IsInside from.old }
    requires clock { IsClock d.now }
    requires members { d.now.n ≡ from.old.n }
    requires stamps { All (λ e. IsStamp e.stamp) before.now }
    requires ids { (i : Id) → has ids.old.ids i ≡ has_id before.now i }
    ensures stamp { Takes (logged_stamp d.now before.now) from.old from.new result }
    ensures ids { IfOk result (λ p. (x : Op) (i : Id) → has ids.new.ids i ≡ has_id (before.now ++ entry p x ∷ []) i) }
{
    let at = from.at;
    let stamp = take_next_stamp(alloc, before, d, from)?;
    if ids.add(stamp.id())? {
        Ok(stamp)
    } else {
        Err(WireError::Bad { at })
    }
}

/// Reads a stamp and the operation that was issued there, which come after the log before them.
fn take_entry<T: Tower, C: Coder<T>>(
    alloc: Global,
    coder: &C,
    tower: &T,
    before: &[Entry<T::Op>],
    ids: &mut Ids,
    d: &Clock,
    from: &mut ByteIn<'_>,
) -> Result<Entry<T::Op>, WireError>
    requires inside { IsInside from.old }
    requires clock { IsClock d.now }
    requires members { d.now.n ≡ from.old.n }
    requires before { allows_each (logged_grammar (C.op_grammar coder.now tower.now) (C.may_stand coder.now tower.now) d.now) (input_of from.old).rules [] before.now }
    requires ids { (i : Id) → has ids.old.ids i ≡ has_id before.now i }
    ensures entry { Takes (logged_grammar (C.op_grammar coder.now tower.now) (C.may_stand coder.now tower.now) d.now before.now) from.old from.new result }
    ensures ids { IfOk result (λ e. (i : Id) → has ids.new.ids i ≡ has_id (before.now ++ e ∷ []) i) }
{
    let stamp = take_new_stamp(alloc, before, ids, d, from)?;
    let op = take_valid_op(alloc, coder, tower, &stamp, from)?;
    Ok(Entry { stamp, op })
}

/// Reads so many stamps with their operations.
fn take_entries<T: Tower, C: Coder<T>>(
    alloc: Global,
    coder: &C,
    tower: &T,
    count: u32,
    d: &Clock,
    from: &mut ByteIn<'_>,
) -> Result<Vec<Entry<T::Op>>, WireError>
    requires inside { IsInside from.old }
    requires clock { IsClock d.now }
    requires members { d.now.n ≡ from.old.n }
    ensures { Takes (repeated (logged_grammar (C.op_grammar coder.now tower.now) (C.may_stand coder.now tower.now) d.now) count []) from.old from.new (items_of result) }
{
    let mut ids = Ids::new(alloc);
    let mut entries = Vec::new(alloc);
    for _ in 0..count {
        let entry = take_entry(alloc, coder, tower, entries.as_slice(), &mut ids, d, from)?;
        entries.push(entry)?;
    }
    Ok(entries)
}

/// Reads a count, and so many stamps with their operations.
fn take_log<T: Tower, C: Coder<T>>(
    alloc: Global,
    coder: &C,
    tower: &T,
    d: &Clock,
    from: &mut ByteIn<'_>,
) -> Result<Ops<T::Op>, WireError>
    requires inside { IsInside from.old }
    requires clock { IsClock d.now }
    requires members { d.now.n ≡ from.old.n }
    ensures { Takes (log_grammar (C.op_grammar coder.now tower.now) (C.may_stand coder.now tower.now) d.now) from.old from.new result }
{
    let count = from.take_u32()?;
    let items = take_entries(alloc, coder, tower, count, d, from)?;
    Ok(Ops { items })
}

/// Writes stamps with their operations.
fn put_entries<T: Tower, C: Coder<T>>(
    coder: &C,
    tower: &T,
    entries: &[Entry<T::Op>],
    out: &mut ByteOut,
) -> Result<(), NoMemory>
    requires { AreIssued (T.meaning tower.now) out.old.n entries.now }
    ensures { OnOk result ((d : Clock) → out.new ≡ wrote out.old (spell_each (logged_grammar (C.op_grammar coder.now tower.now) (C.may_stand coder.now tower.now) d) (rules_of out.old) [] entries.now)) }
{
    for entry in entries {
        entry.stamp.put(out)?;
        coder.put_op(tower, &entry.op, out)?;
    }
    Ok(())
}

/// Writes a count, and so many stamps with their operations.
fn put_log<T: Tower, C: Coder<T>>(
    coder: &C,
    tower: &T,
    log: &Ops<T::Op>,
    out: &mut ByteOut,
) -> Result<(), NoMemory>
    requires { AreIssued (T.meaning tower.now) out.old.n log.now }
    ensures { OnOk result ((d : Clock) → out.new ≡ wrote out.old ((log_grammar (C.op_grammar coder.now tower.now) (C.may_stand coder.now tower.now) d).spell (rules_of out.old) log.now)) }
{
    let entries = log.as_slice();
    out.put_count(entries.len())?;
    put_entries(coder, tower, entries, out)
}

/// The coder of towers with resets that forget what they knew of: a tag, and the operation of the tower; and the base, and how
/// many operations the log has, each of them behind its stamp.
#[derive(Clone, Copy, Debug, PartialEq, Eq)]
pub struct ObservedCoder<C> {
    pub part: C,
}

impl<T: Tower, C: Coder<T>> Coder<Observed<T>> for ObservedCoder<C> {
    ghost use Rattle.tower_codec.specs.Observed.{observed_fit, observed_good, observed_may_stand, observed_op_exact, observed_op_grammar, observed_op_in_order, observed_op_tells, observed_op_writes, observed_states, observed_states_exact, observed_states_steady};

    ghost op_grammar = { λ c t. observed_op_grammar (C.op_grammar c.part t.part) };

    ghost may_stand = { λ c t. observed_may_stand (C.may_stand c.part t.part) };

    ghost state_grammar = { λ c t. observed_states (C.op_grammar c.part t.part) (C.may_stand c.part t.part) (C.state_grammar c.part t.part) };

    ghost state_fits = { λ c t. observed_fit (C.state_fits c.part t.part) };

    fn put_op(
        &self,
        tower: &Observed<T>,
        op: &ObservedOp<T::Op>,
        out: &mut ByteOut,
    ) -> Result<(), NoMemory> {
        match op {
            ObservedOp::Do(x) => {
                out.put_u8(0)?;
                self.part.put_op(&tower.part, x, out)
            }
            ObservedOp::Reset => out.put_u8(1),
        }
    }

    fn take_op(
        &self,
        alloc: Global,
        tower: &Observed<T>,
        from: &mut ByteIn<'_>,
    ) -> Result<ObservedOp<T::Op>, WireError> {
        let at = from.at;
        match from.take_u8()? {
            0 => Ok(ObservedOp::Do(self.part.take_op(alloc, &tower.part, from)?)),
            1 => Ok(ObservedOp::Reset),
            _ => Err(WireError::Bad { at }),
        }
    }

    fn put_state(
        &self,
        tower: &Observed<T>,
        state: &ObservedState<T>,
        out: &mut ByteOut,
    ) -> Result<(), NoMemory> {
        self.part.put_state(&tower.part, &state.base, out)?;
        put_log(&self.part, &tower.part, &state.log, out)
    }

    fn take_state(
        &self,
        alloc: Global,
        tower: &Observed<T>,
        d: &Clock,
        from: &mut ByteIn<'_>,
    ) -> Result<ObservedState<T>, WireError> {
        let base = self.part.take_state(alloc, &tower.part, d, from)?;
        let log = take_log(alloc, &self.part, &tower.part, d, from)?;
        Ok(ObservedState { base, log })
    }

    ghost op_exact = { λ c t. observed_op_exact (C.op_grammar c.part t.part) (C.op_exact c.part t.part) };

    ghost op_in_order = { λ c t. observed_op_in_order (C.op_grammar c.part t.part) (C.op_in_order c.part t.part) };

    ghost op_writes = { λ c t. observed_op_writes (T.meaning t.part) (C.op_grammar c.part t.part) (C.op_writes c.part t.part) };

    ghost op_tells = { λ c t. observed_op_tells (T.meaning t.part) (C.op_grammar c.part t.part) (C.may_stand c.part t.part) (C.op_tells c.part t.part) };

    ghost state_exact = { λ c t d. observed_states_exact (C.op_grammar c.part t.part) (C.may_stand c.part t.part) (C.state_grammar c.part t.part) (C.op_exact c.part t.part) d (C.state_exact c.part t.part d) };

    ghost state_steady = { λ c t d. observed_states_steady (C.op_grammar c.part t.part) (C.may_stand c.part t.part) (C.state_grammar c.part t.part) (C.op_in_order c.part t.part) d (C.state_steady c.part t.part d) };

    ghost state_good = { λ c t. observed_good (T.meaning t.part) (C.op_grammar c.part t.part) (C.may_stand c.part t.part) (C.op_tells c.part t.part) (T.lawful t.part).valid_within (C.op_writes c.part t.part) (C.state_fits c.part t.part) (C.state_grammar c.part t.part) (C.state_good c.part t.part) };
}
