ghost use Rattle.std.specs.Prelude.{◌≡◌, [], OnOk};
ghost use Rattle.std.specs.List.{AllByRecursion};
ghost use Rattle.vector_clock.specs.declared.clock.Clock.{Clock};
ghost use Rattle.vector_clock.specs.Clock.{IsClock};
ghost use Rattle.register_crdts.specs.Several.{IsHeldOf};
ghost use Rattle.wire_core.specs.Reading.{spell_each};
ghost use Rattle.wire_core.specs.Calls.{IsInside, Takes, rules_of, wrote};
ghost use Rattle.kind_codec.specs.Registers.{held_grammar, known_key, set_grammar};

use crdt_laws::{List, NoMemory, Txt};
use register_crdts::{Held, Latest, Set, Several};
use std::alloc::Global;
use vector_clock::{Clock, Id, Key};
use wire_core::{
    ByteIn, ByteOut, Coder, Elements, Wire, WireError, put_text, take_listed, take_next_stamp,
    take_text,
};

/// Reads the key of an operation that the clock covers.
fn take_known_key(alloc: Global, d: &Clock, from: &mut ByteIn<'_>) -> Result<Key, WireError>
    requires inside { IsInside from.old }
    requires clock { IsClock d.now }
    requires members { d.now.n ≡ from.old.n }
    ensures { Takes (known_key d.now) from.old from.new result }
{
    let at = from.at;
    let key = Key::take(alloc, from)?;
    let id = Id {
        member: key.member,
        seq: key.seq,
    };
    if d.covers(id) {
        Ok(key)
    } else {
        Err(WireError::Bad { at })
    }
}

/// Reads a key and a text.
fn take_set(alloc: Global, d: &Clock, from: &mut ByteIn<'_>) -> Result<Set, WireError>
    requires inside { IsInside from.old }
    requires clock { IsClock d.now }
    requires members { d.now.n ≡ from.old.n }
    ensures { Takes (set_grammar d.now) from.old from.new result }
{
    let key = take_known_key(alloc, d, from)?;
    let text = take_text(alloc, from)?;
    Ok(Set { key, text })
}

/// The coder of registers that keep one text: the text, and whether there is one, with the key of the operation that set it.
#[derive(Clone, Copy, Debug, PartialEq, Eq)]
pub struct LatestCoder;

impl Coder<Latest> for LatestCoder {
    ghost use Rattle.std.specs.Prelude.{true};
    ghost use Rattle.wire_core.specs.Small.{text_grammar};
    ghost use Rattle.wire_core.specs.SmallExact.{text_exact};
    ghost use Rattle.wire_core.specs.SmallInOrder.{text_in_order};
    ghost use Rattle.kind_codec.specs.Registers.{latest_good, latest_states, latest_states_exact, latest_states_steady, latest_tells, latest_writes};

    ghost op_grammar = { λ _ _. text_grammar };

    ghost may_stand = { λ _ _ _ _. true };

    ghost state_grammar = { λ _ _. latest_states };

    ghost state_fits = { λ _ _ _. Unit {0} };

    fn put_op(&self, _tower: &Latest, op: &Txt, out: &mut ByteOut) -> Result<(), NoMemory> {
        put_text(op, out)
    }

    fn take_op(
        &self,
        alloc: Global,
        _tower: &Latest,
        from: &mut ByteIn<'_>,
    ) -> Result<Txt, WireError> {
        take_text(alloc, from)
    }

    fn put_state(
        &self,
        _tower: &Latest,
        state: &Option<Set>,
        out: &mut ByteOut,
    ) -> Result<(), NoMemory> {
        let _members = out.n;
        match state {
            None => out.put_u8(0),
            Some(set) => {
                out.put_u8(1)?;
                set.key.put(out)?;
                put_text(&set.text, out)
            }
        }
    }

    fn take_state(
        &self,
        alloc: Global,
        _tower: &Latest,
        d: &Clock,
        from: &mut ByteIn<'_>,
    ) -> Result<Option<Set>, WireError> {
        let at = from.at;
        match from.take_u8()? {
            0 => Ok(None),
            1 => Ok(Some(take_set(alloc, d, from)?)),
            _ => Err(WireError::Bad { at }),
        }
    }

    ghost op_exact = { λ _ _. text_exact };

    ghost op_in_order = { λ _ _. text_in_order };

    ghost op_writes = { λ _ _. latest_writes };

    ghost op_tells = { λ _ _. latest_tells };

    ghost state_exact = { λ _ _. latest_states_exact };

    ghost state_steady = { λ _ _. latest_states_steady };

    ghost state_good = { λ _ _. latest_good };
}

/// How the sets of a register are read, each stamp with its text, of operations that the clock `d` knows.
#[derive(Drop)]
struct Sets<'a> {
    d: &'a Clock,
}

impl Elements for Sets<'_> {
    ghost use Rattle.std.specs.Prelude.{◌≡◌};
    ghost use Rattle.vector_clock.specs.Clock.{IsClock};
    ghost use Rattle.kind_codec.specs.Registers.{held_exact, held_grammar};

    type Item = Held;

    ghost element = { λ e. held_grammar e.d.now };

    ghost reads = { λ e n. IsClock e.d.now × (e.d.now.n ≡ n) };

    fn take_next(
        &self,
        alloc: Global,
        before: &[Held],
        from: &mut ByteIn<'_>,
    ) -> Result<Held, WireError> {
        let stamp = take_next_stamp(alloc, before, self.d, from)?;
        let text = take_text(alloc, from)?;
        Ok(Held { stamp, text })
    }

    ghost exact = { λ e. held_exact e.d.now };
}

/// Writes stamps with their texts.
fn put_sets(sets: &[Held], out: &mut ByteOut) -> Result<(), NoMemory>
    requires { AllByRecursion (IsHeldOf out.old.n) sets.now }
    ensures { OnOk result ((d : Clock) → out.new ≡ wrote out.old (spell_each (held_grammar d) (rules_of out.old) [] sets.now)) }
{
    for held in sets {
        held.stamp.put(out)?;
        put_text(&held.text, out)?;
    }
    Ok(())
}

/// The coder of registers that keep several texts: the text, and how many sets there are, with the stamp and the text of each.
#[derive(Clone, Copy, Debug, PartialEq, Eq)]
pub struct SeveralCoder;

impl Coder<Several> for SeveralCoder {
    ghost use Rattle.std.specs.Prelude.{true};
    ghost use Rattle.wire_core.specs.Small.{text_grammar};
    ghost use Rattle.wire_core.specs.SmallExact.{text_exact};
    ghost use Rattle.wire_core.specs.SmallInOrder.{text_in_order};
    ghost use Rattle.kind_codec.specs.Registers.{several_fits, several_good, several_states, several_states_exact, several_states_steady, several_tells, several_writes};

    ghost op_grammar = { λ _ _. text_grammar };

    ghost may_stand = { λ _ _ _ _. true };

    ghost state_grammar = { λ _ _. several_states };

    ghost state_fits = { λ _ _. several_fits };

    fn put_op(&self, _tower: &Several, op: &Txt, out: &mut ByteOut) -> Result<(), NoMemory> {
        put_text(op, out)
    }

    fn take_op(
        &self,
        alloc: Global,
        _tower: &Several,
        from: &mut ByteIn<'_>,
    ) -> Result<Txt, WireError> {
        take_text(alloc, from)
    }

    fn put_state(
        &self,
        _tower: &Several,
        state: &List<Held>,
        out: &mut ByteOut,
    ) -> Result<(), NoMemory> {
        let sets = state.items.as_slice();
        out.put_count(sets.len())?;
        put_sets(sets, out)
    }

    fn take_state(
        &self,
        alloc: Global,
        _tower: &Several,
        d: &Clock,
        from: &mut ByteIn<'_>,
    ) -> Result<List<Held>, WireError> {
        take_listed(alloc, &Sets { d }, from)
    }

    ghost op_exact = { λ _ _. text_exact };

    ghost op_in_order = { λ _ _. text_in_order };

    ghost op_writes = { λ _ _. several_writes };

    ghost op_tells = { λ _ _. several_tells };

    ghost state_exact = { λ _ _. several_states_exact };

    ghost state_steady = { λ _ _. several_states_steady };

    ghost state_good = { λ _ _. several_good };
}
