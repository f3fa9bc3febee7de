ghost use Rattle.std.specs.Prelude.{◌≡◌, Bool, OnOk};
ghost use Rattle.vector_clock.specs.declared.stamp.Stamp.{Stamp};
ghost use Rattle.wire_core.specs.Reading.{Grammar, IsExact};
ghost use Rattle.wire_core.specs.Faults.{IsInOrder};
ghost use Rattle.wire_core.specs.Calls.{Takes, IsInside, rules_of, wrote};
ghost use Rattle.wire_core.specs.Stands.{TellsActing};
ghost use Rattle.wire_core.specs.Writes.{WritesActing};

use crate::byte_in::ByteIn;
use crate::byte_out::ByteOut;
use crate::error::WireError;
use crdt_laws::{Actor, NoMemory, Tower};
use std::alloc::Global;

/// How the operations of an actor over a tower are spelled in files.
pub trait ActorCoder<A: Tower, B: Actor<A>> {
    /// The operations that are allowed, their spellings, and what bytes read as.
    ghost acting_grammar: { Self → B → Grammar B.Op };

    /// Whether an operation that is allowed may stand at a stamp.
    ghost acting_may_stand: { Self → B → Stamp → B.Op → Bool };

    /// Writes the operation.
    fn put_op(&self, actor: &B, op: &B::Op, out: &mut ByteOut) -> Result<(), NoMemory>
        requires { (acting_grammar self.now actor.now).allows (rules_of out.old) op.now }
        ensures { OnOk result (out.new ≡ wrote out.old ((acting_grammar self.now actor.now).spell (rules_of out.old) op.now)) };

    /// Reads the operation that is spelled next.
    fn take_op(&self, alloc: Global, actor: &B, from: &mut ByteIn<'_>) -> Result<B::Op, WireError>
        requires { IsInside from.old }
        ensures { Takes (acting_grammar self.now actor.now) from.old from.new result };

    /// What was put is taken again, and what is taken was spelled so.
    ghost acting_exact: { (c : Self) (b : B) → IsExact (acting_grammar c b) };

    /// Faults are told from left to right.
    ghost acting_in_order: { (c : Self) (b : B) → IsInOrder (acting_grammar c b) };

    /// An operation that may stand at a stamp of the document may be written.
    ghost acting_writes: { (c : Self) (b : B) (low : A) → WritesActing (B.action b low) (acting_grammar c b) };

    /// What may stand at a stamp of the document is valid there, and nothing else of what is allowed is.
    ghost acting_tells: { (c : Self) (b : B) (low : A) → TellsActing (B.action b low) (acting_grammar c b) (acting_may_stand c b) };
}
