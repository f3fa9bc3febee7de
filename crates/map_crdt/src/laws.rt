//! What maps of states are. Each law is the contract of a function that does nothing.
ghost use Rattle.std.specs.Prelude.{◌≡◌, ◌≢◌, ℕ, List, IsTrue};
ghost use Rattle.vector_clock.specs.declared.stamp.Stamp.{Stamp};
ghost use Rattle.crdt_laws.specs.Tower.{IsLawful};
ghost use Rattle.map_crdt.specs.declared.keyed.KeyOp.{KeyOp};
ghost use Rattle.map_crdt.specs.declared.keyed.KeyState.{KeyState};
ghost use Rattle.map_crdt.specs.Keyed.{has_key, keyed_meaning, state_at};

use crate::keyed::Keyed;
use crdt_laws::{Tower, is_lawful};

/// A map of states of a tower is a lawful tower.
pub fn keyed_is_lawful<T: Tower>(map: &Keyed<T>)
    ensures { IsLawful (keyed_meaning (T.meaning map.now.part)) }
{
    is_lawful(map);
}

/// An operation on one key is applied to the state there, and makes the key present. It changes the state at no other key,
/// and makes no other present.
pub fn keys_stand_apart<T: Tower>(map: &Keyed<T>)
    ensures here { (es : List (KeyState T.State)) (p : Stamp) (x : KeyOp T.Op)
        → state_at (T.meaning map.now.part) ((keyed_meaning (T.meaning map.now.part)).apply es p x) x.key ≡ (T.meaning map.now.part).apply (state_at (T.meaning map.now.part) es x.key) p x.op }
    ensures present { (es : List (KeyState T.State)) (p : Stamp) (x : KeyOp T.Op) → IsTrue (has_key ((keyed_meaning (T.meaning map.now.part)).apply es p x) x.key) }
    ensures others { (es : List (KeyState T.State)) (p : Stamp) (x : KeyOp T.Op) (k : List ℕ) → k ≢ x.key
        → state_at (T.meaning map.now.part) ((keyed_meaning (T.meaning map.now.part)).apply es p x) k ≡ state_at (T.meaning map.now.part) es k }
    ensures others_present { (es : List (KeyState T.State)) (p : Stamp) (x : KeyOp T.Op) (k : List ℕ) → k ≢ x.key
        → has_key ((keyed_meaning (T.meaning map.now.part)).apply es p x) k ≡ has_key es k }
{}
