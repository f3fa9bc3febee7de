//! In which orders operations may be applied. Each law is the contract of a function that does nothing.
ghost use Rattle.std.specs.Prelude.{◌≡◌, ℕ, ◌<◌, List, IsPermutation};
ghost use Rattle.vector_clock.specs.declared.stamp.Stamp.{Stamp};
ghost use Rattle.crdt_laws.specs.declared.small.Entry.{Entry};
ghost use Rattle.crdt_laws.specs.Present.{apply_all};
ghost use Rattle.crdt_laws.specs.Tower.{IsIssued, MaySwap};
ghost use Rattle.compositions.specs.Peers.{ArePeers};

use crdt_laws::Tower;

/// Operations of one level of which none knew of another end in one state, in whatever order they are applied.
pub fn any_order<T: Tower>(tower: &T)
    ensures { (n l : ℕ) (s : T.State) (xs ys : List (Entry T.Op)) → ArePeers (T.meaning tower.now) n l s xs → IsPermutation xs ys
        → apply_all (T.meaning tower.now) s xs ≡ apply_all (T.meaning tower.now) s ys }
{}

/// An operation and then a concurrent one of a higher level end in the state of the higher one and then what has become of the
/// lower when the higher acted on it.
pub fn higher_first<T: Tower>(tower: &T)
    ensures { (n : ℕ) (s : T.State) (p q : Stamp) (x y : T.Op) → MaySwap (T.meaning tower.now) n s p q
        → IsIssued (T.meaning tower.now) n p x → IsIssued (T.meaning tower.now) n q y
        → (T.meaning tower.now).level x < (T.meaning tower.now).level y
        → (T.meaning tower.now).apply ((T.meaning tower.now).apply s p x) q y ≡ (T.meaning tower.now).apply ((T.meaning tower.now).apply s q y) p ((T.meaning tower.now).act y x) }
{}

/// Of three levels the highest may act first, on each of the two others, or last, on what has become of the lowest.
pub fn actions_distribute<T: Tower>(tower: &T)
    ensures { (z y x : T.Op) → (T.meaning tower.now).well_formed z → (T.meaning tower.now).well_formed y → (T.meaning tower.now).well_formed x
        → (T.meaning tower.now).level x < (T.meaning tower.now).level y → (T.meaning tower.now).level y < (T.meaning tower.now).level z
        → (T.meaning tower.now).act z ((T.meaning tower.now).act y x) ≡ (T.meaning tower.now).act ((T.meaning tower.now).act z y) ((T.meaning tower.now).act z x) }
{}
