ghost use Rattle.std.specs.Prelude.{◌≡◌, ◌<◌, ◌≤◌, ◌⊎◌, ◌↔◌, IsTrue, IsFalse, List, ℕ};
ghost use Rattle.std.specs.declared.cmp.Ordering.TheVariants.{Less};
ghost use Rattle.std.specs.List.{Contains};
ghost use Rattle.vector_clock.specs.declared.clock.Clock.{Clock};
ghost use Rattle.vector_clock.specs.declared.stamp.Stamp.{Stamp};
ghost use Rattle.vector_clock.specs.declared.stamp.Key.{Key};
ghost use Rattle.vector_clock.specs.Clock.{IsAtMost, IsClock, join, max_entry, max_members, meet, with_entry, zero_clock};
ghost use Rattle.vector_clock.specs.Sets.{AgreesWith, IsHonest};
ghost use Rattle.vector_clock.specs.Stamp.{IsAfter, is_before, is_below, is_less, same_id};

use crate::stamp::Key;

/// Keys are compared by sum, then by member, then by sequence number.
pub fn key_order()
    ensures { (a b : Key) → (⟦<Key as Ord>⟧.cmp a b ≡ Less) ↔ IsTrue (is_less a b) }
{}

/// The canonical order: strict, total on operations of different ids, and each operation comes after those that it knew of.
pub fn canonical_order()
    ensures asymmetric { (a b : Stamp) → IsTrue (is_below a b) → IsFalse (is_below b a) }
    ensures transitive { (a b c : Stamp) → IsTrue (is_below a b) → IsTrue (is_below b c) → IsTrue (is_below a c) }
    ensures total { (a b : Stamp) → IsFalse (same_id a b) → IsTrue (is_below a b) ⊎ IsTrue (is_below b a) }
    ensures causal { (a b : Stamp) → IsAfter a.clock b → IsTrue (is_below a b) }
{}

/// On an honest set, happens-before is a strict order, and the canonical order extends it. On other sets neither need hold.
pub fn causal_order<X>()
    ensures irreflexive { (a : Stamp) → IsFalse (is_before a a) }
    ensures asymmetric { (at : X → Stamp) (xs : List X) → IsHonest at xs → (a b : X) → Contains xs a → Contains xs b → IsTrue (is_before (at a) (at b)) → IsFalse (is_before (at b) (at a)) }
    ensures transitive { (at : X → Stamp) (xs : List X) → IsHonest at xs → (a b c : X) → Contains xs a → Contains xs b → Contains xs c → IsTrue (is_before (at a) (at b)) → IsTrue (is_before (at b) (at c)) → IsTrue (is_before (at a) (at c)) }
    ensures extended { (at : X → Stamp) (xs : List X) → IsHonest at xs → (a b : X) → Contains xs a → Contains xs b → IsTrue (is_before (at a) (at b)) → IsTrue (is_below (at a) (at b)) }
{}

/// Each way to make a clock gives one that keeps the limits of clocks.
pub fn made_clocks()
    ensures zero { (n : ℕ) → 1 ≤ n → n ≤ max_members → IsClock (zero_clock n) }
    ensures with { (c : Clock) (m seq : ℕ) → IsClock c → m < c.n → seq ≤ max_entry → IsClock (with_entry c m seq) }
    ensures join { (a b : Clock) → IsClock a → IsClock b → a.n ≡ b.n → IsClock (join a b) }
    ensures meet { (a b : Clock) → IsClock a → IsClock b → a.n ≡ b.n → IsClock (meet a b) }
{}

/// Clocks of one number of members are partly ordered, entry by entry.
pub fn clock_order()
    ensures reflexive { (a : Clock) → IsAtMost a a }
    ensures transitive { (a b c : Clock) → IsAtMost a b → IsAtMost b c → IsAtMost a c }
    ensures antisymmetric { (a b : Clock) → IsClock a → IsClock b → a.n ≡ b.n → IsAtMost a b → IsAtMost b a → a ≡ b }
{}

/// The join of two clocks is the least one that is at least both.
pub fn join_is_least()
    ensures left { (a b : Clock) → IsClock a → IsAtMost a (join a b) }
    ensures right { (a b : Clock) → IsClock b → IsAtMost b (join a b) }
    ensures least { (a b k : Clock) → IsAtMost a k → IsAtMost b k → IsAtMost (join a b) k }
{}

/// The meet of two clocks is the greatest one that is at most both.
pub fn meet_is_greatest()
    ensures left { (a b : Clock) → IsAtMost (meet a b) a }
    ensures right { (a b : Clock) → IsAtMost (meet a b) b }
    ensures greatest { (a b k : Clock) → IsClock a → IsAtMost k a → IsAtMost k b → IsAtMost k (meet a b) }
{}

/// Where two clocks agree with a set, their join and their meet agree with it.
pub fn agreement<X>()
    ensures join { (at : X → Stamp) (xs : List X) (k l : Clock) → IsClock k → IsClock l → AgreesWith at k xs → AgreesWith at l xs → AgreesWith at (join k l) xs }
    ensures meet { (at : X → Stamp) (xs : List X) (k l : Clock) → IsClock k → AgreesWith at k xs → AgreesWith at l xs → AgreesWith at (meet k l) xs }
{}
