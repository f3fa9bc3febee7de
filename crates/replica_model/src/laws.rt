//! What merges leave, and what keeps a family honest. Each law is the contract of a function that does nothing.
ghost use Rattle.std.specs.Prelude.{◌≡◌, ◌≢◌, ℕ, ◌<◌, ◌≤◌, List, [], ◌∷◌, ◌++◌, ◌↔◌, ◌==◌, Option, count_by};
ghost use Rattle.std.specs.List.{All, Contains};
ghost use Rattle.vector_clock.specs.Clock.{IsAtMost, count, max_members};
ghost use Rattle.crdt_laws.specs.declared.small.Entry.{Entry};
ghost use Rattle.crdt_laws.specs.Sets.{AreApart, IsClosed, IsHonest};
ghost use Rattle.crdt_laws.specs.Tower.{IsStampOf};
ghost use Rattle.replica_model.specs.Replica.{Replica, Batch, edited, exported, merged, new_replica, next_stamp, version};
ghost use Rattle.replica_model.specs.Family.{Thing, replica, batch, replicas, IsHonestFamily, MayMerge};

use crdt_laws::Tower;

/// A merge delivers a causally closed set. It loses nothing that was in, and neither loses nor makes an operation.
pub fn merging<Op>()
    ensures delivers_closed { (r : Replica Op) (b : Batch Op) → MayMerge r b → IsClosed (merged r b).delivered }
    ensures grows { (r : Replica Op) (b : Batch Op) → MayMerge r b → (e : Entry Op) → Contains r.delivered e → Contains (merged r b).delivered e }
    ensures complete { (r : Replica Op) (b : Batch Op) → MayMerge r b → (e : Entry Op) → Contains ((merged r b).delivered ++ (merged r b).waiting) e ↔ Contains ((r.delivered ++ r.waiting) ++ b.ops) e }
{}

/// A batch that comes again changes neither what is in nor what waits.
pub fn merging_again<Op>()
    ensures delivered { (r : Replica Op) (b : Batch Op) → MayMerge r b → (merged (merged r b) b).delivered ≡ (merged r b).delivered }
    ensures waiting { (r : Replica Op) (b : Batch Op) → MayMerge r b → (merged (merged r b) b).waiting ≡ (merged r b).waiting }
{}

/// Two batches leave the same operations in and the same waiting in either order.
pub fn merging_in_either_order<Op>()
    ensures delivered { (r : Replica Op) (a b : Batch Op) → MayMerge r a → MayMerge r b → IsHonest (((r.delivered ++ r.waiting) ++ a.ops) ++ b.ops) → (merged (merged r a) b).delivered ≡ (merged (merged r b) a).delivered }
    ensures waiting { (r : Replica Op) (a b : Batch Op) → MayMerge r a → MayMerge r b → IsHonest (((r.delivered ++ r.waiting) ++ a.ops) ++ b.ops) → (merged (merged r a) b).waiting ≡ (merged (merged r b) a).waiting }
{}

/// In an honest family each replica may merge each batch.
pub fn family_meets<T: Tower>(tower: &T)
    ensures { (n : ℕ) (ts : List (Thing T.Op)) (r : Replica T.Op) (b : Batch T.Op) → IsHonestFamily (T.meaning tower.now) n ts
        → Contains ts (replica r) → Contains ts (batch b) → MayMerge r b }
{}

/// An empty family is honest, and stays so when a member makes its first replica.
pub fn family_begins<T: Tower>(tower: &T)
    ensures empty { (n : ℕ) → IsHonestFamily (T.meaning tower.now) n [] }
    ensures joined { (n : ℕ) (ts : List (Thing T.Op)) (doc : List ℕ) (me : ℕ) → IsHonestFamily (T.meaning tower.now) n ts
        → me < n → All (λ r. r.me ≢ me) (replicas ts) → IsHonestFamily (T.meaning tower.now) n (ts ++ replica (new_replica doc me n) ∷ []) }
{}

/// An honest family stays honest when a member edits its replica by a valid operation, or merges a batch of the family.
pub fn family_goes_on<T: Tower>(tower: &T)
    ensures edited { (n : ℕ) (xs ys : List (Thing T.Op)) (r : Replica T.Op) (op : T.Op) → n ≤ max_members → IsHonestFamily (T.meaning tower.now) n (xs ++ replica r ∷ ys)
        → (T.meaning tower.now).valid (next_stamp r) op → IsHonestFamily (T.meaning tower.now) n (xs ++ replica (edited r op) ∷ ys) }
    ensures merged { (n : ℕ) (xs ys : List (Thing T.Op)) (r : Replica T.Op) (b : Batch T.Op) → IsHonestFamily (T.meaning tower.now) n (xs ++ replica r ∷ ys)
        → Contains (xs ++ replica r ∷ ys) (batch b) → IsHonestFamily (T.meaning tower.now) n (xs ++ replica (merged r b) ∷ ys) }
{}

/// An honest family stays honest when a replica is exported, be it in the place of an older batch, and when a batch comes
/// twice or is lost.
pub fn family_sends<T: Tower>(tower: &T)
    ensures exported { (n : ℕ) (xs ys : List (Thing T.Op)) (r : Replica T.Op) (to : Option ℕ) → IsHonestFamily (T.meaning tower.now) n (xs ++ ys)
        → Contains (xs ++ ys) (replica r) → IsHonestFamily (T.meaning tower.now) n (xs ++ batch (exported r to) ∷ ys) }
    ensures exported_over { (n : ℕ) (xs ys : List (Thing T.Op)) (r : Replica T.Op) (b : Batch T.Op) (to : Option ℕ) → IsHonestFamily (T.meaning tower.now) n (xs ++ batch b ∷ ys)
        → Contains (xs ++ batch b ∷ ys) (replica r) → IsHonestFamily (T.meaning tower.now) n (xs ++ batch (exported r to) ∷ ys) }
    ensures copied { (n : ℕ) (xs ys : List (Thing T.Op)) (b : Batch T.Op) → IsHonestFamily (T.meaning tower.now) n (xs ++ ys)
        → Contains (xs ++ ys) (batch b) → IsHonestFamily (T.meaning tower.now) n (xs ++ batch b ∷ ys) }
    ensures lost { (n : ℕ) (xs ys : List (Thing T.Op)) (b : Batch T.Op) → IsHonestFamily (T.meaning tower.now) n (xs ++ batch b ∷ ys) → IsHonestFamily (T.meaning tower.now) n (xs ++ ys) }
{}

/// The version of a causally closed set is, for each member, the number of its operations in the set. The stamps are of a document
/// with `n` members, and no id stands twice.
pub fn version_counts<Op>()
    ensures { (n : ℕ) (xs : List (Entry Op)) → All (λ e. IsStampOf n e.stamp) xs → AreApart xs → IsClosed xs
        → (m : ℕ) → count (version n xs) m ≡ count_by (λ e. e.stamp.member == m) xs }
{}

/// In an honest family the version of a replica counts its operations of each member, and tells which it has: one
/// replica has all that another has exactly where its version is at least the other's. Equal sets are equal lists.
pub fn family_versions<T: Tower>(tower: &T)
    ensures counts { (n : ℕ) (ts : List (Thing T.Op)) (r : Replica T.Op) → IsHonestFamily (T.meaning tower.now) n ts → Contains ts (replica r)
        → (m : ℕ) → count (version n r.delivered) m ≡ count_by (λ e. e.stamp.member == m) r.delivered }
    ensures tells { (n : ℕ) (ts : List (Thing T.Op)) (r s : Replica T.Op) → IsHonestFamily (T.meaning tower.now) n ts → Contains ts (replica r) → Contains ts (replica s)
        → IsAtMost (version n r.delivered) (version n s.delivered) ↔ ((e : Entry T.Op) → Contains r.delivered e → Contains s.delivered e) }
    ensures alike { (n : ℕ) (ts : List (Thing T.Op)) (r s : Replica T.Op) → IsHonestFamily (T.meaning tower.now) n ts → Contains ts (replica r) → Contains ts (replica s)
        → ((e : Entry T.Op) → Contains r.delivered e ↔ Contains s.delivered e) → r.delivered ≡ s.delivered }
{}
