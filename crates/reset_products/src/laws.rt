//! What the resets keep. Each law is the contract of a function that does nothing, or only cites the law that every tower proves.
ghost use Rattle.std.specs.Prelude.{◌≡◌, ◌≤◌, ◌↔◌, ℕ, List, length, take, drop, IsTrue, IsFalse};
ghost use Rattle.std.specs.List.{All};
ghost use Rattle.vector_clock.specs.declared.clock.Clock.{Clock};
ghost use Rattle.vector_clock.specs.Stamp.{are_concurrent};
ghost use Rattle.crdt_laws.specs.Actor.{IsLawfulAction};
ghost use Rattle.crdt_laws.specs.Tower.{IsLawful};
ghost use Rattle.semidirect_product.specs.Maybe.{maybe_meaning};
ghost use Rattle.semidirect_product.specs.Reset.{reset_action};
ghost use Rattle.crdt_laws.specs.declared.small.Entry.{Entry};
ghost use Rattle.crdt_laws.specs.Present.{apply_all, document};
ghost use Rattle.crdt_laws.specs.Sets.{AreApart, AreIssued, IsCausal, canonical};
ghost use Rattle.reset_products.specs.Cut.{IsCleanPrefix, clean_cut, is_clean_prefix};
ghost use Rattle.reset_products.specs.Observed.{Logged, observed_meaning, observed_settle, value_of};
ghost use Rattle.reset_products.specs.Forgotten.{unforgotten};
ghost use Rattle.reset_products.specs.Untouched.{WinningOp, untouched, winning_meaning};
ghost use Rattle.reset_products.specs.declared.observed.ObservedOp.{ObservedOp};

use crate::observed::Observed;
use crate::wins::Winning;
use crdt_laws::{Tower, acts_lawfully, is_lawful};
use semidirect_product::{Maybe, WinReset};

/// Resets that win act lawfully on each tower with operations that do nothing.
pub fn resets_act_lawfully<T: Tower>(low: &Maybe<T>)
    ensures { IsLawfulAction (maybe_meaning (T.meaning low.now.part)) (reset_action (T.meaning low.now.part)) }
{
    acts_lawfully(&WinReset, low);
}

/// A tower with winning resets is a lawful tower.
pub fn winning_is_lawful<T: Tower>(tower: &Winning<T>)
    ensures { IsLawful (winning_meaning (T.meaning tower.now.low.part)) }
{
    is_lawful(tower);
}

/// A plain tower with observed resets is a lawful tower.
pub fn observed_is_lawful<T: Tower>(tower: &Observed<T>)
    ensures { IsLawful (observed_meaning (T.meaning tower.now.part)) }
{
    is_lawful(tower);
}

/// The cut is a clean prefix of the log, and no longer one is clean. Nothing in it is concurrent to what comes after it.
pub fn longest_clean_prefix<Op>()
    ensures test { (k : Clock) (log : List (Entry Op)) (n : ℕ) → IsTrue (is_clean_prefix k log n) ↔ IsCleanPrefix k log n }
    ensures within { (k : Clock) (log : List (Entry Op)) → clean_cut log k ≤ length log }
    ensures clean { (k : Clock) (log : List (Entry Op)) → IsCleanPrefix k log (clean_cut log k) }
    ensures apart { (k : Clock) (log : List (Entry Op)) → All (λ x. All (λ y. IsFalse (are_concurrent x.stamp y.stamp)) (drop (clean_cut log k) log)) (take (clean_cut log k) log) }
    ensures longest { (k : Clock) (log : List (Entry Op)) (n : ℕ) → n ≤ length log → IsCleanPrefix k log n → n ≤ clean_cut log k }
{}

/// Settling does not change the value: nothing that is folded into the base is concurrent to what is left in the log.
pub fn settled_value<T: Tower>(tower: &T)
    ensures { (s : Logged T.State T.Op) (k : Clock) → value_of (T.meaning tower.now) (observed_settle (T.meaning tower.now) s k) ≡ value_of (T.meaning tower.now) s }
{}

/// In whatever causal order operations and observed resets come, the value is that of exactly the operations that no reset knew
/// of, by rising key.
pub fn value_of_unforgotten<T: Tower>(tower: &T)
    ensures { (xs : List (Entry (ObservedOp T.Op))) → AreApart xs → IsCausal xs → value_of (T.meaning tower.now) (apply_all (observed_meaning (T.meaning tower.now)) (observed_meaning (T.meaning tower.now)).init xs) ≡ document (T.meaning tower.now) (canonical (unforgotten xs)) }
{}

/// In whatever causal order operations and winning resets stand, their document is that of exactly the operations that come after
/// each reset: what is concurrent to a reset never survives it, and what is later always does.
pub fn document_of_untouched<T: Tower>(tower: &T)
    ensures { (n : ℕ) (xs : List (Entry (WinningOp T.Op))) → AreIssued (winning_meaning (T.meaning tower.now)) n xs → AreApart xs → IsCausal xs → document (winning_meaning (T.meaning tower.now)) xs ≡ document (T.meaning tower.now) (untouched xs) }
{}
