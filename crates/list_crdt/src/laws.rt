ghost use Rattle.std.specs.Prelude.{◌≡◌, ◌≢◌, ℕ, ◌≤◌, ◌<◌, ◌⊎◌, List, ◌∷◌, ◌++◌, Option, Some, length, insert, remove};
ghost use Rattle.std.specs.declared.cmp.Ordering.TheVariants.{Less};
ghost use Rattle.std.specs.Char.{IsScalar};
ghost use Rattle.vector_clock.specs.declared.clock.Clock.{Clock};
ghost use Rattle.vector_clock.specs.declared.stamp.Stamp.{Stamp};
ghost use Rattle.vector_clock.specs.Clock.{count};
ghost use Rattle.vector_clock.specs.Stamp.{IsAfter, IsStamp};
ghost use Rattle.crdt_laws.specs.Tower.{IsLawful, IsWithin};
ghost use Rattle.list_crdt.specs.declared.position.Step.{Step};
ghost use Rattle.list_crdt.specs.declared.text.Cell.{Cell};
ghost use Rattle.list_crdt.specs.declared.text.TextOp.TheVariants.{Insert, Delete};
ghost use Rattle.list_crdt.specs.Position.{IsBefore, IsPosition, IsPositionOf, maker, max_steps, step_cmp};
ghost use Rattle.list_crdt.specs.Between.{AreInOrder, IsBetween, position_between};
ghost use Rattle.list_crdt.specs.Text.{IsEditOf, IsText, IsTextAt, edited, place, place_before, text_meaning};

use crate::text::Text;
use crdt_laws::is_lawful;

/// Positions are strictly and totally ordered. A proper prefix comes first, and else the first step that differs decides.
pub fn position_order()
    ensures irreflexive { (p : List Step) → IsBefore p p → ⊥ }
    ensures transitive { (p q r : List Step) → IsBefore p q → IsBefore q r → IsBefore p r }
    ensures total { (p q : List Step) → p ≢ q → IsBefore p q ⊎ IsBefore q p }
    ensures prefix { (p q : List Step) (s : Step) → IsBefore p (p ++ s ∷ q) }
    ensures first_other { (p q r : List Step) (s t : Step) → step_cmp s t ≡ Less → IsBefore (p ++ s ∷ q) (p ++ t ∷ r) }
    ensures any_document { (n : ℕ) (p : List Step) → IsPositionOf n p → IsPosition p }
{}

/// The next position, also one of too many steps, is strictly between the two that it was made for. Two different operations
/// never get one position, whatever these were made between.
pub fn next_positions()
    ensures between { (member seq : ℕ) (p q : Option (List Step)) → AreInOrder p q
        → IsBetween p q (position_between member seq p q) }
    ensures maker { (member seq : ℕ) (p q : Option (List Step))
        → maker (position_between member seq p q) ≡ record { member = member; seq = seq } }
    ensures apart { (m n s t : ℕ) (p q u v : Option (List Step)) → (m ≡ n → s ≡ t → ⊥)
        → position_between m s p q ≢ position_between n t u v }
{}

/// Between the characters around an index there is a next position, a character that is inserted there comes to stand at
/// the index, and a delete of the position at an index takes out the character there.
pub fn edits_by_index()
    ensures neighbours { (n i : ℕ) (s : List Cell) → IsText n s → AreInOrder (place_before s i) (place s i) }
    ensures insert { (n i member seq ch : ℕ) (s : List Cell) → IsText n s → i ≤ length s
        → (let at = position_between member seq (place_before s i) (place s i)
        in edited s (Insert at ch) ≡ insert s i (record { at = at; ch = ch })) }
    ensures delete { (n i : ℕ) (s : List Cell) (at : List Step) → IsText n s → i < length s → place s i ≡ Some at
        → edited s (Delete at) ≡ remove s i }
{}

/// What a member does next by index is valid at its stamp: an insert whose position has at most 32 steps, and a delete of
/// what the member knows.
pub fn valid_edits()
    ensures insert { (p : Stamp) (i ch : ℕ) (s : List Cell) → IsStamp p → IsWithin p → IsScalar ch → IsText p.clock.n s
        → (let at = position_between p.member (count p.clock p.member) (place_before s i) (place s i)
        in length at ≤ max_steps → IsEditOf p (Insert at ch)) }
    ensures delete { (p : Stamp) (known : Clock) (i : ℕ) (s : List Cell) (at : List Step) → IsWithin p
        → known.n ≡ p.clock.n → IsAfter known p → IsTextAt known s → place s i ≡ Some at → IsEditOf p (Delete at) }
{}

/// Texts are a lawful tower.
pub fn text_is_lawful()
    ensures { IsLawful text_meaning }
{
    is_lawful(&Text);
}
