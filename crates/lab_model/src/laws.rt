//! What whole runs keep. Each law is the contract of a function that does nothing.
ghost use Rattle.std.specs.Prelude.{◌≡◌, ℕ, ◌+◌, ◌≤◌, List, [], ◌++◌, ◌↔◌, IsTrue, Some, length};
ghost use Rattle.vector_clock.specs.Clock.{max_seq};
ghost use Rattle.std.specs.List.{Contains};
ghost use Rattle.crdt_laws.specs.declared.small.Entry.{Entry};
ghost use Rattle.crdt_laws.specs.Sets.{IsClosed};
ghost use Rattle.replica_model.specs.Replica.{Replica, Batch};
ghost use Rattle.replica_model.specs.Family.{MayMerge, replica, batch};
ghost use Rattle.lab_model.specs.declared.command.Command.TheVariants.{Show};
ghost use Rattle.lab_model.specs.declared.command.Verb.{Verb};
ghost use Rattle.lab_model.specs.Lab.{Lab, act, lab_run, lab_step, thing_at};
ghost use Rattle.lab_model.specs.Honest.{AreFair, CountAtMost, IsHonestLab, MakesValid};

use crdt_laws::Tower;

/// Fair lines keep a lab honest while its sequence numbers stay within the limit. A line adds one to them at most, so
/// [`MAX_SEQ`](vector_clock::MAX_SEQ) lines may run from an empty lab.
pub fn fair_runs<T: Tower>(tower: &T)
    ensures honest { (made : Verb → ℕ → T.Op) (lab : Lab T.Op) (lines : List (List ℕ)) (k : ℕ) → MakesValid (T.meaning tower.now) made
        → IsHonestLab (T.meaning tower.now) lab → CountAtMost k lab → AreFair (T.meaning tower.now) made lab lines → k + length lines ≤ max_seq
        → IsHonestLab (T.meaning tower.now) (lab_run (T.meaning tower.now) made lab lines).lab }
    ensures counted { (made : Verb → ℕ → T.Op) (lab : Lab T.Op) (lines : List (List ℕ)) (k : ℕ) → MakesValid (T.meaning tower.now) made
        → IsHonestLab (T.meaning tower.now) lab → CountAtMost k lab → AreFair (T.meaning tower.now) made lab lines → k + length lines ≤ max_seq
        → CountAtMost (k + length lines) (lab_run (T.meaning tower.now) made lab lines).lab }
    ensures from_empty { (made : Verb → ℕ → T.Op) (lines : List (List ℕ)) → MakesValid (T.meaning tower.now) made
        → AreFair (T.meaning tower.now) made [] lines → length lines ≤ max_seq
        → IsHonestLab (T.meaning tower.now) (lab_run (T.meaning tower.now) made [] lines).lab }

    // Nothing is missing that an operation which is in knew of.
    ensures closed { (made : Verb → ℕ → T.Op) (lines : List (List ℕ)) (name : List ℕ) (r : Replica T.Op) → MakesValid (T.meaning tower.now) made
        → AreFair (T.meaning tower.now) made [] lines → length lines ≤ max_seq
        → thing_at (lab_run (T.meaning tower.now) made [] lines).lab name ≡ Some (replica r) → IsClosed r.delivered }
{}

/// In an honest lab what each replica has in is a causally closed set, and each replica may merge each batch. Two replicas
/// with the same operations in print the same text.
pub fn honest_labs<T: Tower>(tower: &T)
    ensures closed { (lab : Lab T.Op) (name : List ℕ) (r : Replica T.Op) → IsHonestLab (T.meaning tower.now) lab → thing_at lab name ≡ Some (replica r) → IsClosed r.delivered }
    ensures meets { (lab : Lab T.Op) (name other : List ℕ) (r : Replica T.Op) (b : Batch T.Op) → IsHonestLab (T.meaning tower.now) lab
        → thing_at lab name ≡ Some (replica r) → thing_at lab other ≡ Some (batch b) → MayMerge r b }
    ensures alike { (made : Verb → ℕ → T.Op) (lab : Lab T.Op) (name other : List ℕ) (r s : Replica T.Op) → IsHonestLab (T.meaning tower.now) lab
        → thing_at lab name ≡ Some (replica r) → thing_at lab other ≡ Some (replica s) → ((e : Entry T.Op) → Contains r.delivered e ↔ Contains s.delivered e)
        → act (T.meaning tower.now) made lab (Show name) ≡ act (T.meaning tower.now) made lab (Show other) }
{}

/// A line that is refused changes nothing.
pub fn refused_lines<T: Tower>(tower: &T)
    ensures { (made : Verb → ℕ → T.Op) (lab : Lab T.Op) (line : List ℕ) → IsTrue (lab_step (T.meaning tower.now) made lab line).refused
        → (lab_step (T.meaning tower.now) made lab line).lab ≡ lab }
{}

/// A run of lines goes on from what its first lines leave.
pub fn runs_in_parts<T: Tower>(tower: &T)
    ensures lab { (made : Verb → ℕ → T.Op) (lab : Lab T.Op) (first rest : List (List ℕ)) → (lab_run (T.meaning tower.now) made lab (first ++ rest)).lab
        ≡ (lab_run (T.meaning tower.now) made (lab_run (T.meaning tower.now) made lab first).lab rest).lab }
    ensures text { (made : Verb → ℕ → T.Op) (lab : Lab T.Op) (first rest : List (List ℕ)) → (lab_run (T.meaning tower.now) made lab (first ++ rest)).text
        ≡ (lab_run (T.meaning tower.now) made lab first).text ++ (lab_run (T.meaning tower.now) made (lab_run (T.meaning tower.now) made lab first).lab rest).text }
{}
