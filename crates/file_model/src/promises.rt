//! What users may rely on, in their words. Each promise is the contract of a function that does nothing.
ghost use Rattle.std.specs.Prelude.{◌≡◌, ◌↔◌, ℕ, List, [], Bool, false, Option, Some, length};
ghost use Rattle.std.specs.List.{Contains};
ghost use Rattle.std.specs.List.Sorted.{IsPermutation};
ghost use Rattle.crdt_laws.specs.declared.small.Entry.{Entry};
ghost use Rattle.crdt_laws.specs.Present.{document};
ghost use Rattle.replica_model.specs.Family.{batch, replica};
ghost use Rattle.replica_model.specs.Replica.{Replica, Batch, exported, merged};
ghost use Rattle.file_model.specs.declared.command.Command.TheVariants.{Merge, Show, Upgrade};
ghost use Rattle.file_model.specs.declared.refusal.Refusal.{Refusal};
ghost use Rattle.file_model.specs.Document.{Format};
ghost use Rattle.file_model.specs.Folders.{replica_at};
ghost use Rattle.file_model.specs.Honest.{AreFair, IsHonestLab, all_things};
ghost use Rattle.file_model.specs.Lab.{Lab, files_of, lab_run, lab_step, meaning_for, thing};
ghost use Rattle.file_model.specs.Line.{command_of};
ghost use Rattle.file_model.specs.Named.{Files, at};
ghost use Rattle.file_model.specs.Promises.{AreExchange, IsLater, IsMeantFor, is_forgery, is_memory};
ghost use Rattle.file_model.specs.Sound.{IsFormat};
ghost use Rattle.file_model.specs.Step.{cause_of, file_run, file_step};
ghost use Rattle.file_model.specs.Text.{delivered_text, document_text};

use crate::schemas::Schemas;

/// `show` prints the document of the operations that are delivered, and of nothing else, and changes no file. So two replicas of
/// one document that have the same operations print the same bytes, in one folder or in two.
pub fn show_prints_the_document<S: Schemas>(schemas: &S)
    ensures exact { let docs = S.documents schemas.now in (form : Format S.State S.Op) (lab : Lab S.Op) (in_script : Bool) (line file : List ℕ) (r : Replica S.Op) → IsFormat docs form → IsHonestLab docs form lab
        → command_of line ≡ Some (Show file) → at lab.here file ≡ Some (thing (replica r)) → file_step docs form (files_of docs form lab) in_script line
        ≡ record { files = files_of docs form lab; text = document_text ((meaning_for docs form r).show (document (meaning_for docs form r) r.delivered)); refused = false } }
    ensures alike { let docs = S.documents schemas.now in (form : Format S.State S.Op) (lab other : Lab S.Op) (in_script : Bool) (line line' a b : List ℕ) (r s : Replica S.Op) → IsFormat docs form
        → IsHonestLab docs form lab → IsHonestLab docs form other → IsPermutation (all_things lab) (all_things other) → command_of line ≡ Some (Show a) → command_of line' ≡ Some (Show b)
        → at lab.here a ≡ Some (thing (replica r)) → at other.here b ≡ Some (thing (replica s)) → s.doc ≡ r.doc → ((e : Entry S.Op) → Contains r.delivered e ↔ Contains s.delivered e)
        → (file_step docs form (files_of docs form lab) in_script line).text ≡ (file_step docs form (files_of docs form other) in_script line').text }
{}

/// Merging twice is merging once. A merge that was accepted is accepted again, delivers nothing more, and changes no file.
pub fn merging_twice_is_merging_once<S: Schemas>(schemas: &S)
    ensures replica { let docs = S.documents schemas.now in (form : Format S.State S.Op) (lab : Lab S.Op) (r : Replica S.Op) (b : Batch S.Op) → IsHonestLab docs form lab
        → Contains (all_things lab) (replica r) → Contains (all_things lab) (batch b) → b.doc ≡ r.doc → merged (merged r b) b ≡ merged r b }
    ensures line { let docs = S.documents schemas.now in (form : Format S.State S.Op) (lab : Lab S.Op) (in_script : Bool) (line file name : List ℕ) (r : Replica S.Op) (b : Batch S.Op) → IsFormat docs form
        → IsHonestLab docs form lab → command_of line ≡ Some (Merge file name) → at lab.here file ≡ Some (thing (replica r)) → at lab.here name ≡ Some (thing (batch b))
        → let once = file_step docs form (files_of docs form lab) in_script line in once.refused ≡ false
        → file_step docs form once.files in_script line ≡ record { files = once.files; text = delivered_text 0 (length (merged r b).waiting); refused = false } }
{}

/// After two replicas of one document have sent each other all that they have, with nothing lost, they have the same, and show the
/// same. Nothing waited in them before, which is that nothing had been lost. By lines these are two exports and two merges.
pub fn exchange_makes_alike<S: Schemas>(schemas: &S)
    ensures replicas { let docs = S.documents schemas.now in (form : Format S.State S.Op) (lab : Lab S.Op) (r s : Replica S.Op) (to from : Option ℕ) → IsHonestLab docs form lab
        → Contains (all_things lab) (replica r) → Contains (all_things lab) (replica s) → s.doc ≡ r.doc → r.waiting ≡ [] → s.waiting ≡ [] → IsMeantFor r.me to → IsMeantFor s.me from
        → (merged r (exported s to)).delivered ≡ (merged s (exported r from)).delivered }
    ensures lines { let docs = S.documents schemas.now in (form : Format S.State S.Op) (lab : Lab S.Op) (a b sent back : List ℕ) (lines : List (List ℕ)) (in_script : Bool) (show_a show_b : List ℕ) (r s : Replica S.Op)
        → IsFormat docs form → IsHonestLab docs form lab → AreExchange a b sent back lines → command_of show_a ≡ Some (Show a) → command_of show_b ≡ Some (Show b)
        → at lab.here a ≡ Some (thing (replica r)) → at lab.here b ≡ Some (thing (replica s)) → s.doc ≡ r.doc → r.waiting ≡ [] → s.waiting ≡ []
        → let after = file_run docs form (files_of docs form lab) lines in after.refused ≡ false
        → (file_step docs form after.files in_script show_a).text ≡ (file_step docs form after.files in_script show_b).text }
{}

/// What was delivered is never undelivered. After fair lines there stands under the name of a replica a later state of it, which
/// has all that was delivered.
pub fn nothing_is_undelivered<S: Schemas>(schemas: &S)
    ensures later { let docs = S.documents schemas.now in (form : Format S.State S.Op) (lab : Lab S.Op) (lines : List (List ℕ)) (name : List ℕ) (r : Replica S.Op) → IsFormat docs form → IsHonestLab docs form lab
        → AreFair docs form lab lines → replica_at lab name ≡ Some r → (s : Replica S.Op) × (replica_at (lab_run docs form lab lines).lab name ≡ Some s) × IsLater r s }
{}

/// `upgrade` changes no document: it leaves the same replica under each name, and `show` prints the document of what the old save
/// had delivered.
pub fn upgrades_change_no_document<S: Schemas>(schemas: &S)
    ensures same { let docs = S.documents schemas.now in (form : Format S.State S.Op) (lab : Lab S.Op) (in_script : Bool) (line file name : List ℕ) → command_of line ≡ Some (Upgrade file)
        → (lab_step docs form lab in_script line).refused ≡ false → replica_at (lab_step docs form lab in_script line).lab name ≡ replica_at lab name }
    ensures shown { let docs = S.documents schemas.now in (form : Format S.State S.Op) (lab : Lab S.Op) (in_script : Bool) (line show file : List ℕ) (r : Replica S.Op) → IsFormat docs form → IsHonestLab docs form lab
        → command_of line ≡ Some (Upgrade file) → command_of show ≡ Some (Show file) → replica_at lab file ≡ Some r
        → let after = file_step docs form (files_of docs form lab) in_script line in after.refused ≡ false
        → (file_step docs form after.files in_script show).text ≡ document_text ((meaning_for docs form r).show (document (meaning_for docs form r) r.delivered)) }
{}

/// From the files of an honest lab no line is refused as `bad-op`, `rollback` or `fork`. And from no files is a line refused
/// because memory ran out.
pub fn honest_files_meet_no_forgery<S: Schemas>(schemas: &S)
    ensures forged { let docs = S.documents schemas.now in (form : Format S.State S.Op) (lab : Lab S.Op) (in_script : Bool) (line : List ℕ) (cause : Refusal) → IsFormat docs form → IsHonestLab docs form lab
        → cause_of docs form (files_of docs form lab) in_script line ≡ Some cause → is_forgery cause ≡ false }
    ensures memory { let docs = S.documents schemas.now in (form : Format S.State S.Op) (files : Files) (in_script : Bool) (line : List ℕ) (cause : Refusal) → IsFormat docs form
        → cause_of docs form files in_script line ≡ Some cause → is_memory cause ≡ false }
{}
