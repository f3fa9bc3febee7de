//! One handler for each command: what it does to a lab, and what it prints.
ghost use Rattle.std.specs.Prelude.{◌≡◌, codes, false, string_bytes, IfOk};
ghost use Rattle.serde_json.specs.Data.{member, no_members, object};
ghost use Rattle.serde_json.specs.View.{view};
ghost use Rattle.serde_json.specs.Written.{has_float};
ghost use Rattle.lab_model.specs.Text.{delivered_text, document_text};

use crate::lab::Lab;
use crate::things::{Hindrance, Thing};
use crdt_laws::{NoMemory, Tower, Txt, document};
use lab_model::{FileName, Refusal};
use number_crdts::{NumberOp, number};
use replica_core::{Replica, copy_batch};
use serde_json::{Value, json};
use std::alloc::Global;

/// The schema `@pair`: a number `n`, and two members.
const PAIR_TEXT: &str =
    "{\"doc\":\"pair\",\"fields\":[{\"kind\":\"number\",\"name\":\"n\"}],\"members\":2}";

/// How many members the schema has.
const PAIR_MEMBERS: u8 = 2;

/// A document whose one field is `n`.
fn document_with(alloc: Global, n: Value) -> Result<Value, NoMemory>
    ensures { IfOk result (λ value. view value ≡ object (member (codes "n") (view n) no_members)) }
{
    Ok(json!(in alloc; {"n": n})?)
}

/// The text of such a document.
fn text_of_document(alloc: Global, n: Value) -> Result<String, NoMemory>
    requires { has_float (view n) ≡ false }
    ensures { IfOk result (λ text. string_bytes text ≡ document_text (view n)) }
{
    let document = document_with(alloc, n)?;
    let mut text = document.to_string(alloc)?;
    text.push_str("\n")?;
    Ok(text)
}

/// What a merge prints.
fn text_of_merge(alloc: Global, delivered: usize, waiting: usize) -> Result<String, NoMemory>
    ensures { IfOk result (λ text. string_bytes text ≡ delivered_text delivered waiting) }
{
    Ok(format!(in alloc; "delivered {delivered} waiting {waiting}\n")?)
}

impl Lab {
    ghost use Rattle.std.specs.Prelude.{◌≡◌, ◌<◌, string_bytes, IfOk};
    ghost use Rattle.lab_model.specs.Lab.{thing_at, pair_members, new_under, edit_under, show_under, export_under, merge_under};
    ghost use Rattle.lab_model.specs.Honest.{IsHonestLab};
    ghost use Rattle.replica_core.specs.Kept.{IsKept};
    ghost use Rattle.number_crdts.specs.Number.{number_meaning};
    ghost use Rattle.replica_cmd.specs.Number.{number_op};
    ghost use Rattle.replica_cmd.specs.Run.{IsAccepted};
    ghost use Rattle.replica_cmd.specs.Things.{contents, most_made, Answers, IsKeptLab, IsLabUpTo, Keeps};

    /// Makes a replica.
    pub(crate) fn make(
        &mut self,
        alloc: Global,
        file: FileName,
        member: u8,
    ) -> Result<String, Hindrance>
        requires member { member < pair_members }
        requires kept { IsKeptLab (contents self.old) }
        ensures answers { Answers result (contents self.new) (new_under (number_meaning 0) number_op (contents self.old) file member (thing_at (contents self.old) file)) }
        ensures keeps { Keeps (contents self.old) (contents self.new) result }
        ensures said { IfOk result (λ text. IsAccepted (string_bytes text)) }
    {
        match self.find(&file) {
            Some(Thing::Replica(_)) => return Err(Hindrance::Refused(Refusal::Exists(file))),
            Some(Thing::Batch(_)) => return Err(Hindrance::Refused(Refusal::Unbuilt)),
            None => {}
        }
        let doc = Txt {
            items: Vec::from_slice(alloc, PAIR_TEXT.as_bytes())?,
        };
        let replica = Replica::new(alloc, doc, member, PAIR_MEMBERS)?;
        self.put(file, Thing::Replica(replica))?;
        Ok(String::from_str(alloc, "ok\n")?)
    }

    /// Changes the number of a replica.
    pub(crate) fn edit(
        &mut self,
        alloc: Global,
        file: FileName,
        op: NumberOp,
    ) -> Result<String, Hindrance>
        requires well_formed { (number_meaning 0).well_formed op }
        requires kept { IsKeptLab (contents self.old) }
        requires room { IsLabUpTo most_made (contents self.old) }
        ensures answers { Answers result (contents self.new) (edit_under (number_meaning 0) number_op (contents self.old) file op (thing_at (contents self.old) file)) }
        ensures keeps { Keeps (contents self.old) (contents self.new) result }
        ensures said { IfOk result (λ text. IsAccepted (string_bytes text)) }
    {
        let (gap, replica) = self.take_replica(file)?;
        let replica = replica.edit(alloc, &number(), op)?;
        self.put_back(gap, replica)?;
        Ok(String::from_str(alloc, "made 1\n")?)
    }

    /// Prints the document of a replica.
    pub(crate) fn show(&self, alloc: Global, file: FileName) -> Result<String, Hindrance>
        requires kept { IsKeptLab (contents self.now) }
        ensures answers { Answers result (contents self.now) (show_under (number_meaning 0) number_op (contents self.now) file (thing_at (contents self.now) file)) }
        ensures said { IfOk result (λ text. IsAccepted (string_bytes text)) }
    {
        let replica = match self.find(&file) {
            Some(Thing::Replica(replica)) => replica,
            Some(Thing::Batch(_)) => return Err(Hindrance::Refused(Refusal::Unbuilt)),
            None => return Err(Hindrance::Refused(Refusal::Missing(file))),
        };
        let state = document(alloc, &number(), &replica.delivered)?;
        let shown = number().show(alloc, &state)?;
        Ok(text_of_document(alloc, shown)?)
    }

    /// Writes the operations of a replica that not all members are known to have.
    pub(crate) fn export(
        &mut self,
        alloc: Global,
        file: FileName,
        name: FileName,
    ) -> Result<String, Hindrance>
        requires kept { IsKeptLab (contents self.old) }
        ensures answers { Answers result (contents self.new) (export_under (number_meaning 0) number_op (contents self.old) file name (thing_at (contents self.old) file) (thing_at (contents self.old) name)) }
        ensures keeps { Keeps (contents self.old) (contents self.new) result }
        ensures said { IfOk result (λ text. IsAccepted (string_bytes text)) }
    {
        if let Some(Thing::Replica(_)) = self.find(&name) {
            return Err(Hindrance::Refused(Refusal::Unbuilt));
        }
        let batch = match self.find(&file) {
            Some(Thing::Replica(replica)) => replica.export(alloc, &number(), None)?,
            Some(Thing::Batch(_)) => return Err(Hindrance::Refused(Refusal::Unbuilt)),
            None => return Err(Hindrance::Refused(Refusal::Missing(file))),
        };
        let count = batch.ops.len();
        self.put(name, Thing::Batch(batch))?;
        Ok(format!(in alloc; "wrote {count}\n")?)
    }

    /// Takes a batch into a replica.
    pub(crate) fn merge(
        &mut self,
        alloc: Global,
        file: FileName,
        name: FileName,
    ) -> Result<String, Hindrance>
        requires kept { IsKeptLab (contents self.old) }
        ensures answers { IsHonestLab (number_meaning 0) (contents self.old) → Answers result (contents self.new) (merge_under (number_meaning 0) number_op (contents self.old) file name (thing_at (contents self.old) file) (thing_at (contents self.old) name)) }
        ensures keeps { Keeps (contents self.old) (contents self.new) result }
        ensures said { IfOk result (λ text. IsAccepted (string_bytes text)) }
    {
        let batch = match (self.find(&file), self.find(&name)) {
            (Some(Thing::Batch(_)), _) | (_, Some(Thing::Replica(_))) => {
                return Err(Hindrance::Refused(Refusal::Unbuilt));
            }
            (None, _) => return Err(Hindrance::Refused(Refusal::Missing(file))),
            (_, None) => return Err(Hindrance::Refused(Refusal::Missing(name))),
            (_, Some(Thing::Batch(batch))) => copy_batch(alloc, &number(), batch)?,
        };
        let (gap, replica) = self.take_replica(file)?;
        let (replica, merged) = replica.merge(alloc, &number(), batch)?;
        self.put_back(gap, replica)?;
        Ok(text_of_merge(alloc, merged.delivered, merged.waiting)?)
    }
}
