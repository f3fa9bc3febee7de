//! The check of a table in a file.
ghost use Rattle.std.specs.Prelude.{◌≡◌, ◌⊎◌, ℕ, ◌<◌, ◌≤◌, List, Some, Err, IfOk, IsOk, OnErr, IsErrOf, length, string_bytes};
ghost use Rattle.std.specs.Option.{option_map};
ghost use Rattle.lab_store.specs.Store.{IsLonger, file_at};
ghost use Rattle.lab_store.specs.Stream.{Rose};
ghost use Rattle.lab_model.specs.Text.{verdict_text};
ghost use Rattle.replica_cmd.specs.Check.{IsFinding, PutsFinding, PutsPart, Says, is_broken};
ghost use Rattle.replica_cmd.specs.Reading.{most_file_bytes};
ghost use Rattle.replica_cmd.specs.Run.{IsSaid, Puts};

use crate::answer::{Reply, refusal_of};
use crate::outside::{file_of, put_text};
use crate::stop::Stop;
use action_tables::{TableFault, Verdict, named_table};
use crdt_laws::NoMemory;
use lab_model::{FileName, Refusal};
use lab_store::{Sink, Store};
use std::alloc::Global;

/// What is said of a broken case.
fn text_of_case(alloc: Global, law: u8, a: u8, b: u8, c: u8) -> Result<String, NoMemory>
    ensures { IfOk result (λ text. string_bytes text ≡ verdict_text (Verdict.Broken law a b c)) }
{
    Ok(format!(in alloc; "broken {law} {a} {b} {c}\n")?)
}

/// What is said of a verdict. A broken table counts as refused.
fn answer_of(alloc: Global, verdict: Verdict) -> Result<Reply, NoMemory>
    ensures text { IfOk result (λ reply. string_bytes reply.text ≡ verdict_text verdict) }
    ensures refused { IfOk result (λ reply. reply.refused ≡ is_broken verdict) }
    ensures said { IfOk result (λ reply. IsSaid (string_bytes reply.text) reply.refused) }
{
    match verdict {
        Verdict::Lawful => Ok(Reply {
            text: String::from_str(alloc, "lawful\n")?,
            refused: false,
        }),
        Verdict::Broken { law, a, b, c } => Ok(Reply {
            text: text_of_case(alloc, law, a, b, c)?,
            refused: true,
        }),
    }
}

/// What is found of the bytes of a file: why they are no table, or the verdict on it.
fn finding_of(alloc: Global, bytes: &[u8]) -> Result<Reply, NoMemory>
    ensures finding { IfOk result (λ reply. IsFinding bytes.now (string_bytes reply.text) reply.refused) }
    ensures said { IfOk result (λ reply. IsSaid (string_bytes reply.text) reply.refused) }
{
    match named_table(alloc, bytes) {
        Ok(named) => answer_of(alloc, named.table.check()),
        Err(TableFault::NoMemory) => Err(NoMemory),
        Err(fault) => refusal_of(alloc, &Refusal::Table(fault)),
    }
}

/// What is found of a file, if there is one of the name.
fn reply_of(alloc: Global, file: Option<Vec<u8>>, name: FileName) -> Result<Reply, NoMemory>
    ensures says { IfOk result (λ reply. Says (option_map (λ v. v.items) file) name (string_bytes reply.text) reply.refused) }
    ensures said { IfOk result (λ reply. IsSaid (string_bytes reply.text) reply.refused) }
{
    match file {
        Some(bytes) => finding_of(alloc, bytes.as_slice()),
        None => refusal_of(alloc, &Refusal::Missing(name)),
    }
}

/// Checks the table in the file of this name, puts what is found, and says whether that is a refusal or a broken table.
pub(crate) fn check<K: Store, W: Sink>(
    alloc: Global,
    table: FileName,
    store: &mut K,
    sink: &mut W,
) -> Result<bool, Stop>
    ensures found { IfOk result (λ bad. (all : List (List ℕ × List ℕ)) → K.files store.old ≡ Some all → PutsFinding (file_at all table) table (W.told sink.old) (W.told sink.new) bad) }
    ensures puts { IfOk result (λ bad. Puts (W.told sink.old) (W.told sink.new) bad) }
    ensures part { IsErrOf result Stop.Sink → (all : List (List ℕ × List ℕ)) → K.files store.old ≡ Some all → PutsPart (file_at all table) table (W.told sink.old) (W.told sink.new) }
    ensures short { IsOk result ⊎ IsErrOf result Stop.Sink → (all : List (List ℕ × List ℕ)) (bytes : List ℕ) → K.files store.old ≡ Some all → file_at all table ≡ Some bytes → length bytes ≤ most_file_bytes }
    ensures long { IsErrOf result Stop.Long → IsLonger (K.files store.old) table most_file_bytes }
    ensures nothing { IsErrOf result Stop.NoMemory ⊎ (IsErrOf result Stop.Store ⊎ IsErrOf result Stop.Long) → W.told sink.new ≡ W.told sink.old }
    ensures store_fault { IsErrOf result Stop.Store → Rose (K.fetch_faults store.old) (K.fetch_faults store.new) }
    ensures sink_fault { IsErrOf result Stop.Sink → Rose (W.faults sink.old) (W.faults sink.new) }
    ensures files { K.files store.new ≡ K.files store.old }
    ensures not_the_source { IsErrOf result Stop.Source → ⊥ }
{
    let file = file_of(alloc, store, &table)?;
    let reply = reply_of(alloc, file, table)?;
    put_text(alloc, sink, reply.text.as_str())?;
    Ok(reply.refused)
}
