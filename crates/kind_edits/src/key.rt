ghost use Rattle.std.specs.Prelude.{◌≡◌, ◌≢◌, Err, Ok, IfErr, IfOk};
ghost use Rattle.vector_clock.specs.declared.stamp.Stamp.{Stamp};
ghost use Rattle.crdt_laws.specs.Tower.{IsWithin};
ghost use Rattle.map_crdt.specs.Keyed.{keyed_meaning};
ghost use Rattle.number_crdts.specs.Number.{number_meaning};
ghost use Rattle.register_crdts.specs.Latest.{latest_meaning};
ghost use Rattle.kind_edits.specs.KeyEdit.{entry_edit, tally_edit, within_key};

use crate::fault::EditError;
use crate::number::{number_op, number_verb};
use crate::spelled::signed_of;
use crate::text::{check_text, own_text};
use crate::words::{first_word, only_word};
use crdt_laws::Txt;
use map_crdt::KeyOp;
use number_crdts::NumberOp;
use std::alloc::Global;

/// That the key has at most 256 bytes.
fn check_key(key: &str) -> Result<(), EditError>
    ensures { result ≡ within_key key.now (Ok tt) }
{
    if key.len() > 256 {
        Err(EditError::KeyLong {
            bytes: key.len() as u64,
        })
    } else {
        Ok(())
    }
}

/// The operation of an edit of a tally, whose numbers are residues by `modulus`, where 0 stands for 2^64: `add` or `mul`, a key and a
/// signed number. It is refused as `NoVerb`, `KeyLong` or `BadNumber`, and does not depend on the numbers of the tally. `NoMemory`
/// comes where it runs out of memory.
pub fn prepare_tally(
    alloc: Global,
    modulus: u64,
    verb: &str,
    rest: &str,
) -> Result<KeyOp<NumberOp>, EditError>
    ensures ok { IfOk result (λ op. tally_edit modulus verb.now rest.now ≡ Ok op) }
    ensures refused { IfErr result (λ fault. fault ≢ EditError.NoMemory → tally_edit modulus verb.now rest.now ≡ Err fault) }
    ensures valid { IfOk result (λ op. (p : Stamp) → IsWithin p → (keyed_meaning (number_meaning modulus)).valid p op) }
{
    let verb = number_verb(verb).ok_or(EditError::NoVerb)?;
    let (key, after) = first_word(rest).ok_or(EditError::NoVerb)?;
    let word = only_word(after).ok_or(EditError::NoVerb)?;
    check_key(key)?;
    let number = signed_of(word).ok_or(EditError::BadNumber)?;
    let op = number_op(modulus, verb, number);
    let key = own_text(alloc, key)?;
    Ok(KeyOp { key, op })
}

/// The operation of an edit of texts at keys: `put`, a key and the text, which may be empty. It is refused as `NoVerb`, `KeyLong` or
/// `TextLong`, and does not depend on the texts that are there. `NoMemory` comes where it runs out of memory.
pub fn prepare_entry(alloc: Global, verb: &str, rest: &str) -> Result<KeyOp<Txt>, EditError>
    ensures ok { IfOk result (λ op. entry_edit verb.now rest.now ≡ Ok op) }
    ensures refused { IfErr result (λ fault. fault ≢ EditError.NoMemory → entry_edit verb.now rest.now ≡ Err fault) }
    ensures valid { IfOk result (λ op. (p : Stamp) → IsWithin p → (keyed_meaning latest_meaning).valid p op) }
{
    if verb != "put" {
        return Err(EditError::NoVerb);
    }
    let (key, text) = first_word(rest).ok_or(EditError::NoVerb)?;
    check_key(key)?;
    check_text(text)?;
    let key = own_text(alloc, key)?;
    let op = own_text(alloc, text)?;
    Ok(KeyOp { key, op })
}
