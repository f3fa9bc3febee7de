ghost use Rattle.std.specs.Prelude.{◌≡◌, ◌≢◌, Err, Ok, IfErr, IfOk, length, nat_le};
ghost use Rattle.vector_clock.specs.declared.stamp.Stamp.{Stamp};
ghost use Rattle.crdt_laws.specs.Tower.{IsWithin};
ghost use Rattle.register_crdts.specs.Latest.{latest_meaning};
ghost use Rattle.register_crdts.specs.Several.{several_meaning};
ghost use Rattle.kind_edits.specs.Rules.{demands};
ghost use Rattle.kind_edits.specs.TextEdit.{register_edit, within_text};

use crate::fault::EditError;
use crdt_laws::{NoMemory, Txt};
use std::alloc::Global;

/// That the text has at most 1,024 bytes.
pub(crate) fn check_text(text: &str) -> Result<(), EditError>
    ensures { result ≡ within_text text.now (Ok tt) }
{
    if text.len() > 1024 {
        Err(EditError::TextLong {
            bytes: text.len() as u64,
        })
    } else {
        Ok(())
    }
}

/// The text as one of its own.
pub(crate) fn own_text(alloc: Global, text: &str) -> Result<Txt, NoMemory>
    ensures { IfOk result (λ own. own ≡ text.now) }
{
    Ok(Txt {
        items: Vec::from_slice(alloc, text.as_bytes())?,
    })
}

/// The operation of an edit of a register of one text or of several: `set` and the text, which may be empty. It is refused as
/// `NoVerb` or `TextLong`, and does not depend on what the register holds. `NoMemory` comes where it runs out of memory.
pub fn prepare_register(alloc: Global, verb: &str, rest: &str) -> Result<Txt, EditError>
    ensures ok { IfOk result (λ op. register_edit verb.now rest.now ≡ Ok op) }
    ensures refused { IfErr result (λ fault. fault ≢ EditError.NoMemory → register_edit verb.now rest.now ≡ Err fault) }
    ensures latest { IfOk result (λ op. (p : Stamp) → IsWithin p → latest_meaning.valid p op) }
    ensures several { IfOk result (λ op. (p : Stamp) → IsWithin p → several_meaning.valid p op) }
{
    if verb != "set" {
        return Err(EditError::NoVerb);
    }
    check_text(rest)?;
    Ok(own_text(alloc, rest)?)
}
