ghost use Rattle.std.specs.Prelude.{◌≡◌, IfOk};
ghost use Rattle.vector_clock.specs.declared.stamp.Stamp.{Stamp};
ghost use Rattle.crdt_laws.specs.Tower.{IsWithin};
ghost use Rattle.number_crdts.specs.Number.{number_meaning};
ghost use Rattle.kind_edits.specs.Spelled.{residue};
ghost use Rattle.kind_edits.specs.NumberEdit.{number_edit, number_op, number_verb};

use crate::fault::EditError;
use crate::spelled::{residue, signed_of};
use crate::words::only_word;
use number_crdts::NumberOp;
use semidirect_product::StackOp;

/// What an edit does with a number.
#[derive(Clone, Copy, Debug, PartialEq, Eq)]
pub(crate) enum NumberVerb {
    Add,
    Mul,
}

/// What the verb does with a number, where it does something.
pub(crate) fn number_verb(verb: &str) -> Option<NumberVerb>
    ensures { result ≡ number_verb verb.now }
{
    match verb {
        "add" => Some(NumberVerb::Add),
        "mul" => Some(NumberVerb::Mul),
        _ => None,
    }
}

/// The addition of a signed number, or the multiplication by it, where its residue by `modulus` stands for it.
pub(crate) fn number_op(modulus: u64, verb: NumberVerb, number: i64) -> NumberOp
    ensures op { result ≡ number_op verb (residue modulus number) }
    ensures valid { (p : Stamp) → IsWithin p → (number_meaning modulus).valid p result }
{
    let residue = residue(modulus, number);
    match verb {
        NumberVerb::Add => StackOp::Low(residue),
        NumberVerb::Mul => StackOp::High(residue),
    }
}

/// The operation of an edit of a number by `modulus`, where 0 stands for 2^64: `add` or `mul`, and a signed number. It is refused as
/// `NoVerb` or `BadNumber`, takes no memory, and does not depend on the number that it changes.
pub fn prepare_number(modulus: u64, verb: &str, rest: &str) -> Result<NumberOp, EditError>
    ensures exact { result ≡ number_edit modulus verb.now rest.now }
    ensures valid { IfOk result (λ op. (p : Stamp) → IsWithin p → (number_meaning modulus).valid p op) }
{
    let verb = number_verb(verb).ok_or(EditError::NoVerb)?;
    let word = only_word(rest).ok_or(EditError::NoVerb)?;
    let number = signed_of(word).ok_or(EditError::BadNumber)?;
    Ok(number_op(modulus, verb, number))
}
