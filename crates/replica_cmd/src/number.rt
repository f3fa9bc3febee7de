ghost use Rattle.std.specs.Prelude.{◌≡◌};
ghost use Rattle.number_crdts.specs.Number.{number_meaning};
ghost use Rattle.replica_cmd.specs.Number.{number_op};

use lab_model::Verb;
use number_crdts::NumberOp;
use semidirect_product::StackOp;

/// The operation of a verb with its amount, a residue modulo 2^64.
pub(crate) fn op_of(verb: Verb, amount: u64) -> NumberOp
    ensures op { result ≡ number_op verb amount }
    ensures well_formed { (number_meaning 0).well_formed result }
{
    match verb {
        Verb::Add => StackOp::Low(amount),
        Verb::Mul => StackOp::High(amount),
    }
}
