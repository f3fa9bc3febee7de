//! Numbers modulo 2^64, or modulo another number from 2 on, with additions, and multiplications that act on them. A number is at
//! first 0. Only `show` takes memory.
#![tactic(auto)]

ghost use Rattle.std.specs.Prelude.{◌≡◌, ◌≢◌};

mod adding;
mod multiplying;
mod residues;

pub use adding::Add;
pub use multiplying::Mul;
use semidirect_product::{Stack, StackOp};

/// An addition to a number, of level 1, or a multiplication, of level 2, of what was added before or meanwhile.
pub type NumberOp = StackOp<u64, u64>;

/// Numbers with additions and multiplications modulo one number.
pub type Number = Stack<Add, Mul>;

/// The tower of numbers modulo 2^64.
pub fn number() -> Number
    ensures low { result.low.modulus ≡ 0 }
    ensures high { result.high.modulus ≡ 0 }
{
    number_mod(0)
}

/// The tower of numbers modulo `modulus`, where 0 stands for 2^64, and 1 is no modulus. It takes no memory.
pub fn number_mod(modulus: u64) -> Number
    requires { modulus ≢ 1 }
    ensures low { result.low.modulus ≡ modulus }
    ensures high { result.high.modulus ≡ modulus }
{
    Stack::of(Add { modulus }, Mul { modulus })
}

#[cfg(test)]
mod tests;
