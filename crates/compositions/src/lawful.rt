//! The towers of this repository keep the laws of towers. Each contract names what the tower means; its function does nothing
//! but cite the law that every tower proves.
ghost use Rattle.std.specs.Prelude.{◌≢◌};
ghost use Rattle.crdt_laws.specs.Tower.{IsLawful};
ghost use Rattle.crdt_laws.specs.Actor.{IsLawfulAction};
ghost use Rattle.number_crdts.specs.Number.{add_meaning, mul_action, number_meaning};
ghost use Rattle.semidirect_product.specs.Stack.{stack_meaning};
ghost use Rattle.semidirect_product.specs.Maybe.{maybe_meaning};
ghost use Rattle.direct_product.specs.Pair.{pair_meaning};
ghost use Rattle.direct_product.specs.Row.{row_meaning};
ghost use Rattle.compositions.specs.Clearing.{clear_action};
ghost use Rattle.compositions.specs.Sides.{swap_action};

use crate::clearing::clearable;
use crate::side_swap::sides;
use crdt_laws::{Actor, Tower, acts_lawfully, is_lawful};
use direct_product::{Pair, Row};
use number_crdts::{Add, Mul, number_mod};
use semidirect_product::{Maybe, Stack};

/// Numbers with additions and multiplications are a lawful tower, whatever their modulus.
pub fn number_is_lawful(modulus: u64)
    requires { modulus ≢ 1 }
    ensures { IsLawful (number_meaning modulus) }
{
    is_lawful(&number_mod(modulus));
}

/// Multiplications act lawfully on numbers with additions of the same modulus, whatever it is.
pub fn multiplication_is_lawful(modulus: u64)
    requires { modulus ≢ 1 }
    ensures { IsLawfulAction (add_meaning modulus) (mul_action modulus) }
{
    acts_lawfully(&Mul { modulus }, &Add { modulus });
}

/// A stack of an actor on a tower is a lawful tower.
pub fn stack_is_lawful<A: Tower, B: Actor<A>>(stack: &Stack<A, B>)
    ensures { IsLawful (stack_meaning (A.meaning stack.now.low) (B.action stack.now.high stack.now.low)) }
{
    is_lawful(stack);
}

/// A tower with operations that do nothing is a lawful tower.
pub fn maybe_is_lawful<T: Tower>(maybe: &Maybe<T>)
    ensures { IsLawful (maybe_meaning (T.meaning maybe.now.part)) }
{
    is_lawful(maybe);
}

/// Two towers side by side are a lawful tower.
pub fn pair_is_lawful<A: Tower, B: Tower>(pair: &Pair<A, B>)
    ensures { IsLawful (pair_meaning (A.meaning pair.now.left) (B.meaning pair.now.right)) }
{
    is_lawful(pair);
}

/// A row of towers is a lawful tower.
pub fn row_is_lawful<T: Tower>(row: &Row<T>)
    ensures { IsLawful (row_meaning T.meaning row.now.parts.items) }
{
    is_lawful(row);
}

/// Numbers that are cleared are a lawful tower of three levels.
pub fn clearable_is_lawful(modulus: u64)
    requires { modulus ≢ 1 }
    ensures { IsLawful (stack_meaning (number_meaning modulus) clear_action) }
{
    is_lawful(&clearable(modulus));
}

/// Two numbers that change places are a lawful tower of three levels.
pub fn sides_is_lawful(modulus: u64)
    requires { modulus ≢ 1 }
    ensures { IsLawful (stack_meaning (pair_meaning (number_meaning modulus) (number_meaning modulus)) swap_action) }
{
    is_lawful(&sides(modulus));
}
