//! Towers made of towers, in use: two towers of three levels, the laws of the towers of this repository, and in which orders the
//! operations of a tower may be applied.
#![tactic(auto)]

mod clearing;
mod lawful;
mod orders;
mod side_swap;

pub use clearing::{Clear, Clearable, clearable};
pub use lawful::{
    clearable_is_lawful, maybe_is_lawful, multiplication_is_lawful, number_is_lawful,
    pair_is_lawful, row_is_lawful, sides_is_lawful, stack_is_lawful,
};
pub use orders::{actions_distribute, any_order, higher_first};
pub use side_swap::{Sides, Swap, sides};

#[cfg(test)]
mod tests;
