//! Resets of towers: the winning reset, over which nothing survives that it did not know of, and the observed reset, which forgets
//! what it knew of and nothing else.
#![tactic(auto)]

mod cut;
mod laws;
mod observed;
mod wins;

pub use cut::clean_cut;
pub use laws::{
    document_of_untouched, longest_clean_prefix, observed_is_lawful, resets_act_lawfully,
    settled_value, value_of_unforgotten, winning_is_lawful,
};
pub use observed::{Observed, ObservedOp, ObservedState};
pub use wins::{Winning, winning};
