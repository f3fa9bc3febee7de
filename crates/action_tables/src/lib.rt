//! Tables of states and operations, which an author writes down and a checker tells lawful or not. A lawful one is a tower.
#![tactic(auto)]

mod checker;
mod lawful;
mod laws;
mod named;
mod table;
mod tower;
mod written;

pub use lawful::LawfulTable;
pub use laws::{
    form_of_tables, one_fault, one_reading, one_verdict, order_of_cases, table_is_lawful,
};
pub use named::{NamedTable, TableFault, are_apart, are_names, is_name, name_table, named_table};
pub use table::{Shape, Table, Verdict};
pub use tower::TableTower;
pub use written::{
    WrittenOp, WrittenTable, array_elements, count_keys, table_at, text_at, texts_at,
};

#[cfg(test)]
mod tests;
