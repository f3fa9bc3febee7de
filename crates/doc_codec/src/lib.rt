//! How the operations and the states of documents are spelled in files.
#![tactic(auto)]

mod document;
mod either;
mod kind;

pub use document::{FIELDS_CODER, FieldCoder, FieldsCoder, WinningCoder};
pub use either::EitherCoder;
pub use kind::{
    AllCoder, FirstCoder, KIND_CODER, KindCoder, KindsCoder, LastCoder, MapCoder, NUMBER_CODER,
    NumberCoder, RichCoder,
};
