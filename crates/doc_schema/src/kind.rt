ghost use Rattle.std.specs.Prelude.{◌≡◌};
ghost use Rattle.std.specs.List.{find};
ghost use Rattle.std.specs.Str.{bytes_eq};
ghost use Rattle.doc_schema.specs.Kinds.{kind_named, kind_text, name_of};

use action_tables::LawfulTable;
use crdt_laws::{Names, Txt};

/// How a field may be reset.
#[derive(Clone, Copy, Debug, PartialEq, Eq)]
pub enum Reset {
    /// It has no reset.
    Never,
    /// A reset takes away what is concurrent to it.
    Winning,
    /// A reset takes away what was observed before it, and keeps what is concurrent to it.
    Observed,
}

/// What a field is, with the parts that its schema gives it.
#[derive(Debug, Drop)]
pub enum Kind {
    /// A number to which one adds, and which one multiplies.
    Number {
        /// Numbers are residues modulo it: 2 to 18446744073709551615, or 0, which stands for 2^64.
        modulus: u64,
    },
    /// A flag on which on wins.
    OnFlag,
    /// A flag on which off wins.
    OffFlag,
    /// One of 2 to 8 values of rising priority.
    Choice {
        /// Their names, no two of which are the same.
        values: Names,
    },
    /// States and operations that a lawful table describes.
    Table {
        /// The table.
        table: LawfulTable,
        /// The names of its states, no two of which are the same.
        states: Names,
        /// The names of its operations, no two of which are the same.
        ops: Names,
    },
    /// A text, of which the latest one stays.
    Latest,
    /// The texts that no other one has seen.
    Several,
    /// A text of characters.
    Text,
    /// Numbers at keys.
    Tally {
        /// As that of a number.
        modulus: u64,
    },
    /// Texts at keys.
    Entries,
    /// A text of characters that have marks.
    Rich {
        /// The names of its 1 to 8 marks, no two of which are the same.
        marks: Names,
    },
}

/// A field of a document.
#[derive(Debug, Drop)]
pub struct Field {
    /// 1 to 32 letters from a to z, digits and underscores, of which the first is a letter.
    pub name: Txt,
    pub kind: Kind,
    pub reset: Reset,
}

/// A kind, without its parts.
#[derive(Clone, Copy, Debug, PartialEq, Eq)]
pub enum KindName {
    Number,
    OnFlag,
    OffFlag,
    Choice,
    Table,
    Latest,
    Several,
    Text,
    Tally,
    Entries,
    Rich,
}

const ALL_KINDS: [KindName; 11] = [
    KindName::Number,
    KindName::OnFlag,
    KindName::OffFlag,
    KindName::Choice,
    KindName::Table,
    KindName::Latest,
    KindName::Several,
    KindName::Text,
    KindName::Tally,
    KindName::Entries,
    KindName::Rich,
];

impl KindName {
    /// What a schema calls it.
    pub fn text(self) -> &'static str
        ensures { result.now ≡ kind_text self }
    {
        match self {
            KindName::Number => "number",
            KindName::OnFlag => "on_flag",
            KindName::OffFlag => "off_flag",
            KindName::Choice => "choice",
            KindName::Table => "table",
            KindName::Latest => "latest",
            KindName::Several => "several",
            KindName::Text => "text",
            KindName::Tally => "tally",
            KindName::Entries => "entries",
            KindName::Rich => "rich",
        }
    }

    /// The kind that a schema calls so.
    pub fn named(text: &str) -> Option<KindName>
        ensures { result ≡ kind_named text.now }
    {
        first_named(&ALL_KINDS, text)
    }

    /// The kind of a field.
    pub fn of(kind: &Kind) -> KindName
        ensures { result ≡ name_of kind.now }
    {
        match kind {
            Kind::Number { .. } => KindName::Number,
            Kind::OnFlag => KindName::OnFlag,
            Kind::OffFlag => KindName::OffFlag,
            Kind::Choice { .. } => KindName::Choice,
            Kind::Table { .. } => KindName::Table,
            Kind::Latest => KindName::Latest,
            Kind::Several => KindName::Several,
            Kind::Text => KindName::Text,
            Kind::Tally { .. } => KindName::Tally,
            Kind::Entries => KindName::Entries,
            Kind::Rich { .. } => KindName::Rich,
        }
    }
}

/// The first of the kinds that a schema calls so.
fn first_named(kinds: &[KindName], text: &str) -> Option<KindName>
    ensures { result ≡ find (λ k. bytes_eq (kind_text k) text.now) kinds.now }
{
    kinds.iter().copied().find(|kind| kind.text() == text)
}
