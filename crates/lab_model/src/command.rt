use crate::name::FileName;

/// What an edit does to the number.
#[derive(Clone, Copy, Debug, PartialEq, Eq)]
pub enum Verb {
    Add,
    Mul,
}

/// A line, with its parts. The one schema is `@pair`, with the members 0 and 1 and a number `n`.
#[derive(Debug, Drop)]
pub enum Command {
    /// Makes a replica.
    New {
        file: FileName,
        member: u8,
    },
    /// Changes the number by an amount modulo 2^64.
    Edit {
        file: FileName,
        verb: Verb,
        amount: u64,
    },
    /// Prints the document.
    Show {
        file: FileName,
    },
    /// Writes what not all members are known to have.
    Export {
        file: FileName,
        batch: FileName,
    },
    /// Takes a batch in.
    Merge {
        file: FileName,
        batch: FileName,
    },
    /// Runs the lines of a script. It is no line of one itself.
    Play,
    /// Says whether a table keeps its laws. It is no line of a script.
    Check {
        table: FileName,
    },
}
