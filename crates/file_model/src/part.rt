ghost use Rattle.std.specs.Prelude.{◌≡◌, IfOk, map};
ghost use Rattle.std.specs.List.{join_with_byte};

use std::alloc::{AllocError, Global};
use std::fmt;
use std::marker::Model;

/// A part of an edit: its field, its verb, or the rest of its line. It is text, which contracts see as its bytes.
#[derive(Debug, Drop)]
pub struct Part {
    text: String,
}

impl Model for Part {
    ghost use Rattle.std.specs.Prelude.{List, ℕ, string_bytes};

    ghost Value = { List ℕ };

    ghost view = { λ p. string_bytes p.text };
}

impl Part {
    /// The part with this text.
    pub fn of(alloc: Global, text: &str) -> Result<Part, AllocError>
        ensures { IfOk result (λ p. p ≡ text.now) }
    {
        Ok(Part {
            text: String::from_str(alloc, text)?,
        })
    }

    /// The words with one space between them.
    pub fn joined(alloc: Global, words: &[&str]) -> Result<Part, AllocError>
        ensures { IfOk result (λ p. p ≡ join_with_byte 32 (map (λ word. word.now) words.now)) }
    {
        Ok(Part {
            text: words.join(alloc, " ")?,
        })
    }

    /// Its text.
    pub fn as_str(&self) -> &str
        ensures { result.now ≡ self.now }
    {
        self.text.as_str()
    }
}

impl fmt::Display for Part {
    ghost use Rattle.std.specs.Prelude.{Some};

    ghost output = { λ p. Some p };

    fn fmt<W: fmt::Write>(&self, f: &mut fmt::Formatter<W>) -> fmt::Result {
        f.write_str(self.text.as_str())
    }
}
