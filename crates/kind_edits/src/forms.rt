//! What the words after the verb of an edit of a text say.
ghost use Rattle.std.specs.Prelude.{◌≡◌, ◌≤◌, ◌<◌, Err, Ok, IfOk, MatchResult, length};
ghost use Rattle.kind_edits.specs.Forms.{delete_words, insert_words, mark_words};

use crate::fault::EditError;
use crate::name::number_of;
use crate::spelled::count_of;
use crate::text::check_text;
use crate::words::{first_word, only_word};
use crdt_laws::Names;

/// The indexes and the mark that an edit of marks names.
#[derive(Clone, Copy, Debug, PartialEq, Eq)]
pub struct MarkWords {
    /// The index of the first character.
    pub from: u32,
    /// The index after the last character.
    pub to: u32,
    /// The number of the mark.
    pub mark: u8,
}

/// The index and the text of an insert: a count, one space, and a text of 1 to 1,024 bytes.
pub(crate) fn insert_words(rest: &str) -> Result<(u32, &str), EditError>
    ensures { MatchResult result (λ parts. insert_words rest.now ≡ Ok (parts.0, parts.1.now)) (λ fault. insert_words rest.now ≡ Err fault) }
{
    let (index, text) = first_word(rest).ok_or(EditError::NoVerb)?;
    if text.is_empty() {
        return Err(EditError::NoVerb);
    }
    let index = count_of(index).ok_or(EditError::BadNumber)?;
    check_text(text)?;
    Ok((index, text))
}

/// The index of a delete: one count.
pub(crate) fn delete_words(rest: &str) -> Result<u32, EditError>
    ensures { result ≡ delete_words rest.now }
{
    let word = only_word(rest).ok_or(EditError::NoVerb)?;
    count_of(word).ok_or(EditError::BadNumber)
}

/// The indexes and the mark of an edit of marks with these names: two counts and a name.
pub(crate) fn mark_words(names: &Names, rest: &str) -> Result<MarkWords, EditError>
    requires { length names.now ≤ 255 }
    ensures words { result ≡ mark_words names.now rest.now }
    ensures below { IfOk result (λ words. words.mark < length names.now) }
{
    let (from, after) = first_word(rest).ok_or(EditError::NoVerb)?;
    let (to, after) = first_word(after).ok_or(EditError::NoVerb)?;
    let name = only_word(after).ok_or(EditError::NoVerb)?;
    let mark = number_of(names, name).ok_or(EditError::NoVerb)?;
    let from = count_of(from).ok_or(EditError::BadNumber)?;
    let to = count_of(to).ok_or(EditError::BadNumber)?;
    Ok(MarkWords { from, to, mark })
}
