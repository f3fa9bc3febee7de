//! How the rest of an edit is cut into words. A word has at least one byte and no space, and two of them stand apart by one space.
ghost use Rattle.std.specs.Prelude.{◌≡◌, None, Some, MatchOption};
ghost use Rattle.kind_edits.specs.Words.{first_word, only_word};

/// The first word, and all that follows the one space after it, which is nothing where the word ends the text. There is no word
/// where the text is empty or begins with a space.
pub fn first_word(rest: &str) -> Option<(&str, &str)>
    ensures { MatchOption result (first_word rest.now ≡ None) (λ parts. first_word rest.now ≡ Some (parts.0.now, parts.1.now)) }
{
    let (word, after) = rest.split_once(' ').unwrap_or((rest, ""));
    if word.is_empty() {
        None
    } else {
        Some((word, after))
    }
}

/// The text, where it is one word.
pub fn only_word(rest: &str) -> Option<&str>
    ensures { MatchOption result (only_word rest.now ≡ None) (λ word. only_word rest.now ≡ Some word.now) }
{
    if rest.is_empty() || rest.as_bytes().contains(&b' ') {
        None
    } else {
        Some(rest)
    }
}
