ghost use Rattle.std.specs.Prelude.{◌≡◌, ◌^◌, ◌<◌, [], ◌∷◌, IfOk, IsTrue, SomeIff, map, if◌then◌else◌};
ghost use Rattle.std.specs.Char.{is_ascii_digit};
ghost use Rattle.std.specs.List.{list_all};
ghost use Rattle.lab_model.specs.Line.{command_of, command_of_words, is_file_name, is_name_byte, is_number, member_of, negative, number_below, residue_of, value_of, verb_of};

use crdt_laws::NoMemory;
use lab_model::{Command, FileName, Verb};
use std::alloc::Global;
use std::str;

/// The command that a line is, or `None` where it is none. Its words stand between single spaces.
pub(crate) fn command_of(alloc: Global, line: &[u8]) -> Result<Option<Command>, NoMemory>
    ensures { IfOk result (λ command. command ≡ command_of line.now) }
{
    let words: Vec<&[u8]> = line.split(|byte| *byte == b' ').collect(alloc)?;
    command_of_words(alloc, words.as_slice())
}

/// The command of these words.
pub(crate) fn command_of_words(alloc: Global, words: &[&[u8]]) -> Result<Option<Command>, NoMemory>
    ensures { IfOk result (λ command. command ≡ command_of_words (map (λ word. word.now) words.now)) }
{
    match words {
        [verb] => Ok(play_of(verb)),
        [verb, file] => look_of(alloc, verb, file),
        [verb, file, batch] => exchange_of(alloc, verb, file, batch),
        [verb, file, member, schema] => new_of(alloc, verb, file, member, schema),
        [verb, file, field, action, number] => edit_of(alloc, verb, file, field, action, number),
        _ => Ok(None),
    }
}

/// The command `play`, where the word is it.
fn play_of(verb: &[u8]) -> Option<Command>
    ensures { result ≡ command_of_words (verb.now ∷ []) }
{
    if verb == b"play".as_slice() {
        Some(Command::Play)
    } else {
        None
    }
}

/// The command `show` or `check`, where the words are one.
fn look_of(alloc: Global, verb: &[u8], file: &[u8]) -> Result<Option<Command>, NoMemory>
    ensures { IfOk result (λ command. command ≡ command_of_words (verb.now ∷ file.now ∷ [])) }
{
    let Some(file) = name_of(alloc, file)? else {
        return Ok(None);
    };
    if verb == b"show".as_slice() {
        Ok(Some(Command::Show { file }))
    } else if verb == b"check".as_slice() {
        Ok(Some(Command::Check { table: file }))
    } else {
        Ok(None)
    }
}

/// The command `export` or `merge`, where the words are one.
fn exchange_of(
    alloc: Global,
    verb: &[u8],
    file: &[u8],
    batch: &[u8],
) -> Result<Option<Command>, NoMemory>
    ensures { IfOk result (λ command. command ≡ command_of_words (verb.now ∷ file.now ∷ batch.now ∷ [])) }
{
    let (Some(file), Some(batch)) = (name_of(alloc, file)?, name_of(alloc, batch)?) else {
        return Ok(None);
    };
    if verb == b"export".as_slice() {
        Ok(Some(Command::Export { file, batch }))
    } else if verb == b"merge".as_slice() {
        Ok(Some(Command::Merge { file, batch }))
    } else {
        Ok(None)
    }
}

/// The command `new`, where the words are one.
fn new_of(
    alloc: Global,
    verb: &[u8],
    file: &[u8],
    member: &[u8],
    schema: &[u8],
) -> Result<Option<Command>, NoMemory>
    ensures { IfOk result (λ command. command ≡ command_of_words (verb.now ∷ file.now ∷ member.now ∷ schema.now ∷ [])) }
{
    if verb != b"new".as_slice() || schema != b"@pair".as_slice() {
        return Ok(None);
    }
    let Some(member) = member_of(member) else {
        return Ok(None);
    };
    Ok(name_of(alloc, file)?.map(|file| Command::New { file, member }))
}

/// The command `edit`, where the words are one.
fn edit_of(
    alloc: Global,
    verb: &[u8],
    file: &[u8],
    field: &[u8],
    action: &[u8],
    number: &[u8],
) -> Result<Option<Command>, NoMemory>
    ensures { IfOk result (λ command. command ≡ command_of_words (verb.now ∷ file.now ∷ field.now ∷ action.now ∷ number.now ∷ [])) }
{
    if verb != b"edit".as_slice() || field != b"n".as_slice() {
        return Ok(None);
    }
    let (Some(verb), Some(amount)) = (verb_of(action), residue_of(number)) else {
        return Ok(None);
    };
    Ok(name_of(alloc, file)?.map(|file| Command::Edit { file, verb, amount }))
}

/// The verb of an edit that the word is, where it is one.
fn verb_of(word: &[u8]) -> Option<Verb>
    ensures { result ≡ verb_of word.now }
{
    match word {
        b"add" => Some(Verb::Add),
        b"mul" => Some(Verb::Mul),
        _ => None,
    }
}

/// The name of a file that the word is, where it is one.
fn name_of(alloc: Global, word: &[u8]) -> Result<Option<FileName>, NoMemory>
    ensures { IfOk result (λ name. name ≡ (if is_file_name word.now then Some word.now else None)) }
{
    if !is_file_name(word) {
        return Ok(None);
    }
    let Ok(text) = str::from_utf8(word) else {
        unreachable!("the bytes of a name are ASCII");
    };
    Ok(Some(FileName::of(alloc, text)?))
}

/// Whether the word has the form of the name of a file.
fn is_file_name(word: &[u8]) -> bool
    ensures { result ≡ is_file_name word.now }
{
    match word {
        [first, rest @ ..] => {
            first.is_ascii_alphanumeric() && rest.len() < 64 && are_name_bytes(rest)
        }
        [] => false,
    }
}

/// Whether the bytes may stand in the name of a file.
fn are_name_bytes(bytes: &[u8]) -> bool
    ensures { result ≡ list_all is_name_byte bytes.now }
{
    bytes.iter().all(|byte| is_name_byte(*byte))
}

/// Whether the byte may stand in the name of a file.
fn is_name_byte(byte: u8) -> bool
    ensures { result ≡ is_name_byte byte }
{
    byte.is_ascii_alphanumeric() || matches!(byte, b'.' | b'_' | b'-')
}

/// The member that the word is, where it is one: 0 or 1.
fn member_of(word: &[u8]) -> Option<u8>
    ensures { result ≡ member_of word.now }
{
    match word {
        b"0" => Some(0),
        b"1" => Some(1),
        _ => None,
    }
}

/// The residue modulo 2^64 that a signed number stands for: digits up to 2^63 - 1, or a minus and digits from 1 to 2^63.
fn residue_of(word: &[u8]) -> Option<u64>
    ensures { result ≡ residue_of word.now }
{
    match word {
        [b'-', digits @ ..] => negative(number_below((1 << 63) + 1, digits)?),
        _ => number_below(1 << 63, word),
    }
}

/// The residue of a number that is taken away, which is not 0.
fn negative(number: u64) -> Option<u64>
    ensures { result ≡ negative number }
{
    if number == 0 {
        None
    } else {
        Some(number.wrapping_neg())
    }
}

/// The number that decimal digits spell, where it is below the limit. The first digit is 0 only where it is the one digit.
fn number_below(limit: u64, digits: &[u8]) -> Option<u64>
    ensures { result ≡ number_below limit digits.now }
{
    if !is_number(digits) {
        return None;
    }
    value_of(digits).filter(|value| *value < limit)
}

/// Whether the word is decimal digits, of which the first is 0 only where it is the one digit.
fn is_number(word: &[u8]) -> bool
    ensures { result ≡ is_number word.now }
{
    match word {
        [] => false,
        [b'0', rest @ ..] => rest.is_empty(),
        _ => are_digits(word),
    }
}

/// Whether the bytes are decimal digits.
fn are_digits(bytes: &[u8]) -> bool
    ensures { result ≡ list_all is_ascii_digit bytes.now }
{
    bytes.iter().all(|byte| byte.is_ascii_digit())
}

/// The number that digits spell, or `None` where it is 2^64 or more.
fn value_of(digits: &[u8]) -> Option<u64>
    requires { IsTrue (list_all is_ascii_digit digits.now) }
    ensures { SomeIff result (value_of digits.now < 2 ^ 64) (value_of digits.now) }
{
    let mut value: u64 = 0;
    for digit in digits {
        value = value
            .checked_mul(10)?
            .checked_add(u64::from(*digit - b'0'))?;
    }
    Some(value)
}

#[cfg(test)]
mod tests;
