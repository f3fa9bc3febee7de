//! Numbers as an edit spells them, in the one way in which they are printed.
ghost use Rattle.std.specs.Prelude.{◌≡◌};
ghost use Rattle.std.specs.Char.{is_ascii_digit};
ghost use Rattle.std.specs.List.{list_all};
ghost use Rattle.kind_edits.specs.Spelled.{count_of, is_numeral, is_signed, residue, signed_of};

/// Whether the bytes are decimal digits, of which the first is 0 only where it is the one digit.
fn is_numeral(bytes: &[u8]) -> bool
    ensures { result ≡ is_numeral bytes.now }
{
    match bytes {
        [] => false,
        [b'0', rest @ ..] => rest.is_empty(),
        _ => are_digits(bytes),
    }
}

/// Whether the bytes are decimal digits.
fn are_digits(bytes: &[u8]) -> bool
    ensures { result ≡ list_all is_ascii_digit bytes.now }
{
    bytes.iter().all(|byte| byte.is_ascii_digit())
}

/// The count that a text spells: decimal digits without a leading zero, at most 4,294,967,295.
pub fn count_of(text: &str) -> Option<u32>
    ensures { result ≡ count_of text.now }
{
    if is_numeral(text.as_bytes()) {
        text.parse::<u32>().ok()
    } else {
        None
    }
}

/// Whether the bytes are such digits, or a minus and such digits, which are not 0.
fn is_signed(bytes: &[u8]) -> bool
    ensures { result ≡ is_signed bytes.now }
{
    match bytes {
        [b'-', digits @ ..] => is_numeral(digits) && digits != b"0".as_slice(),
        _ => is_numeral(bytes),
    }
}

/// The signed number that a text spells: decimal digits without a leading zero, with a minus in front where it is negative, from
/// -9,223,372,036,854,775,808 to 9,223,372,036,854,775,807.
pub fn signed_of(text: &str) -> Option<i64>
    ensures { result ≡ signed_of text.now }
{
    if is_signed(text.as_bytes()) {
        text.parse::<i64>().ok()
    } else {
        None
    }
}

/// The residue of a signed number modulo `modulus`, where 0 stands for 2^64.
pub fn residue(modulus: u64, number: i64) -> u64
    ensures { result ≡ residue modulus number }
{
    let size: i128 = if modulus == 0 {
        1 << 64
    } else {
        i128::from(modulus)
    };
    i128::from(number).rem_euclid(size) as u64
}
