//! Numbers and language tags, as they stand in paths and scripts.
ghost use Rattle.std.specs.Prelude.{◌≡◌, ◌≤◌, length, IsTrue};
ghost use Rattle.std.specs.List.{list_all};
ghost use Rattle.std.specs.Char.{is_ascii_digit};
ghost use Rattle.xmp_paths.specs.Grammar.{is_number, number, place_of_number, is_tag_byte, is_lang_tag};

/// Whether each byte is a digit.
fn are_digits(bytes: &[u8]) -> bool
    ensures { result ≡ list_all is_ascii_digit bytes.now }
{
    bytes.iter().all(|byte| byte.is_ascii_digit())
}

/// Whether the bytes are one to nine digits, the first of which isn't 0.
fn is_number(digits: &[u8]) -> bool
    ensures { result ≡ is_number digits.now }
{
    match digits {
        [] => false,
        [first, rest @ ..] => {
            first.is_ascii_digit() && *first != b'0' && are_digits(rest) && rest.len() <= 8
        }
    }
}

/// The number of one to nine digits.
fn number(digits: &[u8]) -> usize
    requires digits { IsTrue (list_all is_ascii_digit digits.now) }
    requires short { length digits.now ≤ 9 }
    ensures { result ≡ number digits.now }
{
    let mut number = 0;
    for digit in digits {
        number = number * 10 + (*digit - b'0') as usize;
    }
    number
}

/// The place, counted from 0, that a number from 1 tells: one to nine digits, the first of which
/// isn't 0.
pub fn place_of_number(digits: &[u8]) -> Option<usize>
    ensures { result ≡ place_of_number digits.now }
{
    if is_number(digits) {
        Some(number(digits) - 1)
    } else {
        None
    }
}

fn is_tag_byte(byte: u8) -> bool
    ensures { result ≡ is_tag_byte byte }
{
    byte.is_ascii_alphanumeric() || byte == b'-'
}

/// Whether each byte may stand in a language tag.
fn are_tag_bytes(bytes: &[u8]) -> bool
    ensures { result ≡ list_all is_tag_byte bytes.now }
{
    bytes.iter().all(|byte| is_tag_byte(*byte))
}

/// Whether the bytes are a language tag: a letter and up to 99 letters, digits and hyphens.
pub fn is_lang_tag(bytes: &[u8]) -> bool
    ensures { result ≡ is_lang_tag bytes.now }
{
    match bytes {
        [] => false,
        [first, rest @ ..] => {
            first.is_ascii_alphabetic() && are_tag_bytes(rest) && rest.len() <= 99
        }
    }
}
