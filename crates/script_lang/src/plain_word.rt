ghost use Rattle.std.specs.Prelude.{◌≡◌, option_map};
ghost use Rattle.std.specs.List.{list_all};
ghost use Rattle.script_lang.specs.Words.{is_plain_byte, is_plain, plain_of};
ghost use Rattle.script_lang.specs.Loads.{whole_identifier};
ghost use Rattle.script_lang.specs.Answers.{Reads};

use crate::name::identifier_of;

fn is_plain_byte(byte: u8) -> bool
    ensures { result ≡ is_plain_byte byte }
{
    matches!(byte, b'a'..=b'z' | b'A'..=b'Z' | b'0'..=b'9' | b'_' | b'.')
}

fn are_plain_bytes(word: &[u8]) -> bool
    ensures { result ≡ list_all is_plain_byte word.now }
{
    word.iter().all(|byte| is_plain_byte(*byte))
}

/// Whether a word is 1 to 32 letters, digits, `_` and `.`.
fn is_plain(word: &[u8]) -> bool
    ensures { result ≡ is_plain word.now }
{
    !word.is_empty() && word.len() <= 32 && are_plain_bytes(word)
}

/// The word as a text, if it is 1 to 32 letters, digits, `_` and `.`.
pub fn plain_text(word: &[u8]) -> Option<&str>
    ensures { Reads (λ text. text.now) result (plain_of word.now) }
{
    if !is_plain(word) {
        return None;
    }
    match str::from_utf8(word) {
        Ok(text) => Some(text),
        Err(_) => None,
    }
}

/// The word as a text, if it is an identifier.
pub fn name_text(word: &[u8]) -> Option<&str>
    ensures { Reads (λ text. text.now) result (whole_identifier word.now) }
{
    let (name, rest) = identifier_of(word)?;
    if !rest.is_empty() {
        return None;
    }
    match str::from_utf8(name) {
        Ok(text) => Some(text),
        Err(_) => None,
    }
}
