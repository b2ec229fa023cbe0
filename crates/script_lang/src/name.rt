ghost use Rattle.std.specs.Prelude.{◌≡◌, length, IfSome, IsUtf8};
ghost use Rattle.script_lang.specs.Fronts.{begins_word, is_wordy, word_of, is_reserved, is_identifier, identifier_at};
ghost use Rattle.script_lang.specs.Answers.{Reads};

fn begins_word(byte: u8) -> bool
    ensures { result ≡ begins_word byte }
{
    matches!(byte, b'a'..=b'z' | b'A'..=b'Z' | b'_')
}

fn is_wordy(byte: u8) -> bool
    ensures { result ≡ is_wordy byte }
{
    matches!(byte, b'a'..=b'z' | b'A'..=b'Z' | b'0'..=b'9' | b'_')
}

/// How many letters, digits and `_` stand at the front.
fn word_len(bytes: &[u8]) -> usize
    ensures { result ≡ length (word_of bytes.now) }
{
    for (place, byte) in bytes.iter().enumerate() {
        if !is_wordy(*byte) {
            return place;
        }
    }
    bytes.len()
}

fn is_reserved(word: &[u8]) -> bool
    ensures { result ≡ is_reserved word.now }
{
    word == b"true".as_slice()
        || word == b"false".as_slice()
        || word == b"ts".as_slice()
        || word == b"abs".as_slice()
        || word == b"isin".as_slice()
        || word == b"isnotin".as_slice()
        || word == b"agg".as_slice()
}

/// Whether a word of letters, digits and `_` is an identifier.
fn is_identifier(word: &[u8]) -> bool
    ensures { result ≡ is_identifier word.now }
{
    match word {
        [] => false,
        [first, ..] => begins_word(*first) && !is_reserved(word),
    }
}

/// The identifier at the front, and what stands behind it.
#[tactic(auto, unfolding(crate::specs::Fronts::identifier_at))]
pub fn identifier_of(bytes: &[u8]) -> Option<(&[u8], &[u8])>
    ensures { Reads (λ x. (x.0.now, x.1.now)) result (identifier_at bytes.now) }
{
    let (word, rest) = bytes.split_at(word_len(bytes));
    if is_identifier(word) {
        Some((word, rest))
    } else {
        None
    }
}
