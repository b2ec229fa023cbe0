ghost use Rattle.std.specs.Prelude.{◌≡◌, ◌++◌, [], OnOk};
ghost use Rattle.byte_fields.specs.Readers.{Gives};
ghost use Rattle.frame_core.specs.Schemas.{IsColName};
ghost use Rattle.segment_bytes.specs.Heads.{type_code, head_text, type_at, text_at, length_at, head_at};

use byte_fields::{put_bytes, put_u8, read_bytes, read_u8};
use frame_core::{ColName, ColType, NoMemory};

/// The number of a type: 1 for `Int`, 2 for `Flag`, 3 for `Text`, 4 for `Stamp`.
pub fn type_byte(kind: ColType) -> u8
    ensures { result ≡ type_code kind }
{
    match kind {
        ColType::Int => 1,
        ColType::Flag => 2,
        ColType::Text => 3,
        ColType::Stamp => 4,
    }
}

/// The next type, and what follows. Where there is none, the error is how many bytes are left.
#[tactic(auto, unfolding(crate::specs::Heads::type_at))]
pub fn read_type(bytes: &[u8]) -> Result<(ColType, &[u8]), usize>
    ensures { Gives (λ x. (x.0, x.1.now)) result (type_at bytes.now) }
{
    let (code, rest) = read_u8(bytes)?;
    match code {
        1 => Ok((ColType::Int, rest)),
        2 => Ok((ColType::Flag, rest)),
        3 => Ok((ColType::Text, rest)),
        4 => Ok((ColType::Stamp, rest)),
        _ => Err(bytes.len()),
    }
}

/// The next text, of so many bytes of UTF-8, and what follows. Where it is not whole or not UTF-8, the error is how many
/// bytes are left.
#[tactic(auto, unfolding(crate::specs::Heads::text_at))]
pub fn read_text(count: usize, bytes: &[u8]) -> Result<(&str, &[u8]), usize>
    ensures { Gives (λ x. (x.0.now, x.1.now)) result (text_at count bytes.now) }
{
    let (front, rest) = read_bytes(count, bytes)?;
    match str::from_utf8(front) {
        Ok(text) => Ok((text, rest)),
        Err(_) => Err(bytes.len()),
    }
}

/// The next length of a name, at least 1, and what follows. Where there is none, the error is how many bytes are left.
#[tactic(auto, unfolding(crate::specs::Heads::length_at))]
fn read_length(bytes: &[u8]) -> Result<(usize, &[u8]), usize>
    ensures { Gives (λ x. (x.0, x.1.now)) result (length_at bytes.now) }
{
    let (length, rest) = read_u8(bytes)?;
    if 1 <= length {
        Ok((length as usize, rest))
    } else {
        Err(bytes.len())
    }
}

/// The next column's type and name, and what follows. Where a field is not whole or breaks its rule, the error is how
/// many bytes are left from it on. Earlier columns may have the name: the caller looks.
#[tactic(auto, unfolding(crate::specs::Heads::head_at, crate::specs::Heads::name_at))]
pub fn read_head(bytes: &[u8]) -> Result<(ColType, &str, &[u8]), usize>
    ensures { Gives (λ x. ((x.1.now, x.0), x.2.now)) result (head_at [] bytes.now) }
{
    let (kind, rest) = read_type(bytes)?;
    let (length, rest) = read_length(rest)?;
    let (name, rest) = read_text(length, rest)?;
    Ok((kind, name, rest))
}

/// Adds a column's type and name at the end.
pub fn put_head(out: &mut Vec<u8>, name: &ColName, kind: ColType) -> Result<(), NoMemory>
    ensures text { OnOk result (out.new.items ≡ out.old.items ++ head_text (name.now, kind)) }
    ensures name { IsColName name.now }
{
    let text = name.text().as_bytes();
    put_u8(out, type_byte(kind))?;
    put_u8(out, text.len() as u8)?;
    put_bytes(out, text)
}
