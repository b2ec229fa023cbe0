ghost use Rattle.std.specs.Prelude.{◌≡◌, IfOk};
ghost use Rattle.std.specs.Int.{w32, w64};
ghost use Rattle.byte_fields.specs.Reading.{number_at, signed_at};
ghost use Rattle.byte_fields.specs.Readers.{Gives};
ghost use Rattle.key_kind.specs.Names.{IsName};
ghost use Rattle.key_kind.specs.Keys.{IsKey};
ghost use Rattle.key_kind.specs.KeyViews.{key_of};
ghost use Rattle.key_kind.specs.KeyText.{key_at, key_of_at, kind_at, name_at, zero_unless, int_zero_unless};

use crate::key::{Key, KeyKind};
use crate::name::{Name, graphic_text};
use base_types::NoMemory;
use byte_fields::{read_bytes, read_i64, read_u8, read_u32, read_u64};
use std::alloc::Global;

/// A key as it lies in bytes: its name is lent.
#[derive(Drop)]
pub struct KeyView<'a> {
    pub kind: KeyKind,
    pub name: &'a str,
    pub client: u32,
    pub serial: u64,
    pub version: u64,
    pub first: i64,
    pub last: i64,
}

impl KeyView<'_> {
    /// The key, with a copy of the name.
    pub fn to_key(&self, alloc: Global) -> Result<Key, NoMemory>
        requires { IsName self.now.name.now }
        ensures { IfOk result (λ key. key ≡ key_of self.now) }
    {
        Ok(Key {
            kind: self.kind,
            name: Name::of(alloc, self.name)?,
            client: self.client,
            serial: self.serial,
            version: self.version,
            first: self.first,
            last: self.last,
        })
    }
}

/// The key that the bytes begin with, and what follows. Where there is none, the error is how many bytes are left at the field
/// that breaks its rule.
pub fn view_key(bytes: &[u8]) -> Result<(KeyView<'_>, &[u8]), usize>
    ensures gives { Gives (λ x. (key_of x.0, x.1.now)) result (key_at bytes.now) }
    ensures is_key { IfOk result (λ x. IsKey (key_of x.0)) }
{
    let (view, rest) = read_fields(bytes)?;
    Ok((view, rest))
}

/// The key of this kind that the bytes begin with, and what follows. Where there is none, the error is how many bytes are left
/// at the field that breaks its rule; another kind breaks the rule of the first field.
pub fn view_key_of(kind: KeyKind, bytes: &[u8]) -> Result<(KeyView<'_>, &[u8]), usize>
    ensures gives { Gives (λ x. (key_of x.0, x.1.now)) result (key_of_at kind bytes.now) }
    ensures is_key { IfOk result (λ x. IsKey (key_of x.0)) }
{
    let (first, _rest) = read_kind(bytes)?;
    if first.code() != kind.code() {
        return Err(bytes.len());
    }
    view_key(bytes)
}

/// The next kind, and what follows. The error is how many bytes are left at the field.
fn read_kind(bytes: &[u8]) -> Result<(KeyKind, &[u8]), usize>
    ensures { Gives (λ x. (x.0, x.1.now)) result (kind_at bytes.now) }
{
    let (code, rest) = read_u8(bytes)?;
    match KeyKind::of_code(code) {
        Some(kind) => Ok((kind, rest)),
        None => Err(bytes.len()),
    }
}

/// The name that the bytes begin with, behind its length in a byte, and what follows. The name is lent. Where there is none, the
/// error is how many bytes are left at the field that breaks its rule.
pub fn view_name(bytes: &[u8]) -> Result<(&str, &[u8]), usize>
    ensures { Gives (λ x. (x.0.now, x.1.now)) result (name_at bytes.now) }
{
    let (length, after) = read_u8(bytes)?;
    if length == 0 {
        return Err(bytes.len());
    }
    let (front, rest) = read_bytes(length as usize, after)?;
    match graphic_text(front) {
        Some(name) => Ok((name, rest)),
        None => Err(after.len()),
    }
}

/// The next client, which is 0 unless it is free, and what follows. The error is how many bytes are left at the field.
fn read_client(free: bool, bytes: &[u8]) -> Result<(u32, &[u8]), usize>
    ensures { Gives (λ x. (x.0, x.1.now)) result (zero_unless free bytes.now (number_at w32 bytes.now)) }
{
    let (client, rest) = read_u32(bytes)?;
    if free || client == 0 {
        Ok((client, rest))
    } else {
        Err(bytes.len())
    }
}

/// The next number, which is 0 unless it is free, and what follows. The error is how many bytes are left at the field.
fn read_number(free: bool, bytes: &[u8]) -> Result<(u64, &[u8]), usize>
    ensures { Gives (λ x. (x.0, x.1.now)) result (zero_unless free bytes.now (number_at w64 bytes.now)) }
{
    let (number, rest) = read_u64(bytes)?;
    if free || number == 0 {
        Ok((number, rest))
    } else {
        Err(bytes.len())
    }
}

/// The next stamp, which is 0 unless it is free, and what follows. The error is how many bytes are left at the field.
fn read_stamp(free: bool, bytes: &[u8]) -> Result<(i64, &[u8]), usize>
    ensures { Gives (λ x. (x.0, x.1.now)) result (int_zero_unless free bytes.now (signed_at bytes.now)) }
{
    let (stamp, rest) = read_i64(bytes)?;
    if free || stamp == 0 {
        Ok((stamp, rest))
    } else {
        Err(bytes.len())
    }
}

/// The fields of a key, and what follows. The error is how many bytes are left at the field that breaks its rule.
#[tactic(auto, unfolding(crate::specs::KeyText::key_at))]
fn read_fields(bytes: &[u8]) -> Result<(KeyView<'_>, &[u8]), usize>
    ensures { Gives (λ x. (key_of x.0, x.1.now)) result (key_at bytes.now) }
{
    let (kind, rest) = read_kind(bytes)?;
    let (name, rest) = view_name(rest)?;
    let (client, rest) = read_client(kind.is_put(), rest)?;
    let (serial, rest) = read_number(kind.is_put(), rest)?;
    let (version, rest) = read_number(kind.has_version(), rest)?;
    let (first, rest) = read_stamp(kind.has_stamps(), rest)?;
    let (last, rest) = read_stamp(kind.has_stamps(), rest)?;
    let view = KeyView {
        kind,
        name,
        client,
        serial,
        version,
        first,
        last,
    };
    Ok((view, rest))
}
