ghost use Rattle.std.specs.Prelude.{◌≡◌, ℕ, List, [], ◌++◌, length, drop, Ok, OnOk, IfOk, IfErr};
ghost use Rattle.key_kind.specs.declared.key.Key.{Key};
ghost use Rattle.key_kind.specs.Keys.{IsKey, FitsFields};
ghost use Rattle.key_kind.specs.KeyText.{key_text, key_at};
ghost use Rattle.key_kind.specs.KeyFaults.{IsKeyFault};

use crate::key::Key;
use crate::key_view::view_key;
use base_types::NoMemory;
use byte_fields::{put_bytes, put_i64, put_u8, put_u32, put_u64};
use std::alloc::Global;

/// Why bytes are not read as a key.
#[derive(Clone, Copy, Debug)]
pub enum KeyFault {
    /// The bytes do not begin with a key's spelling.
    NotAKey,
    NoMemory,
}

/// The bytes of a key beside its name.
const FIXED_LENGTH: usize = 38;

impl Key {
    /// The one spelling of a key, in memory of its own (`put_key`).
    pub fn bytes(&self, alloc: Global) -> Result<Vec<u8>, NoMemory>
        requires { IsKey self.now }
        ensures { IfOk result (λ bytes. bytes.items ≡ key_text self.now) }
    {
        let mut bytes = Vec::with_capacity(alloc, FIXED_LENGTH + self.name.text().len())?;
        put_key(&mut bytes, self)?;
        Ok(bytes)
    }

    /// The key that the bytes begin with, and the length of its spelling.
    pub fn read(alloc: Global, bytes: &[u8]) -> Result<(Key, usize), KeyFault>
        ensures read { IfOk result (λ found. key_at bytes.now ≡ Ok (found.0, drop found.1 bytes.now)) }
        ensures spelled { IfOk result (λ found. bytes.now ≡ key_text found.0 ++ drop found.1 bytes.now) }
        ensures length { IfOk result (λ found. found.1 ≡ length (key_text found.0)) }
        ensures is_key { IfOk result (λ found. IsKey found.0) }
        ensures refused { IfErr result (IsKeyFault bytes.now) }
    {
        let (view, rest) = match view_key(bytes) {
            Ok(read) => read,
            Err(_) => return Err(KeyFault::NotAKey),
        };
        match view.to_key(alloc) {
            Ok(key) => Ok((key, bytes.len() - rest.len())),
            Err(NoMemory) => Err(KeyFault::NoMemory),
        }
    }
}

/// Adds the one spelling of a key at the end: its kind and the length of its name in a byte each, the name, the client in four
/// bytes, and the serial, the version and both stamps in eight bytes each, the high byte first.
#[tactic(auto, unfolding(crate::specs::KeyText::key_text))]
pub fn put_key(out: &mut Vec<u8>, key: &Key) -> Result<(), NoMemory>
    requires { IsKey key.now }
    ensures text { OnOk result (out.new.items ≡ out.old.items ++ key_text key.now) }
    ensures fits { OnOk result (FitsFields key.now) }
{
    let name = key.name.text();
    put_u8(out, key.kind.code())?;
    put_u8(out, name.len() as u8)?;
    put_bytes(out, name.as_bytes())?;
    put_u32(out, key.client)?;
    put_u64(out, key.serial)?;
    put_u64(out, key.version)?;
    put_i64(out, key.first)?;
    put_i64(out, key.last)
}

/// What is spelled is read again, whatever follows it. This does nothing: it states a law.
pub fn spelled_keys_are_read()
    ensures { (key : Key) (rest : List ℕ) → IsKey key → FitsFields key → key_at (key_text key ++ rest) ≡ Ok (key, rest) }
{}

/// No key's spelling begins another's. This does nothing: it states a law.
pub fn no_key_begins_another()
    ensures { (a b : Key) (rest : List ℕ) → IsKey a → FitsFields a → IsKey b → FitsFields b → key_text b ≡ key_text a ++ rest → (a ≡ b) × (rest ≡ []) }
{}
