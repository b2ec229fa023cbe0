ghost use Rattle.std.specs.Prelude.{◌≡◌, ◌++◌, ◌∷◌, [], OnOk};
ghost use Rattle.std.specs.Int.{w16, w32, w64, to_be_bytes};
ghost use Rattle.byte_fields.specs.Reading.{signed_text};

use base_types::NoMemory;

/// Adds bytes at the end.
pub fn put_bytes(out: &mut Vec<u8>, bytes: &[u8]) -> Result<(), NoMemory>
    ensures { OnOk result (out.new.items ≡ out.old.items ++ bytes.now) }
{
    Ok(out.extend_from_slice(bytes)?)
}

/// Adds a number of one byte at the end.
pub fn put_u8(out: &mut Vec<u8>, number: u8) -> Result<(), NoMemory>
    ensures { OnOk result (out.new.items ≡ out.old.items ++ number ∷ []) }
{
    Ok(out.push(number)?)
}

/// Adds a number of two bytes at the end, the high byte first.
pub fn put_u16(out: &mut Vec<u8>, number: u16) -> Result<(), NoMemory>
    ensures { OnOk result (out.new.items ≡ out.old.items ++ to_be_bytes w16 number) }
{
    put_bytes(out, &number.to_be_bytes())
}

/// Adds a number of four bytes at the end, the high byte first.
pub fn put_u32(out: &mut Vec<u8>, number: u32) -> Result<(), NoMemory>
    ensures { OnOk result (out.new.items ≡ out.old.items ++ to_be_bytes w32 number) }
{
    put_bytes(out, &number.to_be_bytes())
}

/// Adds a number of eight bytes at the end, the high byte first.
pub fn put_u64(out: &mut Vec<u8>, number: u64) -> Result<(), NoMemory>
    ensures { OnOk result (out.new.items ≡ out.old.items ++ to_be_bytes w64 number) }
{
    put_bytes(out, &number.to_be_bytes())
}

/// Adds a number with a sign at the end, as eight bytes in two's complement.
#[tactic(auto, unfolding(crate::specs::Reading::signed_text))]
pub fn put_i64(out: &mut Vec<u8>, number: i64) -> Result<(), NoMemory>
    ensures { OnOk result (out.new.items ≡ out.old.items ++ signed_text number) }
{
    put_bytes(out, &number.to_be_bytes())
}
