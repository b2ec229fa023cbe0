ghost use Rattle.std.specs.Prelude.{◌≡◌, length};
ghost use Rattle.std.specs.Int.{w8, w16, w32, w64};
ghost use Rattle.byte_fields.specs.Reading.{number_at, signed_at, bytes_at, magic_at};
ghost use Rattle.byte_fields.specs.Readers.{Gives};

/// The next bytes, and what follows. Where there are fewer, the error is how many bytes are left.
pub fn read_bytes(count: usize, bytes: &[u8]) -> Result<(&[u8], &[u8]), usize>
    ensures { Gives (λ x. (x.0.now, x.1.now)) result (bytes_at count bytes.now) }
{
    if bytes.len() < count {
        return Err(bytes.len());
    }
    Ok(bytes.split_at(count))
}

/// The next byte as a number, and what follows. Where there is none, the error is how many bytes are left.
pub fn read_u8(bytes: &[u8]) -> Result<(u8, &[u8]), usize>
    ensures { Gives (λ x. (x.0, x.1.now)) result (number_at w8 bytes.now) }
{
    let (front, rest) = read_bytes(1, bytes)?;
    Ok((front[0], rest))
}

/// The next two bytes as a number, and what follows. Where they are not whole, the error is how many bytes are left.
pub fn read_u16(bytes: &[u8]) -> Result<(u16, &[u8]), usize>
    ensures { Gives (λ x. (x.0, x.1.now)) result (number_at w16 bytes.now) }
{
    let (front, rest) = read_bytes(2, bytes)?;
    Ok((u16::from_be_bytes([front[0], front[1]]), rest))
}

/// The next four bytes as a number, and what follows. Where they are not whole, the error is how many bytes are left.
pub fn read_u32(bytes: &[u8]) -> Result<(u32, &[u8]), usize>
    ensures { Gives (λ x. (x.0, x.1.now)) result (number_at w32 bytes.now) }
{
    let (front, rest) = read_bytes(4, bytes)?;
    let number = u32::from_be_bytes([front[0], front[1], front[2], front[3]]);
    Ok((number, rest))
}

/// The next eight bytes as a number, and what follows. Where they are not whole, the error is how many bytes are left.
pub fn read_u64(bytes: &[u8]) -> Result<(u64, &[u8]), usize>
    ensures { Gives (λ x. (x.0, x.1.now)) result (number_at w64 bytes.now) }
{
    let (front, rest) = read_bytes(8, bytes)?;
    let number = u64::from_be_bytes([
        front[0], front[1], front[2], front[3], front[4], front[5], front[6], front[7],
    ]);
    Ok((number, rest))
}

/// The next eight bytes as a number with a sign, in two's complement, and what follows. Where they are not whole, the
/// error is how many bytes are left.
pub fn read_i64(bytes: &[u8]) -> Result<(i64, &[u8]), usize>
    ensures { Gives (λ x. (x.0, x.1.now)) result (signed_at bytes.now) }
{
    let (number, rest) = read_u64(bytes)?;
    Ok((number.cast_signed(), rest))
}

/// What follows a magic. Where the bytes do not begin with it, the error is how many bytes are left.
pub fn read_magic<'a>(magic: &[u8], bytes: &'a [u8]) -> Result<&'a [u8], usize>
    ensures { Gives (λ rest. (magic.now, rest.now)) result (magic_at magic.now bytes.now) }
{
    let (front, rest) = read_bytes(magic.len(), bytes)?;
    if front == magic {
        Ok(rest)
    } else {
        Err(bytes.len())
    }
}
