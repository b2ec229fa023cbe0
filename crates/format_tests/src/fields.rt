use byte_fields::{
    NoMemory, put_bytes, put_i64, put_u8, put_u16, put_u32, put_u64, read_bytes, read_i64,
    read_magic, read_u8, read_u16, read_u32, read_u64,
};
use std::alloc::Global;
use std::test::Fail;

// A magic, one number of each width, one below 0, and three bytes.
const SPELLED: &[u8] =
    b"MAG1\x01\x01\x02\0\0\0\x03\0\0\0\0\0\0\0\x04\xff\xff\xff\xff\xff\xff\xff\xfeend";

fn put_numbers(out: &mut Vec<u8>) -> Result<(), NoMemory> {
    put_u8(out, 1)?;
    put_u16(out, 258)?;
    put_u32(out, 3)?;
    put_u64(out, 4)?;
    put_i64(out, -2)
}

fn spelled(alloc: Global) -> Result<Vec<u8>, NoMemory> {
    let mut out = Vec::new(alloc);
    put_bytes(&mut out, b"MAG1")?;
    put_numbers(&mut out)?;
    put_bytes(&mut out, b"end")?;
    Ok(out)
}

// Whether the numbers begin the bytes, and what follows them.
fn numbers(bytes: &[u8]) -> Result<(bool, &[u8]), usize> {
    let (one, rest) = read_u8(bytes)?;
    let (two, rest) = read_u16(rest)?;
    let (three, rest) = read_u32(rest)?;
    let (four, rest) = read_u64(rest)?;
    let (below, rest) = read_i64(rest)?;
    let good = one == 1 && two == 258 && three == 3 && four == 4 && below == -2;
    Ok((good, rest))
}

// Whether the bytes are those fields, the last of which is too short for a number of four bytes.
fn are_the_fields(bytes: &[u8]) -> Result<bool, usize> {
    let rest = read_magic(b"MAG1", bytes)?;
    let (good, rest) = numbers(rest)?;
    let (end, rest) = read_bytes(3, rest)?;
    Ok(good && end == b"end".as_slice() && rest.is_empty() && matches!(read_u32(end), Err(3)))
}

// Whether the fields are written so, and read in turn.
fn are_written_and_read(alloc: Global) -> Result<bool, Fail> {
    let out = spelled(alloc)?;
    Ok(out.as_slice() == SPELLED && are_the_fields(SPELLED) == Ok(true))
}

#[test]
fn fields_that_are_written_are_read_in_turn(rt: HostRuntime) -> Result<(), Fail> {
    assert!(rt; are_written_and_read(rt.alloc())?);
    Ok(())
}
