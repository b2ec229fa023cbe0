ghost use Rattle.std.specs.Prelude.{◌≡◌, length, map, IfOk};
ghost use Rattle.script_lang.specs.Lines.{part_at, between, lines_of};
ghost use Rattle.script_lang.specs.Answers.{GivesScript};

use crate::fault::ScriptFault;
use base_types::NoMemory;
use std::alloc::Global;

/// How many bytes stand before the first separator.
pub fn part_len(separator: u8, bytes: &[u8]) -> usize
    ensures { result ≡ length (part_at separator bytes.now) }
{
    for (place, byte) in bytes.iter().enumerate() {
        if *byte == separator {
            return place;
        }
    }
    bytes.len()
}

/// The parts between separators, lent.
pub fn parts_between(alloc: Global, separator: u8, bytes: &[u8]) -> Result<Vec<&[u8]>, NoMemory>
    ensures { IfOk result (λ parts. map (λ part. part.now) parts.items ≡ between separator bytes.now) }
{
    let mut parts = Vec::new(alloc);
    let mut rest = bytes;
    loop {
        let (part, after) = rest.split_at(part_len(separator, rest));
        parts.push(part)?;
        match after.split_first() {
            Some((_, next)) => rest = next,
            None => return Ok(parts),
        }
    }
}

/// The lines, each of which LF ends, lent without it.
pub fn lines_of(alloc: Global, bytes: &[u8]) -> Result<Vec<&[u8]>, ScriptFault>
    ensures { GivesScript (λ lines. map (λ line. line.now) lines.items) result (lines_of bytes.now) }
{
    let mut lines = parts_between(alloc, b'\n', bytes)?;
    let Some(last) = lines.pop() else {
        return Err(ScriptFault::BadScript);
    };
    if last.is_empty() {
        Ok(lines)
    } else {
        Err(ScriptFault::BadScript)
    }
}
