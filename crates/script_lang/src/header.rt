ghost use Rattle.std.specs.Prelude.{◌≡◌, length, IfOk, IfErr, IfSome};
ghost use Rattle.frame_core.specs.Schemas.{IsColName};
ghost use Rattle.script_lang.specs.Fronts.{field_at, line_at};
ghost use Rattle.script_lang.specs.PlainFiles.{column_name_at};
ghost use Rattle.script_lang.specs.Answers.{Reads, GivesCsv};

use crate::fault::CsvFault;
use crate::name::identifier_of;
use crate::rows::stop_of;
use base_types::Items;
use frame_core::ColName;
use std::alloc::Global;

/// The name of a column at the front, and what stands behind the byte that ends it.
#[tactic(auto, unfolding(crate::specs::PlainFiles::column_name_at))]
pub fn name_field(stop: u8, bytes: &[u8]) -> Option<(&[u8], &[u8])>
    ensures reads { Reads (λ x. (x.0.now, x.1.now)) result (field_at column_name_at stop bytes.now) }
    ensures name { IfSome result (λ x. IsColName x.0.now) }
{
    let (name, after) = identifier_of(bytes)?;
    if name.len() > 255 {
        return None;
    }
    let (end, rest) = after.split_first()?;
    if *end == stop {
        Some((name, rest))
    } else {
        None
    }
}

fn name_of(alloc: Global, bytes: &[u8]) -> Result<ColName, CsvFault>
    requires { IsColName bytes.now }
    ensures name { IfOk result (λ name. name ≡ bytes.now) }
    ensures memory { IfErr result (λ e. e ≡ CsvFault.NoMemory) }
{
    let Ok(text) = str::from_utf8(bytes) else {
        return Err(CsvFault::BadCsv);
    };
    match ColName::make(alloc, text) {
        Ok(name) => Ok(name),
        Err(_) => Err(CsvFault::NoMemory),
    }
}

/// So many names at the front, and what stands behind their line.
pub fn read_names(
    alloc: Global,
    count: usize,
    bytes: &[u8],
) -> Result<(Items<ColName>, &[u8]), CsvFault>
    ensures { GivesCsv (λ x. (x.0, x.1.now)) result (line_at column_name_at count bytes.now) }
{
    let mut names = Items::new(alloc);
    let mut rest = bytes;
    for place in 0..count {
        let Some((name, after)) = name_field(stop_of(count - place - 1), rest) else {
            return Err(CsvFault::BadCsv);
        };
        names.push(name_of(alloc, name)?)?;
        rest = after;
    }
    Ok((names, rest))
}
