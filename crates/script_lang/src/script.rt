ghost use Rattle.std.specs.Prelude.{◌≡◌, IfOk};
ghost use Rattle.script_lang.specs.Scripts.{finished, plain_script_of, AreLoaded};
ghost use Rattle.script_lang.specs.Answers.{GivesScript};

use crate::client::ClientPart;
use crate::command::Commands;
use crate::draft::{Draft, after_lines};
use crate::fault::ScriptFault;
use crate::lines::lines_of;
use crate::load::Loads;
use base_types::Items;
use std::alloc::Global;

/// A plain script has so many lines at most.
const MOST_LINES: usize = 1000;

/// The clients of a script in its order, seen as a list.
pub type ClientParts = Items<ClientPart>;

/// A script: what it loads, and the commands of its parts. A command names its frame by the place among the loads.
#[derive(Drop)]
pub struct Script {
    pub loads: Loads,
    /// The commands that come before the clients.
    pub first: Commands,
    /// At most 16, no two of one name.
    pub clients: ClientParts,
    /// The commands that come after all clients.
    pub last: Commands,
}

fn finished(draft: Draft) -> Script
    ensures { result ≡ finished draft }
{
    let Draft {
        loads,
        first,
        clients,
        last,
        ..
    } = draft;
    Script {
        loads,
        first,
        clients,
        last,
    }
}

/// The plain script of a text.
///
/// Its lines end with LF, at most 1,000, with one space between words. The parts stand in this order, and each may be left
/// out: any number of `load FRAME FILE TYPES`; `first` and its commands; at most 16 times `client NAME`, each with its
/// commands; `last` and its commands. A command has its options in any order and each option at most once:
///
/// - `write SYM FRAME` and `append SYM FRAME`, with `at=M` and `prune`
/// - `update SYM FRAME`, with `range=R`, `upsert`, `at=M` and `prune`
/// - `delete_range SYM range=R`, with `at=M` and `prune`
/// - `delete SYM`, with `version=N` and numbers joined by commas
/// - `prune SYM`, `reclaim SYM`, `versions SYM` and `keys SYM`
/// - `read SYM`, with `as_of=A`, `range=R`, and `columns=C` with names joined by commas
///
/// FRAME is an identifier, distinct among the loads and loaded where a command has it; FILE and SYM are 1 to 32 letters,
/// digits, `_` and `.`; NAME is 1 to 32 letters, digits, `_` and `-`, distinct, neither `first` nor `last`; TYPES is 1 to
/// 127 times `int`, joined by commas. M is a whole number in 64 bits with its sign, in nanoseconds since 1970; N has 1 to
/// 18 digits; R is `M..M`, `M..` or `..M`, the first at most the second; A is N, `-N` with N at least 1, or `time:M`; a
/// column's name is an identifier of at most 255 bytes. Every other text is BadScript.
pub fn read_script(alloc: Global, bytes: &[u8]) -> Result<Script, ScriptFault>
    ensures script { GivesScript (λ script. script) result (plain_script_of bytes.now) }
    ensures loaded { IfOk result (λ script. AreLoaded script) }
{
    let lines = lines_of(alloc, bytes)?;
    if lines.len() > MOST_LINES {
        return Err(ScriptFault::BadScript);
    }
    let draft = after_lines(alloc, &lines)?;
    Ok(finished(draft))
}
