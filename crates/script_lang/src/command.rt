ghost use Rattle.std.specs.Prelude.{◌≡◌, map, Some, unwrap_or};
ghost use Rattle.script_lang.specs.Words.{symbol_of};
ghost use Rattle.script_lang.specs.Commands.{commit_of, commit_form, update_form, required_range, delete_range_form, delete_form, only_symbol, symbol_form, whole_range, read_form, command_of};
ghost use Rattle.script_lang.specs.Loads.{frame_names};
ghost use Rattle.script_lang.specs.Answers.{GivesScript};

use crate::fault::ScriptFault;
use crate::load::{Load, frame_place};
use crate::moment::{range_of, sign_at};
use crate::options::{
    CommitOptions, ReadOptions, UpdateOptions, commit_options, read_options, update_options,
    versions_given,
};
use crate::plain_word::plain_text;
use base_types::Items;
use expr_clause::{AsOf, Command};
use frame_core::Range;
use key_kind::Symbol;
use std::alloc::Global;

/// Commands, seen as a list.
pub type Commands = Items<Command>;

fn symbol_of(alloc: Global, word: &[u8]) -> Result<Symbol, ScriptFault>
    ensures { GivesScript (λ symbol. symbol) result (symbol_of word.now) }
{
    let Some(text) = plain_text(word) else {
        return Err(ScriptFault::BadScript);
    };
    match Symbol::make(alloc, text) {
        Ok(symbol) => Ok(symbol),
        Err(_) => Err(ScriptFault::NoMemory),
    }
}

/// A symbol, the place of a loaded frame, and the options of a commit.
#[derive(Drop)]
struct Commit {
    symbol: Symbol,
    frame: u64,
    options: CommitOptions,
}

fn commit_of(alloc: Global, loads: &[Load], words: &[&[u8]]) -> Result<Commit, ScriptFault>
    ensures { GivesScript (λ commit. commit) result (commit_of (frame_names loads.now) (map (λ word. word.now) words.now)) }
{
    match words {
        [symbol, frame, options @ ..] => {
            let symbol = symbol_of(alloc, symbol)?;
            let Some(frame) = frame_place(loads, frame) else {
                return Err(ScriptFault::BadScript);
            };
            let Some(options) = commit_options(options) else {
                return Err(ScriptFault::BadScript);
            };
            Ok(Commit {
                symbol,
                frame,
                options,
            })
        }
        _ => Err(ScriptFault::BadScript),
    }
}

fn write_of(alloc: Global, loads: &[Load], words: &[&[u8]]) -> Result<Command, ScriptFault>
    ensures { GivesScript (λ command. command) result (commit_form Command.Write (frame_names loads.now) (map (λ word. word.now) words.now)) }
{
    let Commit {
        symbol,
        frame,
        options,
    } = commit_of(alloc, loads, words)?;
    Ok(Command::Write {
        symbol,
        frame,
        at: options.at,
        prune: options.prune,
    })
}

fn append_of(alloc: Global, loads: &[Load], words: &[&[u8]]) -> Result<Command, ScriptFault>
    ensures { GivesScript (λ command. command) result (commit_form Command.Append (frame_names loads.now) (map (λ word. word.now) words.now)) }
{
    let Commit {
        symbol,
        frame,
        options,
    } = commit_of(alloc, loads, words)?;
    Ok(Command::Append {
        symbol,
        frame,
        at: options.at,
        prune: options.prune,
    })
}

fn update_of(alloc: Global, loads: &[Load], words: &[&[u8]]) -> Result<Command, ScriptFault>
    ensures { GivesScript (λ command. command) result (update_form (frame_names loads.now) (map (λ word. word.now) words.now)) }
{
    match words {
        [symbol, frame, options @ ..] => {
            let symbol = symbol_of(alloc, symbol)?;
            let Some(frame) = frame_place(loads, frame) else {
                return Err(ScriptFault::BadScript);
            };
            let Some(
                UpdateOptions {
                    range,
                    upsert,
                    commit,
                },
            ) = update_options(options)
            else {
                return Err(ScriptFault::BadScript);
            };
            Ok(Command::Update {
                symbol,
                frame,
                range,
                upsert,
                at: commit.at,
                prune: commit.prune,
            })
        }
        _ => Err(ScriptFault::BadScript),
    }
}

/// The range of a word `range=R`.
fn required_range(word: &[u8]) -> Option<Range>
    ensures { result ≡ required_range word.now }
{
    range_of(sign_at(b"range=".as_slice(), word)?)
}

fn delete_range_of(alloc: Global, words: &[&[u8]]) -> Result<Command, ScriptFault>
    ensures { GivesScript (λ command. command) result (delete_range_form (map (λ word. word.now) words.now)) }
{
    match words {
        [symbol, range, options @ ..] => {
            let symbol = symbol_of(alloc, symbol)?;
            let Some(range) = required_range(range) else {
                return Err(ScriptFault::BadScript);
            };
            let Some(CommitOptions { at, prune }) = commit_options(options) else {
                return Err(ScriptFault::BadScript);
            };
            Ok(Command::DeleteRange {
                symbol,
                range,
                at,
                prune,
            })
        }
        _ => Err(ScriptFault::BadScript),
    }
}

fn delete_of(alloc: Global, words: &[&[u8]]) -> Result<Command, ScriptFault>
    ensures { GivesScript (λ command. command) result (delete_form (map (λ word. word.now) words.now)) }
{
    match words {
        [symbol, options @ ..] => {
            let symbol = symbol_of(alloc, symbol)?;
            let versions = versions_given(alloc, options)?;
            Ok(Command::Delete { symbol, versions })
        }
        _ => Err(ScriptFault::BadScript),
    }
}

/// The symbol that stands alone.
fn only_symbol(alloc: Global, words: &[&[u8]]) -> Result<Symbol, ScriptFault>
    ensures { GivesScript (λ symbol. symbol) result (only_symbol (map (λ word. word.now) words.now)) }
{
    match words {
        [symbol] => symbol_of(alloc, symbol),
        _ => Err(ScriptFault::BadScript),
    }
}

/// The range, or else every stamp.
fn range_or_all(range: Option<Range>) -> Option<Range>
    ensures { result ≡ Some (unwrap_or range whole_range) }
{
    match range {
        Some(range) => Some(range),
        None => Range::make(None, None),
    }
}

fn read_of(alloc: Global, words: &[&[u8]]) -> Result<Command, ScriptFault>
    ensures { GivesScript (λ command. command) result (read_form (map (λ word. word.now) words.now)) }
{
    match words {
        [symbol, options @ ..] => {
            let symbol = symbol_of(alloc, symbol)?;
            let ReadOptions {
                as_of,
                range,
                columns,
            } = read_options(alloc, options)?;
            let as_of = match as_of {
                Some(as_of) => as_of,
                None => AsOf::Back(1),
            };
            let Some(range) = range_or_all(range) else {
                return Err(ScriptFault::BadScript);
            };
            Ok(Command::Read {
                symbol,
                as_of,
                range,
                columns,
                clauses: Items::new(alloc),
            })
        }
        _ => Err(ScriptFault::BadScript),
    }
}

fn prune_of(alloc: Global, words: &[&[u8]]) -> Result<Command, ScriptFault>
    ensures { GivesScript (λ command. command) result (symbol_form Command.Prune (map (λ word. word.now) words.now)) }
{
    let symbol = only_symbol(alloc, words)?;
    Ok(Command::Prune { symbol })
}

fn reclaim_of(alloc: Global, words: &[&[u8]]) -> Result<Command, ScriptFault>
    ensures { GivesScript (λ command. command) result (symbol_form Command.Reclaim (map (λ word. word.now) words.now)) }
{
    let symbol = only_symbol(alloc, words)?;
    Ok(Command::Reclaim { symbol })
}

fn versions_of(alloc: Global, words: &[&[u8]]) -> Result<Command, ScriptFault>
    ensures { GivesScript (λ command. command) result (symbol_form Command.Versions (map (λ word. word.now) words.now)) }
{
    let symbol = only_symbol(alloc, words)?;
    Ok(Command::Versions { symbol })
}

fn keys_of(alloc: Global, words: &[&[u8]]) -> Result<Command, ScriptFault>
    ensures { GivesScript (λ command. command) result (symbol_form Command.Keys (map (λ word. word.now) words.now)) }
{
    let symbol = only_symbol(alloc, words)?;
    Ok(Command::Keys { symbol })
}

/// The command of a line's words, of which the first is its verb.
pub fn command_of(
    alloc: Global,
    loads: &[Load],
    verb: &[u8],
    words: &[&[u8]],
) -> Result<Command, ScriptFault>
    ensures { GivesScript (λ command. command) result (command_of (frame_names loads.now) verb.now (map (λ word. word.now) words.now)) }
{
    if verb == b"write".as_slice() {
        write_of(alloc, loads, words)
    } else if verb == b"append".as_slice() {
        append_of(alloc, loads, words)
    } else if verb == b"update".as_slice() {
        update_of(alloc, loads, words)
    } else if verb == b"delete_range".as_slice() {
        delete_range_of(alloc, words)
    } else if verb == b"delete".as_slice() {
        delete_of(alloc, words)
    } else if verb == b"prune".as_slice() {
        prune_of(alloc, words)
    } else if verb == b"reclaim".as_slice() {
        reclaim_of(alloc, words)
    } else if verb == b"versions".as_slice() {
        versions_of(alloc, words)
    } else if verb == b"keys".as_slice() {
        keys_of(alloc, words)
    } else if verb == b"read".as_slice() {
        read_of(alloc, words)
    } else {
        Err(ScriptFault::BadScript)
    }
}
