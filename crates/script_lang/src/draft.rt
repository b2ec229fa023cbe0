ghost use Rattle.std.specs.Prelude.{◌≡◌, map, None};
ghost use Rattle.script_lang.specs.Scripts.{before_parts, before_last, no_lines, after_load, after_first, with_client, only_word, after_client, after_last, in_part, with_command, after_form, after_verb, after_words, after_line, after_lines};
ghost use Rattle.script_lang.specs.Answers.{Reads, GivesScript};

use crate::client::{ClientPart, in_last_client, new_client_of};
use crate::command::{Commands, command_of};
use crate::fault::ScriptFault;
use crate::lines::parts_between;
use crate::load::{Load, load_of};
use base_types::Items;
use expr_clause::Command;
use std::alloc::Global;
use std::marker::Model;

/// What the lines of a script have come to.
#[derive(Clone, Copy)]
pub enum Stage {
    /// No part has begun.
    Loads,
    First,
    Clients,
    Last,
}

/// The loads of a script and the commands of its parts, up to some line.
#[derive(Drop)]
pub struct Draft {
    pub loads: Items<Load>,
    pub first: Commands,
    pub clients: Items<ClientPart>,
    pub last: Commands,
    /// Where the next command goes.
    pub stage: Stage,
}

impl Model for Draft {
    ghost use Rattle.expr_clause.specs.contracts.expr.Expr as e;
    ghost use Rattle.std.specs.Coded.{codes};
    ghost use Rattle.script_lang.specs.Scripts.{Draft as Lines};

    ghost Value = { Lines };

    ghost coded = { Prim.hlevel (codes, e.the_row.coded) };

    ghost view = { λ d. record { loads = d.loads; first = d.first; clients = d.clients; last = d.last; stage = d.stage } };
}

fn before_parts(stage: Stage) -> bool
    ensures { result ≡ before_parts stage }
{
    matches!(stage, Stage::Loads)
}

fn before_last(stage: Stage) -> bool
    ensures { result ≡ before_last stage }
{
    !matches!(stage, Stage::Last)
}

fn after_load(alloc: Global, draft: Draft, words: &[&[u8]]) -> Result<Draft, ScriptFault>
    ensures { GivesScript (λ next. next) result (after_load draft (map (λ word. word.now) words.now)) }
{
    let mut draft = draft;
    if !before_parts(draft.stage) {
        return Err(ScriptFault::BadScript);
    }
    let load = load_of(alloc, draft.loads.items(), words)?;
    draft.loads.push(load)?;
    Ok(draft)
}

fn after_first(draft: Draft, words: &[&[u8]]) -> Result<Draft, ScriptFault>
    ensures { GivesScript (λ next. next) result (after_first draft (map (λ word. word.now) words.now)) }
{
    let mut draft = draft;
    if !before_parts(draft.stage) || !words.is_empty() {
        return Err(ScriptFault::BadScript);
    }
    draft.stage = Stage::First;
    Ok(draft)
}

fn with_client(alloc: Global, draft: Draft, word: &[u8]) -> Result<Draft, ScriptFault>
    ensures { GivesScript (λ next. next) result (with_client draft word.now) }
{
    let mut draft = draft;
    if !before_last(draft.stage) {
        return Err(ScriptFault::BadScript);
    }
    let name = new_client_of(alloc, draft.clients.items(), word)?;
    let commands = Items::new(alloc);
    draft.clients.push(ClientPart { name, commands })?;
    draft.stage = Stage::Clients;
    Ok(draft)
}

/// The word that stands alone.
fn only_word<'a>(words: &[&'a [u8]]) -> Option<&'a [u8]>
    ensures { Reads (λ word. word.now) result (only_word (map (λ word. word.now) words.now)) }
{
    match words {
        [word] => Some(word),
        _ => None,
    }
}

fn after_client(alloc: Global, draft: Draft, words: &[&[u8]]) -> Result<Draft, ScriptFault>
    ensures { GivesScript (λ next. next) result (after_client draft (map (λ word. word.now) words.now)) }
{
    let Some(word) = only_word(words) else {
        return Err(ScriptFault::BadScript);
    };
    with_client(alloc, draft, word)
}

fn after_last(draft: Draft, words: &[&[u8]]) -> Result<Draft, ScriptFault>
    ensures { GivesScript (λ next. next) result (after_last draft (map (λ word. word.now) words.now)) }
{
    let mut draft = draft;
    if !before_last(draft.stage) || !words.is_empty() {
        return Err(ScriptFault::BadScript);
    }
    draft.stage = Stage::Last;
    Ok(draft)
}

/// Adds a command behind those of `first`.
fn in_first(draft: Draft, command: Command) -> Result<Draft, ScriptFault>
    ensures { GivesScript (λ next. next) result (in_part Stage.First draft command) }
{
    let mut draft = draft;
    draft.first.push(command)?;
    Ok(draft)
}

/// Adds a command behind those of the last client.
fn in_clients(draft: Draft, command: Command) -> Result<Draft, ScriptFault>
    ensures { GivesScript (λ next. next) result (in_part Stage.Clients draft command) }
{
    let mut draft = draft;
    draft.clients = in_last_client(draft.clients, command)?;
    Ok(draft)
}

/// Adds a command behind those of `last`.
fn in_last(draft: Draft, command: Command) -> Result<Draft, ScriptFault>
    ensures { GivesScript (λ next. next) result (in_part Stage.Last draft command) }
{
    let mut draft = draft;
    draft.last.push(command)?;
    Ok(draft)
}

/// Adds a command behind those of the part that the lines have come to.
fn with_command(draft: Draft, command: Command) -> Result<Draft, ScriptFault>
    ensures { GivesScript (λ next. next) result (with_command draft command) }
{
    match draft.stage {
        Stage::Loads => {
            drop(draft);
            drop(command);
            Err(ScriptFault::BadScript)
        }
        Stage::First => in_first(draft, command),
        Stage::Clients => in_clients(draft, command),
        Stage::Last => in_last(draft, command),
    }
}

/// Adds the command of this verb and these words.
fn after_command(
    alloc: Global,
    draft: Draft,
    verb: &[u8],
    words: &[&[u8]],
) -> Result<Draft, ScriptFault>
    ensures { GivesScript (λ next. next) result (after_form None draft verb.now (map (λ word. word.now) words.now)) }
{
    let command = command_of(alloc, draft.loads.items(), verb, words)?;
    with_command(draft, command)
}

/// What a line of this verb and these words makes of the draft.
fn after_verb(
    alloc: Global,
    draft: Draft,
    verb: &[u8],
    words: &[&[u8]],
) -> Result<Draft, ScriptFault>
    ensures { GivesScript (λ next. next) result (after_verb draft verb.now (map (λ word. word.now) words.now)) }
{
    if verb == b"load".as_slice() {
        after_load(alloc, draft, words)
    } else if verb == b"first".as_slice() {
        after_first(draft, words)
    } else if verb == b"client".as_slice() {
        after_client(alloc, draft, words)
    } else if verb == b"last".as_slice() {
        after_last(draft, words)
    } else {
        after_command(alloc, draft, verb, words)
    }
}

fn after_words(alloc: Global, draft: Draft, words: &[&[u8]]) -> Result<Draft, ScriptFault>
    ensures { GivesScript (λ next. next) result (after_words draft (map (λ word. word.now) words.now)) }
{
    match words {
        [] => Err(ScriptFault::BadScript),
        [verb, rest @ ..] => after_verb(alloc, draft, verb, rest),
    }
}

fn after_line(alloc: Global, draft: Draft, line: &[u8]) -> Result<Draft, ScriptFault>
    ensures { GivesScript (λ next. next) result (after_line draft line.now) }
{
    let words = parts_between(alloc, b' ', line)?;
    after_words(alloc, draft, &words)
}

/// What all lines come to.
pub fn after_lines(alloc: Global, lines: &[&[u8]]) -> Result<Draft, ScriptFault>
    ensures { GivesScript (λ draft. draft) result (after_lines no_lines (map (λ line. line.now) lines.now)) }
{
    let mut draft = Draft {
        loads: Items::new(alloc),
        first: Items::new(alloc),
        clients: Items::new(alloc),
        last: Items::new(alloc),
        stage: Stage::Loads,
    };
    for line in lines {
        draft = after_line(alloc, draft, line)?;
    }
    Ok(draft)
}
