ghost use Rattle.std.specs.Prelude.{◌≡◌, [], ◌∷◌, ◌++◌, IfOk, IfErr};
ghost use Rattle.std.specs.List.{list_all};
ghost use Rattle.script_lang.specs.Fronts.{where_true};
ghost use Rattle.script_lang.specs.Clients.{is_client_byte, is_part_name, is_client_name, is_taken, new_client_of, in_last_client};
ghost use Rattle.script_lang.specs.Answers.{Reads, GivesScript};

use crate::command::Commands;
use crate::fault::ScriptFault;
use base_types::{Items, Text};
use expr_clause::Command;
use std::alloc::Global;

/// A script has so many clients at most.
const MOST_CLIENTS: usize = 16;

/// A client of a script: its name and its commands, in order.
#[derive(Drop)]
pub struct ClientPart {
    pub name: Text,
    pub commands: Commands,
}

fn is_client_byte(byte: u8) -> bool
    ensures { result ≡ is_client_byte byte }
{
    matches!(byte, b'a'..=b'z' | b'A'..=b'Z' | b'0'..=b'9' | b'_' | b'-')
}

fn are_client_bytes(word: &[u8]) -> bool
    ensures { result ≡ list_all is_client_byte word.now }
{
    word.iter().all(|byte| is_client_byte(*byte))
}

fn is_part_name(word: &[u8]) -> bool
    ensures { result ≡ is_part_name word.now }
{
    word == b"first".as_slice() || word == b"last".as_slice()
}

/// Whether a word is 1 to 32 letters, digits, `_` and `-`, and no other part's name.
fn is_client_name(word: &[u8]) -> bool
    ensures { result ≡ is_client_name word.now }
{
    !word.is_empty() && word.len() <= 32 && are_client_bytes(word) && !is_part_name(word)
}

/// The word as a text, if it is a client's name.
fn client_text(word: &[u8]) -> Option<&str>
    ensures { Reads (λ text. text.now) result (where_true (is_client_name word.now) word.now) }
{
    if !is_client_name(word) {
        return None;
    }
    match str::from_utf8(word) {
        Ok(text) => Some(text),
        Err(_) => None,
    }
}

/// Whether a client has this name.
fn is_taken(clients: &[ClientPart], name: &[u8]) -> bool
    ensures { result ≡ is_taken clients.now name.now }
{
    clients
        .iter()
        .any(|client| name == client.name.text().as_bytes())
}

/// The name of one more client, which none of these has.
pub fn new_client_of(
    alloc: Global,
    clients: &[ClientPart],
    word: &[u8],
) -> Result<Text, ScriptFault>
    ensures { GivesScript (λ name. name) result (new_client_of clients.now word.now) }
{
    if clients.len() >= MOST_CLIENTS {
        return Err(ScriptFault::BadScript);
    }
    let Some(name) = client_text(word) else {
        return Err(ScriptFault::BadScript);
    };
    if is_taken(clients, word) {
        return Err(ScriptFault::BadScript);
    }
    Ok(Text::make(alloc, name)?)
}

/// The client with one more command behind its own.
fn with_one_more(part: ClientPart, command: Command) -> Result<ClientPart, ScriptFault>
    ensures more { IfOk result (λ more. more ≡ record part { commands = part.commands ++ command ∷ [] }) }
    ensures memory { IfErr result (λ e. e ≡ ScriptFault.NoMemory) }
{
    let mut part = part;
    part.commands.push(command)?;
    Ok(part)
}

/// The clients with one more command behind those of the last one.
pub fn in_last_client(
    clients: Items<ClientPart>,
    command: Command,
) -> Result<Items<ClientPart>, ScriptFault>
    ensures { GivesScript (λ parts. parts) result (in_last_client clients command) }
{
    let mut parts = clients.into_vec();
    let Some(part) = parts.pop() else {
        drop(command);
        return Err(ScriptFault::BadScript);
    };
    let part = with_one_more(part, command)?;
    let mut clients = Items::from_vec(parts);
    clients.push(part)?;
    Ok(clients)
}
