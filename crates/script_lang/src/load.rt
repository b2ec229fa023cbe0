ghost use Rattle.std.specs.Prelude.{◌≡◌, map};
ghost use Rattle.script_lang.specs.Words.{plain_of, frame_of};
ghost use Rattle.script_lang.specs.Loads.{type_of, each_type, types_of, frame_names, new_name_of, load_of};
ghost use Rattle.script_lang.specs.Answers.{GivesScript};

use crate::fault::ScriptFault;
use crate::lines::parts_between;
use crate::plain_word::{name_text, plain_text};
use base_types::{Items, Text};
use frame_core::ColType;
use std::alloc::Global;

/// The types of a frame's columns, seen as a list.
pub type ColTypes = Items<ColType>;

/// The frames that a script loads, seen as a list.
pub type Loads = Items<Load>;

/// A plain script has so many types in one line at most.
const MOST_TYPES: usize = 127;

/// A frame that a script loads: its name, its file and the types of its columns.
#[derive(Drop)]
pub struct Load {
    pub name: Text,
    pub file: Text,
    pub types: ColTypes,
}

/// The place of the frame of this name among the loads, counted from 0.
pub fn frame_place(loads: &[Load], name: &[u8]) -> Option<u64>
    ensures { result ≡ frame_of (frame_names loads.now) name.now }
{
    for (place, load) in loads.iter().enumerate() {
        if name == load.name.text().as_bytes() {
            return Some(place as u64);
        }
    }
    None
}

fn type_of(word: &[u8]) -> Option<ColType>
    ensures { result ≡ type_of word.now }
{
    if word == b"int".as_slice() {
        Some(ColType::Int)
    } else {
        None
    }
}

fn all_types(alloc: Global, words: &[&[u8]]) -> Result<ColTypes, ScriptFault>
    ensures { GivesScript (λ types. types) result (each_type (map (λ word. word.now) words.now)) }
{
    let mut types = Items::new(alloc);
    for word in words {
        let Some(kind) = type_of(word) else {
            return Err(ScriptFault::BadScript);
        };
        types.push(kind)?;
    }
    Ok(types)
}

fn types_of(alloc: Global, word: &[u8]) -> Result<ColTypes, ScriptFault>
    ensures { GivesScript (λ types. types) result (types_of word.now) }
{
    let parts = parts_between(alloc, b',', word)?;
    let types = all_types(alloc, &parts)?;
    if types.len() > MOST_TYPES {
        return Err(ScriptFault::BadScript);
    }
    Ok(types)
}

fn new_name(alloc: Global, loads: &[Load], word: &[u8]) -> Result<Text, ScriptFault>
    ensures { GivesScript (λ name. name) result (new_name_of loads.now word.now) }
{
    let Some(name) = name_text(word) else {
        return Err(ScriptFault::BadScript);
    };
    if frame_place(loads, name.as_bytes()).is_some() {
        return Err(ScriptFault::BadScript);
    }
    Ok(Text::make(alloc, name)?)
}

fn file_of(alloc: Global, word: &[u8]) -> Result<Text, ScriptFault>
    ensures { GivesScript (λ file. file) result (plain_of word.now) }
{
    let Some(file) = plain_text(word) else {
        return Err(ScriptFault::BadScript);
    };
    Ok(Text::make(alloc, file)?)
}

/// The load of these words, behind the loads before.
pub fn load_of(alloc: Global, loads: &[Load], words: &[&[u8]]) -> Result<Load, ScriptFault>
    ensures { GivesScript (λ load. load) result (load_of loads.now (map (λ word. word.now) words.now)) }
{
    match words {
        [frame, file, list] => {
            let name = new_name(alloc, loads, frame)?;
            let file = file_of(alloc, file)?;
            let types = types_of(alloc, list)?;
            Ok(Load { name, file, types })
        }
        _ => Err(ScriptFault::BadScript),
    }
}
