ghost use Rattle.std.specs.Prelude.{◌≡◌, map};
ghost use Rattle.script_lang.specs.Fronts.{whole};
ghost use Rattle.script_lang.specs.PlainFiles.{column_name_at};
ghost use Rattle.script_lang.specs.Options.{option_name, option_value, after_option, commit_settings, commit_options, update_settings, update_options, versions_of, versions_given, columns_of, set_as_of, set_read_range, set_columns, read_settings, read_options};
ghost use Rattle.script_lang.specs.Answers.{GivesScript};

use crate::fault::ScriptFault;
use crate::lines::{part_len, parts_between};
use crate::moment::{as_of_of, moment_of, range_of, sign_at, version_of};
use crate::plain_word::name_text;
use base_types::Items;
use expr_clause::AsOf;
use frame_core::{ColName, Range};
use std::alloc::Global;

/// The options of a commit.
#[derive(Clone, Copy)]
pub struct CommitOptions {
    /// In nanoseconds since 1970.
    pub at: Option<i64>,
    pub prune: bool,
}

/// The options of an update.
#[derive(Clone, Copy)]
pub struct UpdateOptions {
    pub range: Option<Range>,
    pub upsert: bool,
    pub commit: CommitOptions,
}

/// The options of a read.
#[derive(Drop)]
pub struct ReadOptions {
    pub as_of: Option<AsOf>,
    pub range: Option<Range>,
    pub columns: Option<Items<ColName>>,
}

/// An option's name, which goes up to its first `=`, and what stands behind it.
fn option_parts(word: &[u8]) -> (&[u8], &[u8])
    ensures name { result.0.now ≡ option_name word.now }
    ensures value { result.1.now ≡ option_value word.now }
{
    let before = part_len(b'=', word);
    if before < word.len() {
        word.split_at(before + 1)
    } else {
        word.split_at(before)
    }
}

fn with_commit(options: CommitOptions, word: &[u8]) -> Option<CommitOptions>
    ensures { result ≡ after_option commit_settings options word.now }
{
    let CommitOptions { at, prune } = options;
    let (name, value) = option_parts(word);
    if name == b"at=".as_slice() && at.is_none() {
        let at = Some(moment_of(value)?);
        Some(CommitOptions { at, prune })
    } else if name == b"prune".as_slice() && !prune {
        Some(CommitOptions { at, prune: true })
    } else {
        None
    }
}

/// The options of a commit by their words.
pub fn commit_options(words: &[&[u8]]) -> Option<CommitOptions>
    ensures { result ≡ commit_options (map (λ word. word.now) words.now) }
{
    let mut options = CommitOptions {
        at: None,
        prune: false,
    };
    for word in words {
        options = with_commit(options, word)?;
    }
    Some(options)
}

fn with_update(options: UpdateOptions, word: &[u8]) -> Option<UpdateOptions>
    ensures { result ≡ after_option update_settings options word.now }
{
    let UpdateOptions {
        range,
        upsert,
        commit,
    } = options;
    let (name, value) = option_parts(word);
    if name == b"range=".as_slice() && range.is_none() {
        let range = Some(range_of(value)?);
        Some(UpdateOptions {
            range,
            upsert,
            commit,
        })
    } else if name == b"upsert".as_slice() && !upsert {
        Some(UpdateOptions {
            range,
            upsert: true,
            commit,
        })
    } else {
        let commit = with_commit(commit, word)?;
        Some(UpdateOptions {
            range,
            upsert,
            commit,
        })
    }
}

/// The options of an update by their words.
pub fn update_options(words: &[&[u8]]) -> Option<UpdateOptions>
    ensures { result ≡ update_options (map (λ word. word.now) words.now) }
{
    let mut options = UpdateOptions {
        range: None,
        upsert: false,
        commit: CommitOptions {
            at: None,
            prune: false,
        },
    };
    for word in words {
        options = with_update(options, word)?;
    }
    Some(options)
}

fn versions_of(alloc: Global, word: &[u8]) -> Result<Items<u64>, ScriptFault>
    ensures { GivesScript (λ versions. versions) result (versions_of word.now) }
{
    let parts = parts_between(alloc, b',', word)?;
    let mut versions = Items::new(alloc);
    for part in &parts {
        let Some(version) = version_of(part) else {
            return Err(ScriptFault::BadScript);
        };
        versions.push(version)?;
    }
    Ok(versions)
}

/// The versions of a delete by its words, or none where every live one is taken.
pub fn versions_given(alloc: Global, words: &[&[u8]]) -> Result<Option<Items<u64>>, ScriptFault>
    ensures { GivesScript (λ versions. versions) result (versions_given (map (λ word. word.now) words.now)) }
{
    match words {
        [] => Ok(None),
        [word] => {
            let Some(list) = sign_at(b"version=".as_slice(), word) else {
                return Err(ScriptFault::BadScript);
            };
            Ok(Some(versions_of(alloc, list)?))
        }
        _ => Err(ScriptFault::BadScript),
    }
}

fn column_of(alloc: Global, word: &[u8]) -> Result<ColName, ScriptFault>
    ensures { GivesScript (λ name. name) result (whole column_name_at word.now) }
{
    let Some(name) = name_text(word) else {
        return Err(ScriptFault::BadScript);
    };
    if name.len() > 255 {
        return Err(ScriptFault::BadScript);
    }
    match ColName::make(alloc, name) {
        Ok(name) => Ok(name),
        Err(_) => Err(ScriptFault::NoMemory),
    }
}

fn columns_of(alloc: Global, word: &[u8]) -> Result<Items<ColName>, ScriptFault>
    ensures { GivesScript (λ columns. columns) result (columns_of word.now) }
{
    let parts = parts_between(alloc, b',', word)?;
    let mut columns = Items::new(alloc);
    for part in &parts {
        columns.push(column_of(alloc, part)?)?;
    }
    Ok(columns)
}

fn set_as_of(options: ReadOptions, value: &[u8]) -> Result<ReadOptions, ScriptFault>
    ensures { GivesScript (λ next. next) result (set_as_of options value.now) }
{
    let mut options = options;
    if options.as_of.is_some() {
        return Err(ScriptFault::BadScript);
    }
    let Some(asked) = as_of_of(value) else {
        return Err(ScriptFault::BadScript);
    };
    options.as_of = Some(asked);
    Ok(options)
}

fn set_range(options: ReadOptions, value: &[u8]) -> Result<ReadOptions, ScriptFault>
    ensures { GivesScript (λ next. next) result (set_read_range options value.now) }
{
    let mut options = options;
    if options.range.is_some() {
        return Err(ScriptFault::BadScript);
    }
    let Some(asked) = range_of(value) else {
        return Err(ScriptFault::BadScript);
    };
    options.range = Some(asked);
    Ok(options)
}

fn set_columns(
    alloc: Global,
    options: ReadOptions,
    value: &[u8],
) -> Result<ReadOptions, ScriptFault>
    ensures { GivesScript (λ next. next) result (set_columns options value.now) }
{
    let mut options = options;
    if options.columns.is_some() {
        return Err(ScriptFault::BadScript);
    }
    options.columns = Some(columns_of(alloc, value)?);
    Ok(options)
}

fn with_read(alloc: Global, options: ReadOptions, word: &[u8]) -> Result<ReadOptions, ScriptFault>
    ensures { GivesScript (λ next. next) result (after_option read_settings options word.now) }
{
    let (name, value) = option_parts(word);
    if name == b"as_of=".as_slice() {
        set_as_of(options, value)
    } else if name == b"range=".as_slice() {
        set_range(options, value)
    } else if name == b"columns=".as_slice() {
        set_columns(alloc, options, value)
    } else {
        Err(ScriptFault::BadScript)
    }
}

/// The options of a read by their words.
pub fn read_options(alloc: Global, words: &[&[u8]]) -> Result<ReadOptions, ScriptFault>
    ensures { GivesScript (λ options. options) result (read_options (map (λ word. word.now) words.now)) }
{
    let mut options = ReadOptions {
        as_of: None,
        range: None,
        columns: None,
    };
    for word in words {
        options = with_read(alloc, options, word)?;
    }
    Ok(options)
}
