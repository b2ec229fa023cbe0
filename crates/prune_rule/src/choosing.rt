//! Which versions a command buries.

ghost use Rattle.std.specs.Prelude.{◌≡◌, find, not, is_some, Ok, OnOk, IfOk, IfErr};
ghost use Rattle.reply_model.specs.CommitAnswers.{insert_number, ascending};
ghost use Rattle.version_chain.specs.States.{live_link};
ghost use Rattle.prune_rule.specs.Burials.{chosen_in, state_answer, Declines, without_last, live_among};

use base_types::{Items, NoMemory};
use frame_core::{Asked, Refusal};
use std::alloc::Global;
use std::collections::BTreeSet;
use version_chain::SymbolState;

/// Which versions a command buries.
#[derive(Clone, Copy)]
pub(crate) enum Wish<'a> {
    /// Every live version.
    All,
    /// These, which are to be live.
    These(&'a [u64]),
    /// Every live version but the newest.
    ButNewest,
}

/// The versions that are buried, ascending, or why none are.
pub(crate) fn choose(alloc: Global, state: &SymbolState, wish: Wish) -> Result<Items<u64>, Refusal>
    ensures chosen { IfOk result (λ numbers. state_answer wish.entry state.now ≡ Ok numbers) }
    ensures refused { IfErr result (Declines (state_answer wish.entry state.now)) }
{
    if state.was.is_none() {
        return Err(Refusal::NoSuchSymbol);
    }
    chosen(alloc, state, wish)
}

/// The versions that are buried, ascending, where the symbol has a reference.
fn chosen(alloc: Global, state: &SymbolState, wish: Wish) -> Result<Items<u64>, Refusal>
    ensures chosen { IfOk result (λ numbers. chosen_in wish.entry state.now ≡ Ok numbers) }
    ensures refused { IfErr result (Declines (chosen_in wish.entry state.now)) }
{
    match wish {
        Wish::All => Ok(live_numbers(alloc, state)?),
        Wish::These(numbers) => match first_absent(state, numbers) {
            Some(absent) => Err(Refusal::NoSuchVersion {
                asked: Asked::Number(absent),
            }),
            None => Ok(sorted(alloc, numbers)?),
        },
        Wish::ButNewest => Ok(older_numbers(alloc, state)?),
    }
}

/// The numbers of the live versions, ascending.
fn live_numbers(alloc: Global, state: &SymbolState) -> Result<Items<u64>, NoMemory>
    ensures { IfOk result (λ numbers. numbers ≡ live_among state.now.tombs state.now.links) }
{
    let mut numbers = Items::new(alloc);
    for row in state.links.items() {
        if !state.is_buried(row.version) {
            numbers.push(row.version)?;
        }
    }
    Ok(numbers)
}

/// The numbers of the live versions but the newest, ascending.
fn older_numbers(alloc: Global, state: &SymbolState) -> Result<Items<u64>, NoMemory>
    ensures { IfOk result (λ numbers. numbers ≡ without_last (live_among state.now.tombs state.now.links)) }
{
    let numbers = live_numbers(alloc, state)?;
    let older = numbers.len().saturating_sub(1);
    let mut numbers = numbers.into_vec();
    numbers.truncate(older);
    Ok(Items::from_vec(numbers))
}

/// The first of these numbers of which there is no live version.
fn first_absent(state: &SymbolState, numbers: &[u64]) -> Option<u64>
    ensures { result ≡ find (λ n. not (is_some (live_link state.now n))) numbers.now }
{
    numbers
        .iter()
        .copied()
        .find(|number| state.live(*number).is_none())
}

/// These numbers in ascending order, each once.
fn sorted(alloc: Global, numbers: &[u64]) -> Result<Items<u64>, NoMemory>
    ensures { IfOk result (λ sorted. sorted ≡ ascending numbers.now) }
{
    let mut noted = BTreeSet::new(alloc);
    for place in (0..numbers.len()).rev() {
        note(&mut noted, numbers[place])?;
    }
    listed(alloc, noted)
}

/// Puts a number into a set.
fn note(noted: &mut BTreeSet<u64>, number: u64) -> Result<(), NoMemory>
    ensures { OnOk result (noted.new.keys ≡ insert_number number noted.old.keys) }
{
    noted.insert(number)?;
    Ok(())
}

/// The numbers of a set, ascending.
fn listed(alloc: Global, noted: BTreeSet<u64>) -> Result<Items<u64>, NoMemory>
    ensures { IfOk result (λ numbers. numbers ≡ noted.keys) }
{
    let mut numbers = Items::new(alloc);
    let mut rest = noted;
    while let Some(number) = rest.pop_first() {
        numbers.push(number)?;
    }
    Ok(numbers)
}
