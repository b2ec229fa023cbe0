ghost use Rattle.std.specs.Prelude.{◌≡◌, nat_eq, find, option_copied};
ghost use Rattle.version_chain.specs.States.{is_tomb, newest_link, live_link};

use base_types::Items;
use bucket_core::PieceName;
use key_kind::Key;
use store_model::{HoldRow, LinkRow};

/// The state of a symbol, as a walk along its chain finds it.
#[derive(Drop)]
pub struct SymbolState {
    /// The key of the newest element, if the symbol has a reference.
    pub was: Option<Key>,
    /// The links, in ascending order of version.
    pub links: Items<LinkRow>,
    /// The buried versions, those of the newest element first.
    pub tombs: Items<u64>,
    /// The unreleased holds, the newest first.
    pub holds: Items<HoldRow>,
    /// The consumed pieces, those of the newest element first.
    pub consumed: Items<PieceName>,
    /// The number of events that the look at the reference has seen.
    pub place: u64,
}

impl SymbolState {
    /// The live link of the greatest version.
    pub fn newest(&self) -> Option<&LinkRow>
        ensures { option_copied result ≡ newest_link self.now }
    {
        let mut newest = None;
        for row in self.links.items() {
            if !self.is_buried(row.version) {
                newest = Some(row);
            }
        }
        newest
    }

    /// The live link of a version.
    pub fn live(&self, version: u64) -> Option<&LinkRow>
        ensures { option_copied result ≡ live_link self.now version }
    {
        if self.is_buried(version) {
            return None;
        }
        find_link(self.links.items(), version)
    }

    /// Whether a version is buried.
    pub fn is_buried(&self, version: u64) -> bool
        ensures { result ≡ is_tomb self.now.tombs version }
    {
        self.tombs.items().iter().any(|tomb| version == *tomb)
    }
}

/// The first link of a version.
fn find_link(rows: &[LinkRow], version: u64) -> Option<&LinkRow>
    ensures { option_copied result ≡ find (λ row. nat_eq version row.version) rows.now }
{
    rows.iter().find(|row| version == row.version)
}
