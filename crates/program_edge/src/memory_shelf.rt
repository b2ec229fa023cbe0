ghost use Rattle.std.specs.Prelude.{◌≡◌, ◌≤◌, [], map, string_bytes, IsErrOf, OnErr, option_map};
ghost use Rattle.base_types.specs.Faults.{Rose};
ghost use Rattle.program_edge.specs.Shelves.{FetchGives};
ghost use Rattle.program_edge.specs.FailPlans.{no_calls, fails_next, after_call};
ghost use Rattle.program_edge.specs.Memory.{held_under, fetch_answer, FetchIs};

use crate::fail_plan::FailPlan;
use crate::shelf::{Shelf, ShelfErr};
use std::marker::Model;

/// Files in memory, some of whose calls fail.
#[derive(Drop)]
pub struct MemoryShelf {
    files: Vec<(String, Vec<u8>)>,
    plan: FailPlan,
}

impl Model for MemoryShelf {
    ghost use Rattle.std.specs.Prelude.{map, string_bytes};
    ghost use Rattle.program_edge.specs.Memory.{Files};

    ghost Value = { Files };

    ghost view = { λ s. record { files = map (λ f. (string_bytes f.0, f.1.items)) s.files.items; plan = s.plan } };
}

impl MemoryShelf {
    /// A shelf of these files, of which the first holds where two have one name.
    ///
    /// The calls of `fetch` whose numbers, counted from 1, stand in `fails` answer Failed.
    pub fn make(files: Vec<(String, Vec<u8>)>, fails: Vec<u64>) -> MemoryShelf
        ensures { result ≡ record { files = map (λ f. (string_bytes f.0, f.1.items)) files.items; plan = no_calls fails.items } }
    {
        MemoryShelf {
            files,
            plan: FailPlan::make(fails),
        }
    }
}

fn find_file<'a>(files: &'a [(String, Vec<u8>)], name: &str) -> Option<&'a [u8]>
    ensures { option_map (λ b. b.now) result ≡ held_under (map (λ f. (string_bytes f.0, f.1.items)) files.now) name.now }
{
    for file in files {
        if file.0.as_str() == name {
            return Some(file.1.as_slice());
        }
    }
    None
}

fn fill(into: &mut Vec<u8>, bytes: &[u8]) -> Result<(), ShelfErr>
    requires { into.old.items ≡ [] }
    ensures filled { FetchIs (Ok bytes.now) into.new.items result }
    ensures refused { OnErr result (into.new.items ≡ []) }
{
    match into.extend_from_slice(bytes) {
        Ok(()) => Ok(()),
        Err(_) => Err(ShelfErr::NoMemory),
    }
}

impl Shelf for MemoryShelf {
    ghost use Rattle.std.specs.Prelude.{Some};
    ghost use Rattle.program_edge.specs.Memory.{held_under};

    ghost holds = { λ s. Some (held_under s.files) };

    ghost faults = { λ s. s.plan.faults };

    /// Fails exactly where the call's number is among those that fail.
    fn fetch(&mut self, name: &str, into: &mut Vec<u8>) -> Result<(), ShelfErr>
        ensures answer { FetchIs (fetch_answer (fails_next self.old.plan) (held_under self.old.files name.now)) into.new.items result }
        ensures refused { OnErr result (into.new.items ≡ []) }
        ensures counted { self.new ≡ record self.old { plan = after_call self.old.plan } }
    {
        into.clear();
        if self.plan.next() {
            return Err(ShelfErr::Failed);
        }
        match find_file(&self.files, name) {
            None => Err(ShelfErr::NotThere),
            Some(bytes) => fill(into, bytes),
        }
    }
}
