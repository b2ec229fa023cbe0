ghost use Rattle.std.specs.Prelude.{◌≡◌, ◌<◌, ◌↔◌, ◌⊎◌, [], length, nat_eq, IfOk, IsErrOf, OnOk, Some, refl};
ghost use Rattle.std.specs.Cmp.{partial_equiv_from_equiv};
ghost use Rattle.std.specs.Cmp.Lexicographic.{pointwise, slice_cmp, nat_list_eq_equiv, nat_list_cmp_total, texts_ties, texts_po};
ghost use Rattle.std.specs.Ordering.{nat_cmp};
ghost use Rattle.frame_core.specs.Schemas.{IsColName};

use base_types::{Keep, NoMemory, Text};
use std::alloc::Global;
use std::cmp::Ordering;
use std::marker::Model;

/// Why a text is no name of a column.
#[derive(Clone, Copy, Debug)]
pub enum NameFault {
    /// It has no byte, or more than 255.
    Length,
    NoMemory,
}

/// The name of a column: 1 to 255 bytes of UTF-8. Contracts see the bytes.
#[derive(Drop)]
pub struct ColName {
    text: Text,
}

impl Model for ColName {
    ghost use Rattle.std.specs.Prelude.{ℕ, List};
    ghost use Rattle.frame_core.specs.Schemas.{IsColName};

    ghost Value = { List ℕ };

    ghost view = { λ n. n.text };

    ghost invariant = { λ n. IsColName n.text };
}

impl ColName {
    /// The name of these bytes, in memory of its own.
    pub fn make(alloc: Global, text: &str) -> Result<ColName, NameFault>
        ensures name { IfOk result (λ name. name ≡ text.now) }
        ensures length { IsErrOf result NameFault.Length ↔ ((text.now ≡ []) ⊎ (255 < length text.now)) }
    {
        if text.is_empty() || text.len() > 255 {
            return Err(NameFault::Length);
        }
        match Text::make(alloc, text) {
            Ok(text) => Ok(ColName { text }),
            Err(NoMemory) => Err(NameFault::NoMemory),
        }
    }

    /// The name, lent.
    pub fn text(&self) -> &str
        ensures bytes { result.now ≡ self.now }
        ensures name { IsColName self.now }
    {
        self.text.text()
    }
}

impl Keep for ColName {
    fn copy(&self, alloc: Global) -> Result<ColName, NoMemory>
        ensures copy { IfOk result (λ copy. copy ≡ self.now) }
        ensures name { IsColName self.now }
    {
        let text = self.text.copy(alloc)?;
        Ok(ColName { text })
    }
}

impl PartialEq for ColName {
    ghost eq = { pointwise nat_eq };

    ghost laws = { partial_equiv_from_equiv nat_list_eq_equiv };

    fn eq(&self, other: &ColName) -> bool {
        self.text == other.text
    }
}

impl Eq for ColName {
    ghost laws = { nat_list_eq_equiv };
}

impl PartialOrd for ColName {
    ghost partial_cmp = { λ x y. Some (slice_cmp nat_cmp x y) };

    ghost laws = { texts_po };

    fn partial_cmp(&self, other: &ColName) -> Option<Ordering> {
        Some(self.cmp(other))
    }
}

impl Ord for ColName {
    ghost cmp = { slice_cmp nat_cmp };

    ghost total = { nat_list_cmp_total };

    ghost matches_partial_cmp = { λ x y. refl };

    ghost matches_eq = { texts_ties };

    fn cmp(&self, other: &ColName) -> Ordering {
        self.text.cmp(&other.text)
    }
}
