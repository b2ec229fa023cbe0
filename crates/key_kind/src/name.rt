ghost use Rattle.std.specs.Prelude.{◌≡◌, not, refl, Some, IfOk, IfErr, OnOk, option_copied, if◌then◌else◌};
ghost use Rattle.std.specs.List.{position, list_all};
ghost use Rattle.std.specs.Cmp.{partial_equiv_from_equiv};
ghost use Rattle.std.specs.Cmp.Lexicographic.{slice_cmp, nat_list_eq_equiv, nat_list_cmp_total, texts_ties, texts_po};
ghost use Rattle.std.specs.Ordering.{nat_cmp};
ghost use Rattle.key_kind.specs.Names.{IsName, is_graphic, same_name};
ghost use Rattle.key_kind.specs.NameFaults.{IsFaultOf};

use base_types::{Keep, NoMemory, Text};
use std::alloc::Global;
use std::cmp::Ordering;
use std::marker::Model;
use std::str;

/// Why a text is no name.
#[derive(Clone, Copy, Debug)]
pub enum NameFault {
    /// It has no byte, or more than 255.
    Length,
    /// The byte at this place, counted from 0, is not from 0x21 to 0x7E; no earlier one is such.
    Byte { at: u64 },
    NoMemory,
}

/// A name of 1 to 255 bytes of 0x21 to 0x7E. Contracts see the bytes.
#[derive(Drop)]
pub struct Name {
    text: Text,
}

impl Model for Name {
    ghost use Rattle.std.specs.Prelude.{List, ℕ};
    ghost use Rattle.key_kind.specs.Names.{IsName};

    ghost Value = { List ℕ };

    ghost view = { λ n. n.text };

    ghost invariant = { λ n. IsName n.text };
}

impl Name {
    /// The name of these bytes, in memory of its own. The length is tested before the bytes.
    pub fn make(alloc: Global, text: &str) -> Result<Name, NameFault>
        ensures same { IfOk result (λ name. name ≡ text.now) }
        ensures is_name { OnOk result (IsName text.now) }
        ensures refused { IfErr result (IsFaultOf text.now) }
    {
        if text.is_empty() || text.len() > 255 {
            return Err(NameFault::Length);
        }
        if let Some(at) = first_not_graphic(text.as_bytes()) {
            return Err(NameFault::Byte { at: at as u64 });
        }
        match Name::of(alloc, text) {
            Ok(name) => Ok(name),
            Err(NoMemory) => Err(NameFault::NoMemory),
        }
    }

    /// The name of bytes that keep its rules, in memory of its own.
    pub(crate) fn of(alloc: Global, text: &str) -> Result<Name, NoMemory>
        requires { IsName text.now }
        ensures same { IfOk result (λ name. name ≡ text.now) }
        ensures is_name { IsName text.now }
    {
        let text = Text::make(alloc, text)?;
        Ok(Name { text })
    }

    /// The name, lent.
    pub fn text(&self) -> &str
        ensures bytes { result.now ≡ self.now }
        ensures is_name { IsName self.now }
    {
        self.text.text()
    }
}

/// The place of the first byte that may not stand in a name.
fn first_not_graphic(bytes: &[u8]) -> Option<usize>
    ensures { result ≡ position (λ c. not (is_graphic c)) bytes.now }
{
    bytes.iter().position(|byte| !byte.is_ascii_graphic())
}

/// Whether each byte may stand in a name.
fn all_graphic(bytes: &[u8]) -> bool
    ensures { result ≡ list_all is_graphic bytes.now }
{
    bytes.iter().all(|byte| byte.is_ascii_graphic())
}

/// The bytes as a text, where each may stand in a name.
pub(crate) fn graphic_text(bytes: &[u8]) -> Option<&str>
    ensures { option_copied result ≡ (if list_all is_graphic bytes.now then Some bytes.now else None) }
{
    if !all_graphic(bytes) {
        return None;
    }
    match str::from_utf8(bytes) {
        Ok(text) => Some(text),
        Err(_) => None,
    }
}

impl Keep for Name {
    fn copy(&self, alloc: Global) -> Result<Name, NoMemory> {
        Ok(Name {
            text: self.text.copy(alloc)?,
        })
    }
}

impl PartialEq for Name {
    ghost eq = { same_name };

    ghost laws = { partial_equiv_from_equiv nat_list_eq_equiv };

    fn eq(&self, other: &Name) -> bool {
        self.text == other.text
    }
}

impl Eq for Name {
    ghost laws = { nat_list_eq_equiv };
}

impl PartialOrd for Name {
    ghost partial_cmp = { λ x y. Some (slice_cmp nat_cmp x y) };

    ghost laws = { texts_po };

    fn partial_cmp(&self, other: &Name) -> Option<Ordering> {
        Some(self.cmp(other))
    }
}

impl Ord for Name {
    ghost cmp = { slice_cmp nat_cmp };

    ghost total = { nat_list_cmp_total };

    ghost matches_partial_cmp = { λ x y. refl };

    ghost matches_eq = { texts_ties };

    fn cmp(&self, other: &Name) -> Ordering {
        self.text.cmp(&other.text)
    }
}

/// The name of a symbol. Contracts see its bytes.
#[derive(Drop)]
pub struct Symbol {
    name: Name,
}

impl Model for Symbol {
    ghost use Rattle.std.specs.Prelude.{List, ℕ};

    ghost Value = { List ℕ };

    ghost view = { λ s. s.name };
}

impl Symbol {
    /// The symbol of this name, in memory of its own. The length is tested before the bytes.
    pub fn make(alloc: Global, text: &str) -> Result<Symbol, NameFault>
        ensures same { IfOk result (λ symbol. symbol ≡ text.now) }
        ensures is_name { OnOk result (IsName text.now) }
        ensures refused { IfErr result (IsFaultOf text.now) }
    {
        match Name::make(alloc, text) {
            Ok(name) => Ok(Symbol { name }),
            Err(fault) => Err(fault),
        }
    }

    /// The name, lent.
    pub fn name(&self) -> &Name
        ensures same { result.now ≡ self.now }
        ensures is_name { IsName self.now }
    {
        let _text = self.name.text();
        &self.name
    }
}

impl Keep for Symbol {
    fn copy(&self, alloc: Global) -> Result<Symbol, NoMemory> {
        Ok(Symbol {
            name: self.name.copy(alloc)?,
        })
    }
}

/// The name of a snapshot. Contracts see its bytes.
#[derive(Drop)]
pub struct SnapName {
    name: Name,
}

impl Model for SnapName {
    ghost use Rattle.std.specs.Prelude.{List, ℕ};

    ghost Value = { List ℕ };

    ghost view = { λ s. s.name };
}

impl SnapName {
    /// The snapshot of this name, in memory of its own. The length is tested before the bytes.
    pub fn make(alloc: Global, text: &str) -> Result<SnapName, NameFault>
        ensures same { IfOk result (λ snap. snap ≡ text.now) }
        ensures is_name { OnOk result (IsName text.now) }
        ensures refused { IfErr result (IsFaultOf text.now) }
    {
        match Name::make(alloc, text) {
            Ok(name) => Ok(SnapName { name }),
            Err(fault) => Err(fault),
        }
    }

    /// The name, lent.
    pub fn name(&self) -> &Name
        ensures same { result.now ≡ self.now }
        ensures is_name { IsName self.now }
    {
        let _text = self.name.text();
        &self.name
    }
}

impl Keep for SnapName {
    fn copy(&self, alloc: Global) -> Result<SnapName, NoMemory> {
        Ok(SnapName {
            name: self.name.copy(alloc)?,
        })
    }
}
