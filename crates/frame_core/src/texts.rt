ghost use Rattle.std.specs.Prelude.{◌≡◌, ◌<◌, ◌≤◌, ◌++◌, ◌∷◌, [], length, slice_get, slice_index, max, map, fold, sum_by, Some, IsUtf8, IfOk, OnOk, OnErr};
ghost use Rattle.std.specs.List.{AllByRecursion};

use base_types::{Keep, NoMemory};
use std::alloc::Global;
use std::marker::Model;

/// Texts, one behind another in one buffer, with the end of each. Contracts see the list of the texts' bytes.
#[derive(Drop)]
pub struct TextList {
    pub(crate) buffer: String,
    pub(crate) ends: Vec<usize>,
}

impl Model for TextList {
    ghost use Rattle.std.specs.Prelude.{ℕ, List, string_bytes};
    ghost use Rattle.frame_core.specs.Texts.{texts_between, AreEnds};

    ghost Value = { List (List ℕ) };

    ghost view = { λ t. texts_between 0 t.ends.items (string_bytes t.buffer) };

    ghost invariant = { λ t. AreEnds 0 t.ends.items (string_bytes t.buffer) };
}

impl TextList {
    /// No texts. It takes no memory.
    pub fn new(alloc: Global) -> TextList
        ensures { result ≡ [] }
    {
        TextList {
            buffer: String::new(alloc),
            ends: Vec::new(alloc),
        }
    }

    /// Takes memory for so many texts more, of so many bytes together.
    pub fn reserve(&mut self, texts: usize, bytes: usize) -> Result<(), NoMemory>
        ensures { self.new ≡ self.old }
    {
        self.ends.reserve(texts)?;
        self.buffer.reserve(bytes)?;
        Ok(())
    }

    /// Adds a text behind the others. A refused call leaves the list as it was.
    pub fn push(&mut self, text: &str) -> Result<(), NoMemory>
        ensures ok { OnOk result (self.new ≡ self.old ++ text.now ∷ []) }
        ensures err { OnErr result (self.new ≡ self.old) }
    {
        self.ends.reserve(1)?;
        self.buffer.push_str(text)?;
        let end = self.buffer.as_str().len();
        Ok(self.ends.push(end)?)
    }

    /// How many texts there are.
    pub fn len(&self) -> usize
        ensures len { result ≡ length self.now }
        ensures texts { AllByRecursion IsUtf8 self.now }
    {
        self.ends.len()
    }

    /// How many bytes the texts have together.
    pub fn bytes(&self) -> usize
        ensures { result ≡ sum_by (λ t. length t) self.now }
    {
        self.buffer.as_str().len()
    }

    /// How many bytes the longest text has.
    pub fn longest(&self) -> usize
        ensures { result ≡ fold max 0 (map (λ t. length t) self.now) }
    {
        let mut longest = 0;
        let mut start = 0;
        for end in &self.ends {
            longest = longest.max(*end - start);
            start = *end;
        }
        longest
    }

    /// The text at a place, counted from 0. It is lent from the buffer, in constant time.
    pub fn at(&self, place: usize) -> &str
        requires { place < length self.now }
        ensures { slice_get self.now place ≡ Some result.now }
    {
        let start = start_of(&self.ends, place);
        &self.buffer.as_str()[start..self.ends[place]]
    }
}

impl Keep for TextList {
    fn copy(&self, alloc: Global) -> Result<TextList, NoMemory> {
        let buffer = String::from_str(alloc, self.buffer.as_str())?;
        let ends = Vec::from_slice(alloc, &self.ends)?;
        Ok(TextList { buffer, ends })
    }
}

/// Where the text at a place begins.
pub(crate) fn start_of(ends: &[usize], place: usize) -> usize
    requires { place ≤ length ends.now }
    ensures { result ≡ slice_index (0 ∷ ends.now) place }
{
    if place == 0 { 0 } else { ends[place - 1] }
}
