ghost use Rattle.std.specs.Prelude.{◌≡◌, ◌-◌, ◌<◌, ℕ, List, ◌++◌, length, map, drop, option_map, slice_get, IfOk, Ok};
ghost use Rattle.std.specs.Arc.{arc_value};
ghost use Rattle.std.specs.List.{flat_map, AllByRecursion};
ghost use Rattle.byte_fields.specs.Readers.{Gives};
ghost use Rattle.key_kind.specs.KeyViews.{key_of};
ghost use Rattle.key_kind.specs.Keys.{IsKey};
ghost use Rattle.index_tree.specs.IndexText.{slot_text};
ghost use Rattle.index_tree.specs.IndexRules.{FitsSlot};
ghost use Rattle.index_tree.specs.SlotTexts.{span_of, slot_with, plain_slot_at, slots_in, SpellSlots, SpellFrom, moved as shifted, MayMove};

use crate::index::Slot;
use crate::span::{SPAN_BYTES, Span, read_span};
use crate::writing::{put_slots, slots_len};
use base_types::{Body, Items, Keep, NoMemory};
use byte_fields::{put_bytes, put_u32};
use key_kind::{KeyView, view_key};
use std::alloc::Global;
use std::marker::Model;
use std::sync::Arc;

/// How many bytes the spelling of a key has beside its name.
const KEY_BYTES: usize = 38;

/// Slots as an index spells them, one behind another, in bytes that are shared: a copy takes no memory for them. Contracts see the
/// list of the slots.
#[derive(Drop)]
pub struct SlotText {
    body: Arc<Body>,
    /// The place of the first slot's first byte.
    from: usize,
    count: usize,
}

impl Model for SlotText {
    ghost use Rattle.std.specs.Prelude.{List, drop};
    ghost use Rattle.std.specs.Arc.{arc_value};
    ghost use Rattle.index_tree.specs.declared.index.Slot.{Slot};

    ghost Value = { List Slot };

    ghost use Rattle.index_tree.specs.SlotTexts.{slots_in, SpellFrom};

    ghost view = { λ t. slots_in t.count (drop t.from (arc_value t.body)) };

    ghost invariant = { λ t. SpellFrom t.from t.count (arc_value t.body) };
}

impl SlotText {
    /// The spelling of these slots. Memory is taken twice: once for the bytes, and once to share them.
    pub fn of(alloc: Global, slots: &[Slot]) -> Result<SlotText, NoMemory>
        requires fits { AllByRecursion FitsSlot slots.now }
        ensures { IfOk result (λ text. text ≡ slots.now) }
    {
        let mut bytes = Vec::with_capacity(alloc, slots_len(slots))?;
        put_slots(&mut bytes, slots)?;
        SlotText::whole(alloc, slots.len(), bytes)
    }

    /// Bytes that are nothing but the spellings of so many slots.
    fn whole(alloc: Global, count: usize, bytes: Vec<u8>) -> Result<SlotText, NoMemory>
        requires spelled { SpellSlots count bytes.items (slots_in count bytes.items) }
        ensures { IfOk result (λ text. text ≡ slots_in count bytes.items) }
    {
        Ok(SlotText {
            body: Arc::new(alloc, Body::make(bytes))?,
            from: 0,
            count,
        })
    }

    /// So many slots that a body spells from this place on, up to its end.
    pub(crate) fn within(body: Arc<Body>, from: usize, count: usize) -> SlotText
        requires spelled { SpellFrom from count (arc_value body) }
        ensures { result ≡ slots_in count (drop from (arc_value body)) }
    {
        SlotText { body, from, count }
    }

    /// The bytes, as they stand in an index.
    pub(crate) fn bytes(&self) -> &[u8]
        ensures text { result.now ≡ flat_map slot_text self.now }
        ensures fits { AllByRecursion FitsSlot self.now }
    {
        let (_, bytes) = self.body.bytes().split_at(self.from);
        bytes
    }

    /// How many slots there are.
    pub fn len(&self) -> usize
        ensures { result ≡ length self.now }
    {
        self.count
    }

    /// The slots of a run that begins with the row `from`, moved so that it begins with the row `to`. Where nothing moves, the bytes
    /// are shared.
    pub fn moved(&self, alloc: Global, from: u64, to: u64) -> Result<SlotText, NoMemory>
        requires may { AllByRecursion (MayMove from to) self.now }
        ensures { IfOk result (λ text. text ≡ map (shifted from to) self.now) }
    {
        if from == to {
            return self.copy(alloc);
        }
        self.rewritten(alloc, from, to)
    }

    /// The moved slots in bytes of their own.
    fn rewritten(&self, alloc: Global, from: u64, to: u64) -> Result<SlotText, NoMemory>
        requires may { AllByRecursion (MayMove from to) self.now }
        ensures { IfOk result (λ text. text ≡ map (shifted from to) self.now) }
    {
        let mut rest = self.bytes();
        let mut bytes = Vec::with_capacity(alloc, rest.len())?;
        for _ in 0..self.count {
            rest = put_moved(&mut bytes, from, to, rest)?;
        }
        SlotText::whole(alloc, self.count, bytes)
    }

    /// The rows, columns and stamps of the first slot.
    pub fn first(&self) -> Option<Span>
        ensures { result ≡ option_map span_of (slice_get self.now 0) }
    {
        if self.count == 0 {
            return None;
        }
        let (span, _rest) = pass_slot(self.bytes());
        Some(span)
    }

    /// The rows, columns and stamps of the last slot, in constant time.
    pub fn last(&self) -> Option<Span>
        ensures { result ≡ option_map span_of (slice_get self.now (length self.now - 1)) }
    {
        if self.count == 0 {
            return None;
        }
        let bytes = self.bytes();
        let (_, end) = bytes.split_at(bytes.len() - SPAN_BYTES);
        match read_span(end) {
            Ok((span, _)) => Some(span),
            Err(_) => unreachable!(),
        }
    }

    /// The slots, in memory of their own.
    pub fn to_slots(&self, alloc: Global) -> Result<Items<Slot>, NoMemory>
        ensures { IfOk result (λ slots. slots ≡ self.now) }
    {
        let mut slots = Items::with_capacity(alloc, self.count)?;
        let mut rest = self.bytes();
        for _ in 0..self.count {
            let (slot, after) = read_slot(alloc, rest)?;
            slots.push(slot)?;
            rest = after;
        }
        Ok(slots)
    }
}

impl Keep for SlotText {
    fn copy(&self, _alloc: Global) -> Result<SlotText, NoMemory> {
        Ok(SlotText {
            body: Arc::try_clone(&self.body)?,
            from: self.from,
            count: self.count,
        })
    }
}

/// The slot that the bytes begin with, and what follows. Where a field is not whole or no key, the error is how many bytes are
/// left from it on.
fn view_slot(bytes: &[u8]) -> Result<(KeyView<'_>, Span, &[u8]), usize>
    ensures gives { Gives (λ x. (slot_with (key_of x.0) x.1, x.2.now)) result (plain_slot_at bytes.now) }
    ensures is_key { IfOk result (λ x. IsKey (key_of x.0)) }
{
    let (key, at_span) = view_key(bytes)?;
    let (span, rest) = read_span(at_span)?;
    Ok((key, span, rest))
}

/// The slot that the bytes begin with, which they spell, and what follows.
fn first_slot(bytes: &[u8]) -> (KeyView<'_>, Span, &[u8])
    requires spelled { (x : Slot × List ℕ) × (plain_slot_at bytes.now ≡ Ok x) }
    ensures slot { plain_slot_at bytes.now ≡ Ok (slot_with (key_of result.0) result.1, result.2.now) }
    ensures is_key { IsKey (key_of result.0) }
{
    match view_slot(bytes) {
        Ok(found) => found,
        Err(_) => unreachable!(),
    }
}

/// The slot that the bytes begin with, which they spell, in memory of its own, and what follows.
pub(crate) fn read_slot(alloc: Global, bytes: &[u8]) -> Result<(Slot, &[u8]), NoMemory>
    requires spelled { (s : Slot) × (more : List ℕ) × (bytes.now ≡ slot_text s ++ more) × FitsSlot s }
    ensures { (s : Slot) (more : List ℕ) → bytes.now ≡ slot_text s ++ more → FitsSlot s → IfOk result (λ x. (x.0 ≡ s) × (x.1.now ≡ more)) }
{
    let (key, span, rest) = first_slot(bytes);
    let slot = Slot {
        key: key.to_key(alloc)?,
        part: span.part,
        first: span.first,
        last: span.last,
    };
    Ok((slot, rest))
}

/// The rows, columns and stamps of the slot that the bytes begin with, which they spell, and what follows the slot. Its key is
/// passed over by its length.
pub(crate) fn pass_slot(bytes: &[u8]) -> (Span, &[u8])
    requires spelled { (s : Slot) × (more : List ℕ) × (bytes.now ≡ slot_text s ++ more) × FitsSlot s }
    ensures { (s : Slot) (more : List ℕ) → bytes.now ≡ slot_text s ++ more → FitsSlot s → (result.0 ≡ span_of s) × (result.1.now ≡ more) }
{
    let name = bytes[1] as usize;
    let (_key, fields) = bytes.split_at(KEY_BYTES + name);
    match read_span(fields) {
        Ok(found) => found,
        Err(_) => unreachable!(),
    }
}

/// Adds the slot that the bytes begin with, moved from the row `from` to the row `to`, and gives what follows. All but its first
/// row is copied as it is.
fn put_moved<'a>(
    out: &mut Vec<u8>,
    from: u64,
    to: u64,
    bytes: &'a [u8],
) -> Result<&'a [u8], NoMemory>
    requires { (s : Slot) × (more : List ℕ) × (bytes.now ≡ slot_text s ++ more) × FitsSlot s × MayMove from to s }
    ensures { (s : Slot) (more : List ℕ) → bytes.now ≡ slot_text s ++ more → FitsSlot s → IfOk result (λ rest. (out.new.items ≡ out.old.items ++ slot_text (shifted from to s)) × (rest.now ≡ more)) }
{
    let (_, span, rest) = first_slot(bytes);
    let (text, _) = bytes.split_at(bytes.len() - rest.len());
    let (key, fields) = text.split_at(text.len() - SPAN_BYTES);
    let (_, others) = fields.split_at(4);
    put_bytes(out, key)?;
    put_u32(out, ((span.part.first_row - from) + to) as u32)?;
    put_bytes(out, others)?;
    Ok(rest)
}
