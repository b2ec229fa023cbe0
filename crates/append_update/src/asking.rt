//! The plan of what is asked, on a walked tip.

ghost use Rattle.std.specs.Prelude.{◌≡◌, ◌≤◌, ◌<◌, ◌+◌, ◌↔◌, Bool, [], Some, None, false, is_some, IsTrue, IfOk, IfErr, IfSome};
ghost use Rattle.std.specs.List.{list_any};
ghost use Rattle.frame_core.specs.Ranges.{IsRange};
ghost use Rattle.frame_core.specs.Schemas.{AreColumns};
ghost use Rattle.frame_core.specs.Limits.{IsStorable};
ghost use Rattle.bucket_core.specs.History.{history_at};
ghost use Rattle.bucket_core.specs.Laws.{Looks};
ghost use Rattle.bucket_core.specs.Calls.{IsSteady};
ghost use Rattle.store_model.specs.Law.{IsClaimed};
ghost use Rattle.version_chain.specs.Marking.{own_refers};
ghost use Rattle.version_chain.specs.Tips.{IsTipAt};
ghost use Rattle.reply_model.specs.CommitAnswers.{append_answer, update_answer, outside};
ghost use Rattle.append_update.specs.Asking.{answer_to, IsWish, IsPlanOf, IsAlone, why_missing, IsMissing, MayStandBehind, HasColumnsOf, FitsBase};
ghost use Rattle.append_update.specs.Looking.{AnyBase, RefusesBase, RefusesPlan};
ghost use Rattle.append_update.specs.Newest.{IsBaseAt};
ghost use Rattle.append_update.specs.Sizes.{text_total, kept_rows};

use crate::base::{Base, base_of, out_of_memory};
use crate::blocks::block_frame;
use crate::cuts::Cuts;
use crate::fitting::small_edges;
use crate::judging::{first_difference, judge_append};
use crate::packed_base::PackedBase;
use crate::planning::{plan_alone, plan_append, plan_update};
use crate::sizes::{TEXT_LIMIT, has_texts, kept_text_bytes, text_bytes, too_many_texts};
use crate::wish::Wish;
use base_types::{Keep, NoMemory};
use bucket_core::{Bucket, Change};
use frame_core::{Asked, Frame, FrameMaker, Range, Refusal, Refused, Schema};
use frame_write::{LinkPlan, Options};
use key_kind::Symbol;
use std::alloc::Global;
use std::sync::Wait;
use version_chain::{ChainTip, StoreLaw};

/// The plan of what is asked on a walked tip, or why there is none. It may wait for the store.
///
/// A refusal of the library has the tip's place. Where a key of the newest live version is gone, another client's commit has buried
/// it since the walk; then the refusal is Moved, with the place of the symbol's newest commit.
pub(crate) fn plan_on<R: Wait, B: Bucket<StoreLaw>>(
    rt: &R,
    alloc: Global,
    bucket: &mut B,
    symbol: &Symbol,
    tip: &ChainTip,
    wish: &Wish<'_>,
    options: &Options,
) -> Result<LinkPlan, Refused>
    requires walked { (at : IsTipAt (B.seen bucket.old) symbol.now options.now.prune tip.now) × (list_any (own_refers (B.number bucket.old) symbol.now) at.later ≡ false) }
    requires wish { IsWish wish.now }
    ensures looks { Looks IsClaimed (B.number bucket.old) (B.sole bucket.old) (B.seen bucket.old) (B.seen bucket.new) }
    ensures steady { IsSteady B.number B.limit B.faults B.sole bucket.old bucket.new }
    ensures plan { IfOk result (IsPlanOf (history_at (B.seen bucket.old) tip.now.place) symbol.now options.now (answer_to wish.now options.now.prune options.now.at)) }
    ensures refused { IfErr result (RefusesPlan (B.number bucket.old) symbol.now (FitsBase wish.now) (answer_to wish.now options.now.prune options.now.at) (history_at (B.seen bucket.old) tip.now.place) (B.faults bucket.old) (B.faults bucket.new) (B.seen bucket.old) (B.seen bucket.new)) }
{
    let base = base_of(rt, alloc, bucket, symbol, tip)?;
    match base {
        Some(base) => plan_over(rt, alloc, bucket, symbol, &base, wish, options),
        None => match plan_without(alloc, wish, stamp_of(options)) {
            Ok(found) => or_missing(tip, found),
            Err(_) => Err(out_of_memory(bucket.place())),
        },
    }
}

/// The plan, or why there is none, on a tip without a live version.
fn or_missing(tip: &ChainTip, found: Option<LinkPlan>) -> Result<LinkPlan, Refused>
    ensures plan { IfOk result (λ plan. found ≡ Some plan) }
    ensures refused { IfErr result (IsMissing tip.now found) }
{
    match found {
        Some(plan) => Ok(plan),
        None => Err(Refused {
            place: tip.place,
            why: missing(tip),
        }),
    }
}

/// Why a symbol has no live version.
fn missing(tip: &ChainTip) -> Refusal
    ensures { result ≡ why_missing (is_some tip.now.was) }
{
    match tip.was {
        Some(_) => Refusal::NoSuchVersion {
            asked: Asked::Back(1),
        },
        None => Refusal::NoSuchSymbol,
    }
}

/// The plan where there is no live version; None where the command wants one.
fn plan_without(alloc: Global, wish: &Wish<'_>, at: i64) -> Result<Option<LinkPlan>, NoMemory>
    ensures { IfOk result (IsAlone wish.now at) }
{
    match *wish {
        Wish::Append(frame) => {
            let change = Change::Appended {
                frame: frame.copy(alloc)?,
                at,
            };
            Ok(Some(plan_alone(alloc, frame, change)?))
        }
        Wish::Replace {
            frame,
            range,
            upsert: true,
        } => {
            let change = Change::Updated {
                frame: frame.copy(alloc)?,
                range,
                at,
            };
            Ok(Some(plan_alone(alloc, frame, change)?))
        }
        _ => Ok(None),
    }
}

/// The plan over the newest live version.
fn plan_over<R: Wait, B: Bucket<StoreLaw>>(
    rt: &R,
    alloc: Global,
    bucket: &mut B,
    symbol: &Symbol,
    base: &PackedBase,
    wish: &Wish<'_>,
    options: &Options,
) -> Result<LinkPlan, Refused>
    requires base { IsBaseAt (B.number bucket.old) (B.seen bucket.old) symbol.now base.now }
    requires wish { IsWish wish.now }
    ensures looks { Looks IsClaimed (B.number bucket.old) (B.sole bucket.old) (B.seen bucket.old) (B.seen bucket.new) }
    ensures steady { IsSteady B.number B.limit B.faults B.sole bucket.old bucket.new }
    ensures plan { (b : IsBaseAt (B.number bucket.old) (B.seen bucket.old) symbol.now base.now) → IfOk result (IsPlanOf b.before symbol.now options.now (answer_to wish.now options.now.prune options.now.at)) }
    ensures refused { (b : IsBaseAt (B.number bucket.old) (B.seen bucket.old) symbol.now base.now) → IfErr result (RefusesPlan (B.number bucket.old) symbol.now (FitsBase wish.now) (answer_to wish.now options.now.prune options.now.at) b.before (B.faults bucket.old) (B.faults bucket.new) (B.seen bucket.old) (B.seen bucket.new)) }
{
    match *wish {
        Wish::Append(frame) => append_over(rt, alloc, bucket, symbol, base, frame, options),
        Wish::Replace {
            frame,
            range,
            upsert: _,
        } => replace_packed(rt, alloc, bucket, symbol, base, frame, range, options),
        Wish::Clear(range) => clear_packed(rt, alloc, bucket, symbol, base, range, options),
    }
}

/// The plan of the frame's rows in place of those of the newest live version in a range, whose index's slots are read first.
fn replace_packed<R: Wait, B: Bucket<StoreLaw>>(
    rt: &R,
    alloc: Global,
    bucket: &mut B,
    symbol: &Symbol,
    base: &PackedBase,
    frame: &Frame,
    range: Range,
    options: &Options,
) -> Result<LinkPlan, Refused>
    requires base { IsBaseAt (B.number bucket.old) (B.seen bucket.old) symbol.now base.now }
    requires storable { IsStorable frame.now }
    requires order { IsRange range }
    requires inside { outside 1 range frame.now.rows ≡ None }
    ensures looks { Looks IsClaimed (B.number bucket.old) (B.sole bucket.old) (B.seen bucket.old) (B.seen bucket.new) }
    ensures steady { IsSteady B.number B.limit B.faults B.sole bucket.old bucket.new }
    ensures plan { (b : IsBaseAt (B.number bucket.old) (B.seen bucket.old) symbol.now base.now) (upsert : Bool) → IfOk result (IsPlanOf b.before symbol.now options.now (λ st. update_answer st upsert options.now.prune options.now.at (Some range) frame.now)) }
    ensures refused { (b : IsBaseAt (B.number bucket.old) (B.seen bucket.old) symbol.now base.now) (upsert : Bool) → IfErr result (RefusesPlan (B.number bucket.old) symbol.now (HasColumnsOf frame.now) (λ st. update_answer st upsert options.now.prune options.now.at (Some range) frame.now) b.before (B.faults bucket.old) (B.faults bucket.new) (B.seen bucket.old) (B.seen bucket.new)) }
{
    match base.unpacked(alloc) {
        Ok(base) => replace_over(rt, alloc, bucket, symbol, &base, frame, range, options),
        Err(_) => Err(out_of_memory(bucket.place())),
    }
}

/// The plan of no rows in place of those of the newest live version in a range, whose index's slots are read first.
fn clear_packed<R: Wait, B: Bucket<StoreLaw>>(
    rt: &R,
    alloc: Global,
    bucket: &mut B,
    symbol: &Symbol,
    base: &PackedBase,
    range: Range,
    options: &Options,
) -> Result<LinkPlan, Refused>
    requires base { IsBaseAt (B.number bucket.old) (B.seen bucket.old) symbol.now base.now }
    requires order { IsRange range }
    ensures looks { Looks IsClaimed (B.number bucket.old) (B.sole bucket.old) (B.seen bucket.old) (B.seen bucket.new) }
    ensures steady { IsSteady B.number B.limit B.faults B.sole bucket.old bucket.new }
    ensures plan { (b : IsBaseAt (B.number bucket.old) (B.seen bucket.old) symbol.now base.now) → IfOk result (IsPlanOf b.before symbol.now options.now (λ st. update_answer st false options.now.prune options.now.at (Some range) (record b.version.frame { rows = [] }))) }
    ensures refused { (b : IsBaseAt (B.number bucket.old) (B.seen bucket.old) symbol.now base.now) → IfErr result (RefusesPlan (B.number bucket.old) symbol.now AnyBase (λ st. update_answer st false options.now.prune options.now.at (Some range) (record b.version.frame { rows = [] })) b.before (B.faults bucket.old) (B.faults bucket.new) (B.seen bucket.old) (B.seen bucket.new)) }
{
    match base.unpacked(alloc) {
        Ok(base) => clear_over(rt, alloc, bucket, symbol, &base, range, options),
        Err(_) => Err(out_of_memory(bucket.place())),
    }
}

/// The plan of the frame's rows behind those of the newest live version.
fn append_over<R: Wait, B: Bucket<StoreLaw>>(
    rt: &R,
    alloc: Global,
    bucket: &mut B,
    symbol: &Symbol,
    base: &PackedBase,
    frame: &Frame,
    options: &Options,
) -> Result<LinkPlan, Refused>
    requires base { IsBaseAt (B.number bucket.old) (B.seen bucket.old) symbol.now base.now }
    requires storable { IsStorable frame.now }
    ensures looks { Looks IsClaimed (B.number bucket.old) (B.sole bucket.old) (B.seen bucket.old) (B.seen bucket.new) }
    ensures steady { IsSteady B.number B.limit B.faults B.sole bucket.old bucket.new }
    ensures plan { (b : IsBaseAt (B.number bucket.old) (B.seen bucket.old) symbol.now base.now) → IfOk result (IsPlanOf b.before symbol.now options.now (λ st. append_answer st options.now.prune options.now.at frame.now)) }
    ensures refused { (b : IsBaseAt (B.number bucket.old) (B.seen bucket.old) symbol.now base.now) → IfErr result (RefusesPlan (B.number bucket.old) symbol.now (MayStandBehind frame.now) (λ st. append_answer st options.now.prune options.now.at frame.now) b.before (B.faults bucket.old) (B.faults bucket.new) (B.seen bucket.old) (B.seen bucket.new)) }
{
    let place = base.place();
    match judge_append(base.index(), frame) {
        Ok(()) => {}
        Err(why) => return Err(Refused { place, why }),
    }
    let exceeds = append_exceeds(rt, alloc, bucket, symbol, base, frame)?;
    if exceeds {
        return Err(Refused {
            place,
            why: too_many_texts(),
        });
    }
    match plan_append(alloc, base.index(), frame, stamp_of(options)) {
        Ok(plan) => Ok(plan),
        Err(_) => Err(out_of_memory(bucket.place())),
    }
}

/// The plan of no rows in place of those of the newest live version in a range.
fn clear_over<R: Wait, B: Bucket<StoreLaw>>(
    rt: &R,
    alloc: Global,
    bucket: &mut B,
    symbol: &Symbol,
    base: &Base,
    range: Range,
    options: &Options,
) -> Result<LinkPlan, Refused>
    requires base { IsBaseAt (B.number bucket.old) (B.seen bucket.old) symbol.now base.now }
    requires order { IsRange range }
    ensures looks { Looks IsClaimed (B.number bucket.old) (B.sole bucket.old) (B.seen bucket.old) (B.seen bucket.new) }
    ensures steady { IsSteady B.number B.limit B.faults B.sole bucket.old bucket.new }
    ensures plan { (b : IsBaseAt (B.number bucket.old) (B.seen bucket.old) symbol.now base.now) → IfOk result (IsPlanOf b.before symbol.now options.now (λ st. update_answer st false options.now.prune options.now.at (Some range) (record b.version.frame { rows = [] }))) }
    ensures refused { (b : IsBaseAt (B.number bucket.old) (B.seen bucket.old) symbol.now base.now) → IfErr result (RefusesPlan (B.number bucket.old) symbol.now AnyBase (λ st. update_answer st false options.now.prune options.now.at (Some range) (record b.version.frame { rows = [] })) b.before (B.faults bucket.old) (B.faults bucket.new) (B.seen bucket.old) (B.seen bucket.new)) }
{
    match no_rows(alloc, &base.index.schema) {
        Ok(frame) => replace_over(rt, alloc, bucket, symbol, base, &frame, range, options),
        Err(_) => Err(out_of_memory(bucket.place())),
    }
}

/// The frame of these columns without rows.
fn no_rows(alloc: Global, schema: &Schema) -> Result<Frame, NoMemory>
    requires columns { AreColumns schema.now.columns }
    ensures { IfOk result (λ made. made ≡ record { schema = schema.now; rows = [] }) }
{
    Ok(FrameMaker::make(alloc, schema)?.done())
}

/// The plan of the frame's rows in place of those of the newest live version in a range.
fn replace_over<R: Wait, B: Bucket<StoreLaw>>(
    rt: &R,
    alloc: Global,
    bucket: &mut B,
    symbol: &Symbol,
    base: &Base,
    frame: &Frame,
    range: Range,
    options: &Options,
) -> Result<LinkPlan, Refused>
    requires base { IsBaseAt (B.number bucket.old) (B.seen bucket.old) symbol.now base.now }
    requires storable { IsStorable frame.now }
    requires order { IsRange range }
    requires inside { outside 1 range frame.now.rows ≡ None }
    ensures looks { Looks IsClaimed (B.number bucket.old) (B.sole bucket.old) (B.seen bucket.old) (B.seen bucket.new) }
    ensures steady { IsSteady B.number B.limit B.faults B.sole bucket.old bucket.new }
    ensures plan { (b : IsBaseAt (B.number bucket.old) (B.seen bucket.old) symbol.now base.now) (upsert : Bool) → IfOk result (IsPlanOf b.before symbol.now options.now (λ st. update_answer st upsert options.now.prune options.now.at (Some range) frame.now)) }
    ensures refused { (b : IsBaseAt (B.number bucket.old) (B.seen bucket.old) symbol.now base.now) (upsert : Bool) → IfErr result (RefusesPlan (B.number bucket.old) symbol.now (HasColumnsOf frame.now) (λ st. update_answer st upsert options.now.prune options.now.at (Some range) frame.now) b.before (B.faults bucket.old) (B.faults bucket.new) (B.seen bucket.old) (B.seen bucket.new)) }
{
    let place = base.target.place;
    if let Some(column) = first_difference(&base.index.schema, frame.schema()) {
        let why = Refusal::SchemaDiffers { column };
        return Err(Refused { place, why });
    }
    let cuts = Cuts::of(base.index.slots.items(), range);
    let edges = match small_edges(rt, alloc, bucket, symbol, base, frame, range, cuts) {
        Ok(edges) => edges,
        Err(refused) => return Err(refused),
    };
    let at = stamp_of(options);
    match plan_update(alloc, &base.index, cuts, edges, frame, range, at) {
        Ok(plan) => Ok(plan),
        Err(_) => Err(out_of_memory(bucket.place())),
    }
}

/// The stamp of the new version.
fn stamp_of(options: &Options) -> i64
    ensures { result ≡ options.now.at }
{
    options.at
}

/// Whether the texts of a frame and of the base have too many bytes. The slots of the base's index are read only where it has a
/// column of text and the frame has rows. It may wait for the store.
fn append_exceeds<R: Wait, B: Bucket<StoreLaw>>(
    rt: &R,
    alloc: Global,
    bucket: &mut B,
    symbol: &Symbol,
    base: &PackedBase,
    frame: &Frame,
) -> Result<bool, Refused>
    requires base { IsBaseAt (B.number bucket.old) (B.seen bucket.old) symbol.now base.now }
    requires storable { IsStorable frame.now }
    ensures looks { Looks IsClaimed (B.number bucket.old) (B.sole bucket.old) (B.seen bucket.old) (B.seen bucket.new) }
    ensures steady { IsSteady B.number B.limit B.faults B.sole bucket.old bucket.new }
    ensures exceeds { (b : IsBaseAt (B.number bucket.old) (B.seen bucket.old) symbol.now base.now) → IfOk result (λ exceeds. IsTrue exceeds ↔ (67108864 < text_total (kept_rows None b.version.frame.rows) + text_total frame.now.rows)) }
    ensures refused { IfErr result (RefusesBase (B.number bucket.old) symbol.now AnyBase base.now.target.place (B.faults bucket.old) (B.faults bucket.new) (B.seen bucket.old) (B.seen bucket.new)) }
{
    if frame.rows() == 0 || !has_texts(base.index().schema().columns()) {
        return Ok(false);
    }
    match base.unpacked(alloc) {
        Ok(base) => exceeds_texts(rt, alloc, bucket, symbol, &base, frame, None),
        Err(_) => Err(out_of_memory(bucket.place())),
    }
}

/// Whether the texts of a frame, and of those rows of the base that lie outside a range, or of all, have too many bytes.
///
/// The base's tiles are got only where there are texts and the frame has rows. It may wait for the store.
pub(crate) fn exceeds_texts<R: Wait, B: Bucket<StoreLaw>>(
    rt: &R,
    alloc: Global,
    bucket: &mut B,
    symbol: &Symbol,
    base: &Base,
    frame: &Frame,
    range: Option<Range>,
) -> Result<bool, Refused>
    requires base { IsBaseAt (B.number bucket.old) (B.seen bucket.old) symbol.now base.now }
    requires storable { IsStorable frame.now }
    requires range { IfSome range IsRange }
    ensures looks { Looks IsClaimed (B.number bucket.old) (B.sole bucket.old) (B.seen bucket.old) (B.seen bucket.new) }
    ensures steady { IsSteady B.number B.limit B.faults B.sole bucket.old bucket.new }
    ensures exceeds { (b : IsBaseAt (B.number bucket.old) (B.seen bucket.old) symbol.now base.now) → IfOk result (λ exceeds. IsTrue exceeds ↔ (67108864 < text_total (kept_rows range b.version.frame.rows) + text_total frame.now.rows)) }
    ensures refused { IfErr result (RefusesBase (B.number bucket.old) symbol.now AnyBase base.now.target.place (B.faults bucket.old) (B.faults bucket.new) (B.seen bucket.old) (B.seen bucket.new)) }
{
    if frame.rows() == 0 || !has_texts(base.index.schema.columns()) {
        return Ok(false);
    }
    let kept = base_text_bytes(rt, alloc, bucket, symbol, base, range)?;
    Ok(kept + text_bytes(frame) > TEXT_LIMIT)
}

/// The bytes of all texts of those rows of the base that lie outside a range, or of all. It may wait for the store.
fn base_text_bytes<R: Wait, B: Bucket<StoreLaw>>(
    rt: &R,
    alloc: Global,
    bucket: &mut B,
    symbol: &Symbol,
    base: &Base,
    range: Option<Range>,
) -> Result<u64, Refused>
    requires base { IsBaseAt (B.number bucket.old) (B.seen bucket.old) symbol.now base.now }
    ensures looks { Looks IsClaimed (B.number bucket.old) (B.sole bucket.old) (B.seen bucket.old) (B.seen bucket.new) }
    ensures steady { IsSteady B.number B.limit B.faults B.sole bucket.old bucket.new }
    ensures bytes { (b : IsBaseAt (B.number bucket.old) (B.seen bucket.old) symbol.now base.now) → IfOk result (λ bytes. bytes ≡ text_total (kept_rows range b.version.frame.rows)) }
    ensures most { IfOk result (λ bytes. bytes ≤ 134217728) }
    ensures refused { IfErr result (RefusesBase (B.number bucket.old) symbol.now AnyBase base.now.target.place (B.faults bucket.old) (B.faults bucket.new) (B.seen bucket.old) (B.seen bucket.new)) }
{
    let slots = base.index.slots.len();
    let whole = block_frame(rt, alloc, bucket, symbol, base, 0, slots)?;
    match kept_text_bytes(alloc, &whole, range) {
        Ok(bytes) => Ok(bytes),
        Err(_) => Err(out_of_memory(bucket.place())),
    }
}
