ghost use Rattle.std.specs.Prelude.{◌≡◌, option_map};
ghost use Rattle.script_lang.specs.Fronts.{where_true, sign_at};
ghost use Rattle.script_lang.specs.Moments.{is_i64, signed, signed_at, int_at, moment_of, version_of, back_of, as_of_of, end_at, is_range, range_at, range_of};
ghost use Rattle.script_lang.specs.Answers.{Reads};

use crate::number::{count_all, digits_of};
use expr_clause::AsOf;
use frame_core::Range;

/// What stands behind these bytes, if the text begins with them.
pub fn sign_at<'a>(sign: &[u8], text: &'a [u8]) -> Option<&'a [u8]>
    ensures { Reads (λ rest. rest.now) result (sign_at sign.now text.now) }
{
    text.strip_prefix(sign)
}

/// The number, or the negative one, if it has 64 bits with its sign.
fn signed(negative: bool, value: u64) -> Option<i64>
    ensures { result ≡ where_true (is_i64 (signed negative value)) (signed negative value) }
{
    if negative {
        0i64.checked_sub_unsigned(value)
    } else {
        0i64.checked_add_unsigned(value)
    }
}

/// The number of all digits at the front with its sign, and what stands behind them.
#[tactic(auto, unfolding(crate::specs::Moments::signed_at))]
fn signed_of(negative: bool, bytes: &[u8]) -> Option<(i64, &[u8])>
    ensures { Reads (λ x. (x.0, x.1.now)) result (signed_at negative bytes.now) }
{
    let (value, count) = count_all(bytes)?;
    if count == 0 {
        return None;
    }
    let number = signed(negative, value)?;
    Some((number, &bytes[count..]))
}

/// The whole number at the front, and what stands behind it.
#[tactic(auto, unfolding(crate::specs::Moments::int_at))]
fn int_of(bytes: &[u8]) -> Option<(i64, &[u8])>
    ensures { Reads (λ x. (x.0, x.1.now)) result (int_at bytes.now) }
{
    match bytes {
        [] => None,
        [first, rest @ ..] => {
            if *first == b'-' {
                signed_of(true, rest)
            } else {
                signed_of(false, bytes)
            }
        }
    }
}

/// A word as a moment, in nanoseconds since 1970.
pub fn moment_of(word: &[u8]) -> Option<i64>
    ensures { result ≡ moment_of word.now }
{
    let (moment, rest) = int_of(word)?;
    if rest.is_empty() { Some(moment) } else { None }
}

/// A word as the number of a version.
pub fn version_of(word: &[u8]) -> Option<u64>
    ensures { result ≡ version_of word.now }
{
    let (version, rest) = digits_of(word)?;
    if rest.is_empty() { Some(version) } else { None }
}

fn back_of(word: &[u8]) -> Option<AsOf>
    ensures { result ≡ back_of word.now }
{
    let back = version_of(word)?;
    if back == 0 {
        None
    } else {
        Some(AsOf::Back(back))
    }
}

/// Which version a read takes, by a word: `N`, `-N` or `time:M`.
pub fn as_of_of(word: &[u8]) -> Option<AsOf>
    ensures { result ≡ as_of_of word.now }
{
    if let Some(number) = version_of(word) {
        return Some(AsOf::Number(number));
    }
    if let Some(back) = sign_at(b"-".as_slice(), word) {
        return back_of(back);
    }
    let time = sign_at(b"time:".as_slice(), word)?;
    Some(AsOf::Moment(moment_of(time)?))
}

/// The end of a range at the front, if there is one, and what stands behind it.
fn end_of(bytes: &[u8]) -> (Option<i64>, &[u8])
    ensures { (result.0, result.1.now) ≡ end_at bytes.now }
{
    match int_of(bytes) {
        Some((moment, rest)) => (Some(moment), rest),
        None => (None, bytes),
    }
}

/// The range of these ends, of which one is there and the first is at most the second.
fn range_between(from: Option<i64>, to: Option<i64>) -> Option<Range>
    ensures { result ≡ where_true (is_range from to) (record { from = from; to = to }) }
{
    match (from, to) {
        (None, None) => None,
        _ => Range::make(from, to),
    }
}

/// A word as a range of stamps.
pub fn range_of(word: &[u8]) -> Option<Range>
    ensures { result ≡ range_of word.now }
{
    let (from, rest) = end_of(word);
    let rest = sign_at(b"..".as_slice(), rest)?;
    let (to, rest) = end_of(rest);
    if !rest.is_empty() {
        return None;
    }
    range_between(from, to)
}
