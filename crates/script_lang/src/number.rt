ghost use Rattle.std.specs.Prelude.{◌≡◌, ◌<◌, ◌≤◌, ◌^◌, IfSome, None, length};
ghost use Rattle.std.specs.Char.{is_ascii_digit};
ghost use Rattle.script_lang.specs.Fronts.{value_of, digits_of, digits_at, whole_number_at};
ghost use Rattle.script_lang.specs.Answers.{Reads};

/// A whole number has so many digits at most.
const MOST_DIGITS: usize = 18;

fn is_digit(byte: u8) -> bool
    ensures { result ≡ is_ascii_digit byte }
{
    matches!(byte, b'0'..=b'9')
}

/// The number of the digits at the front, and how many they are; none if they are more than 18.
fn count_digits(bytes: &[u8]) -> Option<(u64, usize)>
    ensures value { IfSome result (λ x. x.0 ≡ value_of (digits_of bytes.now)) }
    ensures small { IfSome result (λ x. x.0 < 10 ^ 18) }
    ensures count { IfSome result (λ x. x.1 ≡ length (digits_of bytes.now)) }
    ensures few { IfSome result (λ x. x.1 ≤ 18) }
    ensures many { result ≡ None → 18 < length (digits_of bytes.now) }
{
    let mut value = 0u64;
    for (place, byte) in bytes.iter().enumerate() {
        if !is_digit(*byte) {
            return Some((value, place));
        }
        if place == MOST_DIGITS {
            return None;
        }
        value = value * 10 + (*byte - b'0') as u64;
    }
    Some((value, bytes.len()))
}

/// The number of all digits at the front, and how many they are; none if it is above 64 bits.
pub fn count_all(bytes: &[u8]) -> Option<(u64, usize)>
    ensures value { IfSome result (λ x. x.0 ≡ value_of (digits_of bytes.now)) }
    ensures count { IfSome result (λ x. x.1 ≡ length (digits_of bytes.now)) }
    ensures large { result ≡ None → 2 ^ 64 ≤ value_of (digits_of bytes.now) }
{
    let mut value = 0u64;
    for (place, byte) in bytes.iter().enumerate() {
        if !is_digit(*byte) {
            return Some((value, place));
        }
        let Some(tens) = value.checked_mul(10) else {
            return None;
        };
        let Some(next) = tens.checked_add((*byte - b'0') as u64) else {
            return None;
        };
        value = next;
    }
    Some((value, bytes.len()))
}

/// The number of the digits at the front, which are 1 to 18, and what stands behind them.
#[tactic(auto, unfolding(crate::specs::Fronts::digits_at))]
pub fn digits_of(bytes: &[u8]) -> Option<(u64, &[u8])>
    ensures reads { Reads (λ x. (x.0, x.1.now)) result (digits_at 18 bytes.now) }
    ensures small { IfSome result (λ x. x.0 < 10 ^ 18) }
{
    let (value, count) = count_digits(bytes)?;
    if count == 0 {
        None
    } else {
        Some((value, &bytes[count..]))
    }
}

/// The whole number at the front, and what stands behind it.
#[tactic(auto, unfolding(crate::specs::Fronts::whole_number_at))]
pub fn number_of(bytes: &[u8]) -> Option<(i64, &[u8])>
    ensures { Reads (λ x. (x.0, x.1.now)) result (whole_number_at bytes.now) }
{
    match bytes {
        [] => None,
        [first, rest @ ..] => {
            if *first == b'-' {
                let (value, after) = digits_of(rest)?;
                Some((-(value as i64), after))
            } else {
                let (value, after) = digits_of(bytes)?;
                Some((value as i64, after))
            }
        }
    }
}
