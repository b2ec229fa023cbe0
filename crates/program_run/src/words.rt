ghost use Rattle.std.specs.Prelude.{◌≡◌, ◌≤◌, map, string_bytes, option_map, IfSome, IsSome};
ghost use Rattle.script_lang.specs.Fronts.{whole, digits_at};
ghost use Rattle.program_run.specs.CommandLine.{is_file, number_within, value_given, is_option, are_options, number_or, rows_option, cols_option, tries_option, plain_words_of, first_set, IsTries};
ghost use Rattle.program_run.specs.Preparing.{said};

use script_lang::digits_of;
use segment_cut::Cutting;

/// How a run goes about its commands: how frames are cut, and how often a commit is tried.
#[derive(Clone, Copy)]
pub struct Options {
    pub cutting: Cutting,
    pub tries: u32,
}

/// Whether a word names a file: it is not empty and does not begin with `-`.
fn is_file(word: &str) -> bool
    ensures { result ≡ is_file word.now }
{
    !word.is_empty() && !word.as_bytes().starts_with(b"-")
}

/// The number of 1 to 7 digits.
fn digits_number(word: &str) -> Option<u64>
    ensures { result ≡ whole (digits_at 7) word.now }
{
    if word.len() > 7 {
        return None;
    }
    let (number, rest) = digits_of(word.as_bytes())?;
    if rest.is_empty() { Some(number) } else { None }
}

/// The number of 1 to 7 digits, where it lies within limits.
#[tactic(auto, unfolding(crate::specs::CommandLine::number_within))]
fn number_within(low: u32, high: u32, word: &str) -> Option<u32>
    ensures number { result ≡ number_within low high word.now }
    ensures low { IfSome result (λ number. low ≤ number) }
    ensures high { IfSome result (λ number. number ≤ high) }
{
    let number = digits_number(word)?;
    if low as u64 <= number && number <= high as u64 {
        Some(number as u32)
    } else {
        None
    }
}

/// The value that is given to the option of a name. Options are two words each.
fn value_given<'a>(options: &'a [String], name: &str) -> Option<&'a str>
    ensures { option_map (λ value. value.now) result ≡ value_given name.now (map string_bytes options.now) }
{
    match options {
        [option, value, more @ ..] => {
            if name == option.as_str() {
                Some(value.as_str())
            } else {
                value_given(more, name)
            }
        }
        _ => None,
    }
}

/// Whether an option of this name may have this value.
fn is_option(name: &str, value: &str) -> bool
    ensures { result ≡ is_option first_set name.now value.now }
{
    match name {
        "--rows" => number_within(1, 100_000, value).is_some(),
        "--cols" => number_within(1, 127, value).is_some(),
        "--tries" => number_within(1, 1_000, value).is_some(),
        _ => false,
    }
}

/// Whether these are options of two words each, no two of one name.
fn are_options(options: &[String]) -> bool
    ensures { result ≡ are_options first_set (map string_bytes options.now) }
{
    match options {
        [] => true,
        [name, value, more @ ..] => {
            if !is_option(name.as_str(), value.as_str()) {
                return false;
            }
            if value_given(more, name.as_str()).is_some() {
                return false;
            }
            are_options(more)
        }
        _ => false,
    }
}

/// The number within limits that is given to an option, or else the default.
fn number_or(default: u32, name: &str, low: u32, high: u32, options: &[String]) -> u32
    requires low { low ≤ default }
    requires high { default ≤ high }
    ensures number { result ≡ number_or default (name.now, record { low = low; high = high }) (map string_bytes options.now) }
    ensures low { low ≤ result }
    ensures high { result ≤ high }
{
    let Some(value) = value_given(options, name) else {
        return default;
    };
    match number_within(low, high, value) {
        Some(number) => number,
        None => default,
    }
}

/// The options that are given, with a default for each other one.
fn options_of(options: &[String]) -> Option<Options>
    ensures some { IfSome result (λ made. (made.cutting.rows ≡ number_or 100000 rows_option (map string_bytes options.now)) × (made.cutting.cols ≡ number_or 127 cols_option (map string_bytes options.now)) × (made.tries ≡ number_or 8 tries_option (map string_bytes options.now))) }
    ensures tries { IfSome result (λ made. IsTries made.tries) }
    ensures made { IsSome result }
{
    let cutting = Cutting::make(
        number_or(100_000, "--rows", 1, 100_000, options),
        number_or(127, "--cols", 1, 127, options),
    )?;
    let tries = number_or(8, "--tries", 1, 1_000, options);
    Some(Options { cutting, tries })
}

/// What the words say: the script's name and the options, where the words are those of the command set.
pub fn read_words(words: &[String]) -> Option<(&str, Options)>
    ensures words { option_map (λ x. said x.0.now x.1) result ≡ plain_words_of first_set (map string_bytes words.now) }
    ensures tries { IfSome result (λ x. IsTries x.1.tries) }
{
    match words {
        [verb, script, options @ ..] => {
            if verb.as_str() == "run" && is_file(script.as_str()) && are_options(options) {
                Some((script.as_str(), options_of(options)?))
            } else {
                None
            }
        }
        _ => None,
    }
}
