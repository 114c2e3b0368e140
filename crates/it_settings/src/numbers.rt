//! The values of options.
ghost use Rattle.std.specs.Prelude.{◌≡◌, ◌≤◌, ◌<◌, ◌+◌, ◌*◌, ◌-◌, ◌&&◌, if◌then◌else◌, nat_le, None, Some, option_map, IfSome, length};
ghost use Rattle.it_number.specs.Decimals.{value_from};
ghost use Rattle.it_settings.specs.Settings.{number_of, pivots_of, names_of, format_of, run_of, AreNamesInRange};
ghost use Rattle.std.specs.Option.{option_map_or};
ghost use Rattle.it_settings.specs.declared.types.Format.TheVariants as formats;
ghost use Rattle.it_settings.specs.declared.types.Run.TheVariants as runs;

use crate::types::{Format, Run};

/// The value of decimal digits; `None` if a byte isn't a digit.
fn value(bytes: &[u8]) -> Option<u64>
    requires few { length bytes.now ≤ 10 }
    ensures { result ≡ value_from 0 bytes.now }
{
    let mut n: u64 = 0;
    for d in bytes {
        if !d.is_ascii_digit() {
            return None;
        }
        n = 10 * n + (*d - b'0') as u64;
    }
    Some(n)
}

/// `n`, if it is from `least` to `most`.
fn number_within(least: u32, most: u32, n: u64) -> Option<u32>
    ensures reads { result ≡ (if nat_le least n && nat_le n most then Some n else None) }
    ensures range { IfSome result (λ m. (least ≤ m) × (m ≤ most)) }
{
    if least as u64 <= n && n <= most as u64 {
        Some(n as u32)
    } else {
        None
    }
}

/// The number that `text` spells in one to ten digits, if it is from `least` to `most`.
#[tactic(auto, unfolding(crate::specs::Settings::number_of))]
fn number(text: &str, least: u32, most: u32) -> Option<u32>
    ensures reads { result ≡ number_of least most text.now }
    ensures range { IfSome result (λ n. (least ≤ n) × (n ≤ most)) }
{
    let bytes = text.as_bytes();
    if bytes.len() >= 1 && bytes.len() <= 10 {
        number_within(least, most, value(bytes)?)
    } else {
        None
    }
}

/// The number that `text` spells, if it is from `least` to `most`; `default` where no text was given.
pub fn number_or(text: Option<&str>, least: u32, most: u32, default: u32) -> Option<u32>
    requires default { (least ≤ default) × (default ≤ most) }
    ensures reads { result ≡ option_map_or (number_of least most) (option_map (λ s. s.now) text.entry) (Some default) }
    ensures range { IfSome result (λ n. (least ≤ n) × (n ≤ most)) }
{
    match text {
        Some(text) => number(text, least, most),
        None => Some(default),
    }
}

/// The value of `--rows`, the most rows; 512 where none was given.
pub fn rows_or(text: Option<&str>) -> Option<u32>
    ensures reads { result ≡ option_map_or (number_of 1 4096) (option_map (λ s. s.now) text.entry) (Some 512) }
    ensures range { IfSome result (λ n. (1 ≤ n) × (n ≤ 4096)) }
{
    number_or(text, 1, 4096, 512)
}

/// The value of `--tries`, the most candidates; 256 where none was given.
pub fn tries_or(text: Option<&str>) -> Option<u32>
    ensures reads { result ≡ option_map_or (number_of 1 4096) (option_map (λ s. s.now) text.entry) (Some 256) }
    ensures range { IfSome result (λ n. (1 ≤ n) × (n ≤ 4096)) }
{
    number_or(text, 1, 4096, 256)
}

/// The budget of steps that `text` spells: a number from 1 to 1,000,000, or the word `none` for no budget.
#[tactic(auto, unfolding(crate::specs::Settings::pivots_of))]
fn pivots(text: &str) -> Option<Option<u32>>
    ensures { result ≡ pivots_of text.now }
{
    match text {
        "none" => Some(None),
        _ => Some(Some(number(text, 1, 1000000)?)),
    }
}

/// The value of `--pivots`, the budget of steps; 20,000 where none was given.
pub fn pivots_or(text: Option<&str>) -> Option<Option<u32>>
    ensures { result ≡ option_map_or pivots_of (option_map (λ s. s.now) text.entry) (Some (Some 20000)) }
{
    match text {
        Some(text) => pivots(text),
        None => Some(Some(20000)),
    }
}

/// The number of names that `text` spells, from 10 to 16.
fn names(text: &str) -> Option<Option<u8>>
    ensures reads { result ≡ names_of text.now }
    ensures range { IfSome result AreNamesInRange }
{
    let number = number(text, 10, 16)?;
    Some(Some(number as u8))
}

/// The value of `--names`, the most names of a question; none where none was given.
pub fn names_or(text: Option<&str>) -> Option<Option<u8>>
    ensures reads { result ≡ option_map_or names_of (option_map (λ s. s.now) text.entry) (Some None) }
    ensures range { IfSome result AreNamesInRange }
{
    match text {
        Some(text) => names(text),
        None => Some(None),
    }
}

/// The format with the name `text`.
#[tactic(auto, unfolding(crate::specs::Settings::format_of))]
fn format(text: &str) -> Option<Format>
    ensures { result ≡ format_of text.now }
{
    match text {
        "text" => Some(Format::Text),
        "json" => Some(Format::Json),
        "proof" => Some(Format::Proof),
        "derived" => Some(Format::Derived),
        _ => None,
    }
}

/// The value of `--format`; text where none was given.
pub fn format_or(text: Option<&str>) -> Option<Format>
    ensures { result ≡ option_map_or format_of (option_map (λ s. s.now) text.entry) (Some formats.Text) }
{
    match text {
        Some(text) => format(text),
        None => Some(Format::Text),
    }
}

/// The run with the name `text`.
#[tactic(auto, unfolding(crate::specs::Settings::run_of))]
fn run(text: &str) -> Option<Run>
    ensures { result ≡ run_of text.now }
{
    match text {
        "bland" => Some(Run::Bland),
        "quick" => Some(Run::Quick),
        _ => None,
    }
}

/// The value of `--run`; the defined run, by Bland's rule, where none was given.
pub fn run_or(text: Option<&str>) -> Option<Run>
    ensures { result ≡ option_map_or run_of (option_map (λ s. s.now) text.entry) (Some runs.Bland) }
{
    match text {
        Some(text) => run(text),
        None => Some(Run::Bland),
    }
}
