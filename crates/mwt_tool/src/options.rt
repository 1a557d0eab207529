// The values of the words.
ghost use Rattle.std.specs.Prelude.{◌≡◌, ◌≤◌, IfSome, codes, option_map};
ghost use Rattle.std.specs.Str.{bytes_eq};
ghost use Rattle.clap.specs.Walk.{first_of};
ghost use Rattle.clap.specs.Words.{found_of, rows_of};
ghost use Rattle.mwt_tool.specs.Words.{CanMake, CanSolve, diamond_in, making_in, number_in, number_within, settings_in};

use crate::solver::Settings;
use crate::words::Making;
use clap::ArgMatches;
use exact_predicates::Diamond;

/// How to solve.
pub fn settings_in(matches: &ArgMatches) -> Option<Settings>
    ensures is { result ≡ settings_in (rows_of (found_of matches.now)) }
    ensures ranged { IfSome result CanSolve }
{
    let workers = number_in(matches, "workers", 1, 64)?;
    let diamond = diamond_in(matches)?;
    let sweeps = number_in(matches, "sweeps", 0, 1000)?;
    Some(Settings {
        workers,
        diamond,
        sweeps,
    })
}

/// Which file to make.
pub fn making_in(matches: &ArgMatches) -> Option<Making>
    ensures is { result ≡ making_in (rows_of (found_of matches.now)) }
    ensures ranged { IfSome result CanMake }
{
    let seed = number_in(matches, "seed", 1, u32::MAX)?;
    let points = number_in(matches, "points", 3, 10_000)?;
    Some(Making { seed, points })
}

fn diamond_in(matches: &ArgMatches) -> Option<Diamond>
    ensures { result ≡ diamond_in (rows_of (found_of matches.now)) }
{
    let word = value(matches, "diamond")?;
    if is(word, "on") {
        Some(Diamond::On)
    } else if is(word, "off") {
        Some(Diamond::Off)
    } else {
        None
    }
}

// The number of an option.
fn number_in(matches: &ArgMatches, name: &str, least: u32, most: u32) -> Option<u32>
    ensures is { result ≡ number_in (rows_of (found_of matches.now)) name.now least most }
    ensures least { IfSome result (λ n. least ≤ n) }
    ensures most { IfSome result (λ n. n ≤ most) }
{
    number_within(value(matches, name)?, least, most)
}

// The number that a text of digits writes, where it is in the range.
fn number_within(text: &str, least: u32, most: u32) -> Option<u32>
    ensures is { result ≡ number_within least most text.now }
    ensures least { IfSome result (λ n. least ≤ n) }
    ensures most { IfSome result (λ n. n ≤ most) }
{
    if text.starts_with('+') {
        return None;
    }
    let n: u32 = text.parse().ok()?;
    if least <= n && n <= most {
        Some(n)
    } else {
        None
    }
}

/// The value of the mode or an option.
pub fn value<'a>(matches: &ArgMatches<'a>, name: &str) -> Option<&'a str>
    ensures { option_map (λ s. s.now) result ≡ first_of name.now (rows_of (found_of matches.now)) }
{
    matches.get_str(name)
}

/// Whether a word is this text.
pub fn is(word: &str, text: &str) -> bool
    ensures { result ≡ bytes_eq word.now text.now }
{
    word == text
}
