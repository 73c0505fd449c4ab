//! The words of one command, read by `clap`.
ghost use Rattle.std.specs.Prelude.{◌≡◌, ◌≤◌, IfOk, IfSome, None, map, option_map, drop, codes};
ghost use Rattle.std.specs.Prelude.{false};
ghost use Rattle.std.specs.Str.{IsUtf8};
ghost use Rattle.clap.specs.Words.{FailsBy, fault_of, found_of, matches_of, rows_of};
ghost use Rattle.command_line.specs.App.{app_with};
ghost use Rattle.command_line.specs.Arguments.{arguments, is_named};
ghost use Rattle.command_line.specs.Matches.{AreTexts, ReadsWords, texts_of};
ghost use Rattle.command_line.specs.Numbers.{number_given, only_text};

use crate::number::number_of;
use clap::error::ErrorKind;
use clap::{Arg, ArgAction, ArgMatches, Command, Error};
use std::alloc::{AllocError, Global};

/// What `clap` makes of the words after the first, for options of these names. IMAGE and each
/// option may come any number of times, and none has to: the counts are tested by the caller.
fn matches_with<'a>(
    alloc: Global,
    names: &'a [&'a str],
    words: &'a [&'a str],
) -> Result<ArgMatches<'a>, Error>
    ensures kinds { FailsBy (fault_of (app_with (map (λ n. n.now) names.entry.now))
        (map (λ s. s.now) words.entry.now)) result }
    ensures matches { IfOk result (λ m. rows_of (found_of m)
        ≡ matches_of (app_with (map (λ n. n.now) names.entry.now))
        (map (λ s. s.now) words.entry.now)) }
{
    let image = Arg::new(alloc, "IMAGE").action(ArgAction::Append);
    let mut command = Command::new(alloc, "command")
        .disable_help_flag(true)
        .arg(image)?;
    for name in names {
        let option = Arg::new(alloc, name).long(name).action(ArgAction::Append);
        command = command.arg(option)?;
    }
    command.try_get_matches_from(words)
}

/// A `&str` is text.
fn is_text(word: &str)
    ensures { IsUtf8 word.now }
{
    let _ = word;
}

/// Each of the words is text, which holds of a `&str` but is not told of those in a slice.
fn are_texts(words: &[&str])
    ensures { AreTexts (map (λ s. s.now) words.now) }
{
    for word in words {
        is_text(word);
    }
}

/// The matches of the words after the first, or `None` where those words are not of the form of a
/// command with options of these names.
pub fn read<'a>(
    alloc: Global,
    names: &'a [&'a str],
    words: &'a [&'a str],
) -> Result<Option<ArgMatches<'a>>, AllocError>
    requires apart { is_named (map (λ n. n.now) names.now) (codes "IMAGE") ≡ false }
    ensures { IfOk result (ReadsWords (map (λ n. n.now) names.entry.now)
        (arguments (map (λ n. n.now) names.entry.now) None
        (drop 1 (map (λ s. s.now) words.entry.now)))) }
{
    are_texts(words);
    match matches_with(alloc, names, words) {
        Ok(matches) => Ok(Some(matches)),
        Err(error) => match error.kind() {
            ErrorKind::OutOfMemory => Err(AllocError),
            _ => Ok(None),
        },
    }
}

/// The number of the option, or `absent` where it was not given; `None` where the option came twice
/// or its value is no number from `low` to `high`.
pub fn number_given_to(
    matches: &ArgMatches<'_>,
    name: &str,
    low: u32,
    high: u32,
    absent: u32,
) -> Option<u32>
    requires above { low ≤ absent }
    requires below { absent ≤ high }
    ensures value { result ≡ number_given low high absent (texts_of matches.now name.now) }
    ensures range { IfSome result (λ n. (low ≤ n) × (n ≤ high)) }
{
    match matches.get_raw(name) {
        None => Some(absent),
        Some(texts) => {
            if texts.is_empty() {
                Some(absent)
            } else if texts.len() == 1 {
                number_of(texts[0], low, high)
            } else {
                None
            }
        }
    }
}

/// The operand, where there is exactly one. `clap` has it under the name IMAGE.
pub fn only_operand<'a>(matches: &ArgMatches<'a>) -> Option<&'a str>
    ensures { option_map (λ t. t.now) result ≡ only_text (texts_of matches.now (codes "IMAGE")) }
{
    match matches.get_raw("IMAGE") {
        None => None,
        Some(texts) => {
            if texts.len() == 1 {
                Some(texts[0])
            } else {
                None
            }
        }
    }
}
