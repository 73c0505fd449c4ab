//! The words of a command line, read with `clap` and defined apart from it.
#![tactic(auto)]

ghost use Rattle.std.specs.Prelude.{◌≡◌, IfOk, IfSome, None, map, option_map, drop, codes};
ghost use Rattle.command_line.specs.Arguments.{arguments};
ghost use Rattle.command_line.specs.Commands.{IsFormatSize, HasNumbersInRange, command_line_of};
ghost use Rattle.command_line.specs.Lines.{dump_from, dump_says, format_from, format_options};
ghost use Rattle.command_line.specs.Lines.{format_says, line_of_words, no_options, replay_from};
ghost use Rattle.command_line.specs.Lines.{replay_says, report_from, report_says, format_size_in};
ghost use Rattle.command_line.specs.Lines.{gen_from, gen_says, serve_from, serve_options};
ghost use Rattle.command_line.specs.Lines.{serve_says};
ghost use Rattle.command_line.specs.Matches.{texts_of};

mod number;
mod reading;

use crate::number::number_of;
use crate::reading::{number_given_to, only_operand, read};
use clap::ArgMatches;
use flash_traits::is_sector_size;
use std::alloc::{AllocError, Global};

/// What a command line asks for.
#[derive(Clone, Copy, Debug, PartialEq, Eq)]
pub enum Command<'a> {
    /// `serve IMAGE [--port P] [--turns N]`: serve the image to ground stations over UDP.
    Serve {
        /// The image file's name.
        image: &'a str,
        /// The UDP port, from 1; 14550, the usual one of MAVLink, where none is given.
        port: u16,
        /// How many events are served at most, from 1; 4294967295 where no number is given.
        turns: u32,
    },
    /// `replay IMAGE`: run a script over a copy of the image in memory.
    Replay {
        /// The image file's name.
        image: &'a str,
    },
    /// `format IMAGE [--sector S]`: make a fresh image.
    Format {
        /// The image file's name.
        image: &'a str,
        /// The bytes of a sector: 16384, 32768, 65536 or 131072; the last where none is given.
        sector: u32,
    },
    /// `dump IMAGE`: print what the image stands for.
    Dump {
        /// The image file's name.
        image: &'a str,
    },
    /// `report IMAGE`: print how each part of the image is.
    Report {
        /// The image file's name.
        image: &'a str,
    },
    /// `gen N`: run a generated session of N rounds in memory.
    Gen {
        /// How many rounds, from 1 to 1000.
        rounds: u16,
    },
}

static SERVE_OPTIONS: [&str; 2] = ["port", "turns"];

/// What the matches of `serve` say.
fn serve_said<'a>(matches: &ArgMatches<'a>) -> Option<Command<'a>>
    ensures value { option_map command_line_of result
        ≡ serve_says (texts_of matches.now (codes "IMAGE"))
        (texts_of matches.now (codes "port")) (texts_of matches.now (codes "turns")) }
    ensures ranges { IfSome result HasNumbersInRange }
{
    let Some(image) = only_operand(matches) else {
        return None;
    };
    let Some(port) = number_given_to(matches, "port", 1, 65535, 14550) else {
        return None;
    };
    let Some(turns) = number_given_to(matches, "turns", 1, u32::MAX, u32::MAX) else {
        return None;
    };
    Some(Command::Serve {
        image,
        port: port as u16,
        turns,
    })
}

/// `serve IMAGE [--port P] [--turns N]`, from all the words.
fn serve<'a>(alloc: Global, words: &'a [&'a str]) -> Result<Option<Command<'a>>, AllocError>
    ensures value { IfOk result (λ r. option_map command_line_of r
        ≡ serve_from (arguments serve_options None (drop 1 (map (λ s. s.now) words.entry.now)))) }
    ensures ranges { IfOk result (λ r. IfSome r HasNumbersInRange) }
{
    match read(alloc, SERVE_OPTIONS.as_slice(), words) {
        Err(error) => Err(error),
        Ok(None) => Ok(None),
        Ok(Some(matches)) => Ok(serve_said(&matches)),
    }
}

static FORMAT_OPTIONS: [&str; 1] = ["sector"];

/// The number, where it is a size with which an image is made.
fn format_size(number: u32) -> Option<u32>
    ensures value { result ≡ format_size_in number }
    ensures size { IfSome result IsFormatSize }
{
    if is_sector_size(number) {
        Some(number)
    } else {
        None
    }
}

/// What the matches of `format` say.
fn format_said<'a>(matches: &ArgMatches<'a>) -> Option<Command<'a>>
    ensures value { option_map command_line_of result
        ≡ format_says (texts_of matches.now (codes "IMAGE"))
        (texts_of matches.now (codes "sector")) }
    ensures ranges { IfSome result HasNumbersInRange }
{
    let Some(image) = only_operand(matches) else {
        return None;
    };
    let Some(number) = number_given_to(matches, "sector", 16384, 131072, 131072) else {
        return None;
    };
    let Some(sector) = format_size(number) else {
        return None;
    };
    Some(Command::Format { image, sector })
}

/// `format IMAGE [--sector S]`, from all the words.
fn format<'a>(alloc: Global, words: &'a [&'a str]) -> Result<Option<Command<'a>>, AllocError>
    ensures value { IfOk result (λ r. option_map command_line_of r
        ≡ format_from (arguments format_options None (drop 1 (map (λ s. s.now) words.entry.now)))) }
    ensures ranges { IfOk result (λ r. IfSome r HasNumbersInRange) }
{
    match read(alloc, FORMAT_OPTIONS.as_slice(), words) {
        Err(error) => Err(error),
        Ok(None) => Ok(None),
        Ok(Some(matches)) => Ok(format_said(&matches)),
    }
}

static NO_OPTIONS: [&str; 0] = [];

/// What the matches of `replay` say.
fn replay_said<'a>(matches: &ArgMatches<'a>) -> Option<Command<'a>>
    ensures value { option_map command_line_of result
        ≡ replay_says (texts_of matches.now (codes "IMAGE")) }
    ensures ranges { IfSome result HasNumbersInRange }
{
    let Some(image) = only_operand(matches) else {
        return None;
    };
    Some(Command::Replay { image })
}

/// `replay IMAGE`, from all the words.
fn replay<'a>(alloc: Global, words: &'a [&'a str]) -> Result<Option<Command<'a>>, AllocError>
    ensures value { IfOk result (λ r. option_map command_line_of r
        ≡ replay_from (arguments no_options None (drop 1 (map (λ s. s.now) words.entry.now)))) }
    ensures ranges { IfOk result (λ r. IfSome r HasNumbersInRange) }
{
    match read(alloc, NO_OPTIONS.as_slice(), words) {
        Err(error) => Err(error),
        Ok(None) => Ok(None),
        Ok(Some(matches)) => Ok(replay_said(&matches)),
    }
}

/// What the matches of `dump` say.
fn dump_said<'a>(matches: &ArgMatches<'a>) -> Option<Command<'a>>
    ensures value { option_map command_line_of result
        ≡ dump_says (texts_of matches.now (codes "IMAGE")) }
    ensures ranges { IfSome result HasNumbersInRange }
{
    let Some(image) = only_operand(matches) else {
        return None;
    };
    Some(Command::Dump { image })
}

/// `dump IMAGE`, from all the words.
fn dump<'a>(alloc: Global, words: &'a [&'a str]) -> Result<Option<Command<'a>>, AllocError>
    ensures value { IfOk result (λ r. option_map command_line_of r
        ≡ dump_from (arguments no_options None (drop 1 (map (λ s. s.now) words.entry.now)))) }
    ensures ranges { IfOk result (λ r. IfSome r HasNumbersInRange) }
{
    match read(alloc, NO_OPTIONS.as_slice(), words) {
        Err(error) => Err(error),
        Ok(None) => Ok(None),
        Ok(Some(matches)) => Ok(dump_said(&matches)),
    }
}

/// What the matches of `report` say.
fn report_said<'a>(matches: &ArgMatches<'a>) -> Option<Command<'a>>
    ensures value { option_map command_line_of result
        ≡ report_says (texts_of matches.now (codes "IMAGE")) }
    ensures ranges { IfSome result HasNumbersInRange }
{
    let Some(image) = only_operand(matches) else {
        return None;
    };
    Some(Command::Report { image })
}

/// `report IMAGE`, from all the words.
fn report<'a>(alloc: Global, words: &'a [&'a str]) -> Result<Option<Command<'a>>, AllocError>
    ensures value { IfOk result (λ r. option_map command_line_of r
        ≡ report_from (arguments no_options None (drop 1 (map (λ s. s.now) words.entry.now)))) }
    ensures ranges { IfOk result (λ r. IfSome r HasNumbersInRange) }
{
    match read(alloc, NO_OPTIONS.as_slice(), words) {
        Err(error) => Err(error),
        Ok(None) => Ok(None),
        Ok(Some(matches)) => Ok(report_said(&matches)),
    }
}

/// The most rounds of a generated session.
const MOST_ROUNDS: u32 = 1000;

/// What the matches of `gen` say.
fn gen_said<'a>(matches: &ArgMatches<'a>) -> Option<Command<'a>>
    ensures value { option_map command_line_of result
        ≡ gen_says (texts_of matches.now (codes "IMAGE")) }
    ensures ranges { IfSome result HasNumbersInRange }
{
    let Some(text) = only_operand(matches) else {
        return None;
    };
    let Some(rounds) = number_of(text, 1, MOST_ROUNDS) else {
        return None;
    };
    Some(Command::Gen {
        rounds: rounds as u16,
    })
}

/// `gen N`, from all the words.
fn gen_command<'a>(alloc: Global, words: &'a [&'a str]) -> Result<Option<Command<'a>>, AllocError>
    ensures value { IfOk result (λ r. option_map command_line_of r
        ≡ gen_from (arguments no_options None (drop 1 (map (λ s. s.now) words.entry.now)))) }
    ensures ranges { IfOk result (λ r. IfSome r HasNumbersInRange) }
{
    match read(alloc, NO_OPTIONS.as_slice(), words) {
        Err(error) => Err(error),
        Ok(None) => Ok(None),
        Ok(Some(matches)) => Ok(gen_said(&matches)),
    }
}

/// The command that the words are, without the program's name, or `None` where they are no command
/// line. The first word picks the command. Options stand before or after the operand, each at most
/// once, as `--name value` or `--name=value`. A word that begins with `-` and is not the single `-`
/// is the operand only after `--`. A number is one to ten ASCII digits.
///
/// # Errors
///
/// Only for want of memory.
pub fn command_of<'a>(
    alloc: Global,
    words: &'a [&'a str],
) -> Result<Option<Command<'a>>, AllocError>
    ensures value { IfOk result (λ r. option_map command_line_of r
        ≡ line_of_words (map (λ s. s.now) words.entry.now)) }
    ensures ranges { IfOk result (λ r. IfSome r HasNumbersInRange) }
{
    if words.is_empty() {
        return Ok(None);
    }
    let first = words[0];
    if first == "serve" {
        return serve(alloc, words);
    }
    if first == "replay" {
        return replay(alloc, words);
    }
    if first == "format" {
        return format(alloc, words);
    }
    if first == "dump" {
        return dump(alloc, words);
    }
    if first == "report" {
        return report(alloc, words);
    }
    if first == "gen" {
        return gen_command(alloc, words);
    }
    Ok(None)
}

#[cfg(test)]
mod tests;
