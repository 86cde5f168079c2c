//! Functions that return the request of a command line.
ghost use Rattle.std.specs.Prelude.{◌≡◌, IfOk, codes, map};
ghost use Rattle.clap.specs.Words.{FailsBy, fault_of, first_of, found_of, rows_of, subcommand_of, subcommand_rows_of};
ghost use Rattle.dcc_command.specs.CommandLine.{dcc_app};
ghost use Rattle.dcc.specs.Asked.{IsRequestNamed, IsRequestOf, IsEncoding, IsFlag, IsSize, IsStation, ReadsCvOf};
ghost use Rattle.dcc.specs.Asked.{ListsLostOf, ShowsOf, comparison};

use clap::{ArgMatches, Error};
use dcc_command::taken;
use dcc_packet::CvNumber;
use dcc_tool::{Encode, Request, ToolFault, Usage, read_who};
use std::alloc::Global;
use std::convert::AsStr;

/// Returns the request that the arguments express. The first argument is the name of the program.
///
/// Errors: the error of clap if the arguments are wrong, if they request the help or the version,
/// or if an allocation fails.
pub fn asked<S: AsStr>(alloc: Global, words: &[S]) -> Result<Result<Request, ToolFault>, Error>
    // The definition `fault_of` says which arguments are accepted, and which error other arguments
    // have.
    ensures takes { FailsBy (fault_of dcc_app (map S.text words.now)) result }
    ensures asks { IfOk result (IsRequestOf (subcommand_of dcc_app (map S.text words.now))) }
{
    Ok(request_of(&taken(alloc, words)?))
}

/// Returns the request that parsed arguments express.
///
/// Errors: U1 if the value of `--who` names no decoder, or if two options exclude each other.
fn request_of(matches: &ArgMatches) -> Result<Request, ToolFault>
    ensures { IsRequestOf (subcommand_rows_of matches.now) result }
{
    match matches.subcommand() {
        Some((name, found)) => request_named(name, found),
        None => Err(ToolFault::Usage(Usage::Words)),
    }
}

/// Returns the request of the subcommand with the name `name`.
fn request_named(name: &str, found: &ArgMatches) -> Result<Request, ToolFault>
    ensures { IsRequestNamed name.now (rows_of (found_of found.now)) result }
{
    match name {
        "show" => showing_of(found),
        "lost" => Ok(listing_of(found)),
        "encode" => Ok(Request::Encode(encoding_of(found))),
        "run" => Ok(Request::Run),
        "same" => comparison_of(found),
        "readcv" => reading_of(found),
        "timing" => Ok(Request::Timing),
        "what" => Ok(Request::What),
        _ => Err(ToolFault::Usage(Usage::Words)),
    }
}

/// Returns true if the flag `id` was given.
fn flag_of(matches: &ArgMatches, id: &str) -> bool
    ensures { IsFlag id.now (rows_of (found_of matches.now)) result }
{
    matches.get_flag(id)
}

/// Returns the request to list a capture.
///
/// Errors: U1 if both `--plain` and `--words` were given.
fn showing_of(matches: &ArgMatches) -> Result<Request, ToolFault>
    ensures { ShowsOf (rows_of (found_of matches.now)) result }
{
    let plain = flag_of(matches, "plain");
    let words = flag_of(matches, "words");
    match (plain, words) {
        (false, _) => Ok(Request::Show { words }),
        (true, false) => Ok(Request::ShowPlain),
        (true, true) => Err(ToolFault::Usage(Usage::Words)),
    }
}

/// Returns the request to list lost packets. With `--spikes`, half-bits are joined with the spikes
/// next to them. clap accepts only limits from 1 to 25.
fn listing_of(matches: &ArgMatches) -> Request
    ensures { ListsLostOf (rows_of (found_of matches.now)) result }
{
    let words = flag_of(matches, "words");
    match matches.get_one::<u8>("spikes") {
        None => Request::Lost { words },
        Some(limit) => Request::LostWithSpikes { words, limit },
    }
}

/// Returns the value of the option `id`, 0 to 255. Returns `other` if the option was not given.
fn size_of(matches: &ArgMatches, id: &str, other: u8) -> u8
    ensures { IsSize id.now (rows_of (found_of matches.now)) other result }
{
    matches.get_one(id).unwrap_or(other)
}

/// Returns the options of the operation `encode`. Without `--station` the sizes of a station are
/// ignored.
fn encoding_of(matches: &ArgMatches) -> Encode
    ensures { IsEncoding (rows_of (found_of matches.now)) result }
{
    Encode {
        hex: flag_of(matches, "hex"),
        service: flag_of(matches, "service"),
        station: station_of(matches),
    }
}

/// Returns the sizes of the requested station: queue, slots and repeats. Returns `None` without
/// `--station`. clap accepts only numbers from 0 to 255.
fn station_of(matches: &ArgMatches) -> Option<(usize, usize, u8)>
    ensures { IsStation (rows_of (found_of matches.now)) result }
{
    if !flag_of(matches, "station") {
        return None;
    }
    let queue = size_of(matches, "queue", 16);
    let slots = size_of(matches, "slots", 32);
    let repeats = size_of(matches, "repeats", 2);
    Some((usize::from(queue), usize::from(slots), repeats))
}

/// Returns the request to compare two captures for the decoder that the value of `--who` names.
fn comparison_of(matches: &ArgMatches) -> Result<Request, ToolFault>
    ensures { result ≡ comparison (first_of (codes "who") (rows_of (found_of matches.now))) }
{
    match matches.get_str("who") {
        Some(word) => Ok(Request::Same(read_who(word)?)),
        None => Err(ToolFault::Usage(Usage::Words)),
    }
}

/// Returns the request to read the CV whose number is the value of `--cv`. clap accepts only
/// numbers from 1 to 1024.
fn reading_of(matches: &ArgMatches) -> Result<Request, ToolFault>
    ensures { ReadsCvOf (rows_of (found_of matches.now)) result }
{
    let empty = flag_of(matches, "empty");
    let number = matches.get_one::<u16>("cv").unwrap_or(0);
    match CvNumber::new(number) {
        Ok(cv) => Ok(Request::ReadCv { cv, empty }),
        Err(_) => Err(ToolFault::Usage(Usage::Words)),
    }
}
