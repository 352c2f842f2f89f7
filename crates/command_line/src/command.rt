//! The words of a command line.

use crate::arguments::central;
use crate::options::{
    Commit, FileOptions, FollowOptions, JournalOptions, ReplayOptions, ServeOptions,
};
use crate::sim_command::sim_options;
use clap::error::ErrorKind;
use clap::{ArgMatches, Error};
use clients::{AskOptions, ForgetOptions, SimOptions, days_of};
use log::LevelFilter;
use ocpp_types::Text;
use std::alloc::{AllocError, Global};
use std::net::{IpAddr, SocketAddr};

/// The most connections of stations that an operator has, if nothing else is said.
const MOST_STATIONS: u32 = 10_000;

/// The most rows of a listing, if nothing else is said. At 67 bytes a line they have room at an operator's connection.
const LONGEST: u32 = 250_000;

/// What a command line asks for.
#[derive(Drop)]
pub enum Plan {
    /// A replay of the lines of standard input.
    Replay(ReplayOptions),
    /// A server.
    Serve(ServeOptions),
    /// A simulated station.
    Sim(SimOptions),
    /// Lines of an operator.
    Ask(AskOptions),
    /// History of an operator that goes.
    Forget(ForgetOptions),
    /// A journal that is followed.
    Follow(FollowOptions),
}

/// Reads the words of a command line, the program's name first. An error prints itself; it is
/// also the answer to `--help` and to `--version`.
pub fn read(alloc: Global, words: &[String]) -> Result<Plan, Error> {
    let matches = central(alloc)?.try_get_matches_from(words)?;
    match plan_of(alloc, &matches)? {
        Some(plan) => Ok(plan),
        None => Err(central(alloc)?.error(ErrorKind::MissingSubcommand, "no command")?),
    }
}

/// Whether the words are `central ask help`.
pub fn asks_for_forms(words: &[String]) -> bool {
    match words {
        [_program, command, word] => command.as_str() == "ask" && word.as_str() == "help",
        _ => false,
    }
}

fn plan_of(alloc: Global, matches: &ArgMatches) -> Result<Option<Plan>, Error> {
    if let Some(found) = matches.subcommand_matches("replay") {
        return Ok(Some(Plan::Replay(replay_options(alloc, found)?)));
    }
    if let Some(found) = matches.subcommand_matches("serve") {
        return Ok(Some(Plan::Serve(serve_options(alloc, found)?)));
    }
    if let Some(found) = matches.subcommand_matches("sim") {
        return Ok(Some(Plan::Sim(sim_options(alloc, found)?)));
    }
    if let Some(found) = matches.subcommand_matches("ask") {
        return Ok(Some(Plan::Ask(ask_options(alloc, found)?)));
    }
    if let Some(found) = matches.subcommand_matches("forget") {
        return Ok(Some(Plan::Forget(forget_options(alloc, found)?)));
    }
    if let Some(found) = matches.subcommand_matches("follow") {
        return Ok(Some(Plan::Follow(follow_options(alloc, found)?)));
    }
    Ok(None)
}

fn replay_options(alloc: Global, found: &ArgMatches) -> Result<ReplayOptions, AllocError> {
    Ok(ReplayOptions {
        operators: parts(alloc, found.get_str("operators"))?,
        db: text_if_any(alloc, found.get_str("db"))?,
        file: file_options(found),
        commit: commit_of(found, Commit::Each),
        is_strict: found.get_flag("strict"),
    })
}

fn file_options(found: &ArgMatches) -> FileOptions {
    FileOptions {
        accepts_loss: found.get_flag("accept-loss"),
        page_sums: found.get_flag("page-sums"),
    }
}

/// A value, if it was given.
fn text_if_any(alloc: Global, value: Option<&str>) -> Result<Option<Text>, AllocError> {
    match value {
        Some(value) => Ok(Some(Text::from(value.to_string(alloc)?))),
        None => Ok(None),
    }
}

fn serve_options(alloc: Global, found: &ArgMatches) -> Result<ServeOptions, Error> {
    Ok(ServeOptions {
        address: SocketAddr::new(bind_of(alloc, found)?, port_of(found)),
        operators: parts(alloc, found.get_str("operators"))?,
        origins: match found.get_str("origin") {
            Some(origins) => parts(alloc, Some(origins))?,
            None => Vec::new(alloc),
        },
        db: Text::from(found.get_str("db").unwrap_or("").to_string(alloc)?),
        file: file_options(found),
        turns: found.get_one::<u32>("turns"),
        most_stations: found
            .get_one::<u32>("connections-per-operator")
            .unwrap_or(MOST_STATIONS),
        longest: found.get_one::<u32>("longest-listing").unwrap_or(LONGEST),
        stop_file: text_if_any(alloc, found.get_str("stop-file"))?,
        commit: commit_of(found, Commit::Turn),
        journal: journal_options(alloc, found)?,
        follow: text_if_any(alloc, found.get_str("follow"))?,
        log: level_of(found.get_str("log").unwrap_or("connections")),
    })
}

/// When changes are committed, by the word of `--commit`, if there is one.
fn commit_of(found: &ArgMatches, default: Commit) -> Commit {
    match found.get_str("commit") {
        Some("turn") => Commit::Turn,
        Some(_) => Commit::Each,
        None => default,
    }
}

/// Which lines a log has, by the word of `--log`.
fn level_of(word: &str) -> LevelFilter {
    match word {
        "none" => LevelFilter::Off,
        "errors" => LevelFilter::Warn,
        _ => LevelFilter::Info,
    }
}

/// The journal that a server keeps, if it keeps one.
fn journal_options(
    alloc: Global,
    found: &ArgMatches,
) -> Result<Option<JournalOptions>, AllocError> {
    let Some(path) = text_if_any(alloc, found.get_str("journal"))? else {
        return Ok(None);
    };
    Ok(Some(JournalOptions {
        path,
        syncs: found.get_flag("journal-sync"),
        size: found.get_one::<u32>("journal-size").map(u64::from),
    }))
}

fn follow_options(alloc: Global, found: &ArgMatches) -> Result<FollowOptions, AllocError> {
    Ok(FollowOptions {
        journal: Text::from(found.get_str("journal").unwrap_or("").to_string(alloc)?),
        operators: parts(alloc, found.get_str("operators"))?,
        db: Text::from(found.get_str("db").unwrap_or("").to_string(alloc)?),
        file: file_options(found),
    })
}

fn ask_options(alloc: Global, found: &ArgMatches) -> Result<AskOptions, Error> {
    Ok(AskOptions {
        port: port_of(found),
        operator: Text::from(found.get_str("operator").unwrap_or("").to_string(alloc)?),
        line: text_if_any(alloc, found.get_str("line"))?,
        wait: found.get_flag("wait"),
    })
}

fn forget_options(alloc: Global, found: &ArgMatches) -> Result<ForgetOptions, Error> {
    Ok(ForgetOptions {
        port: port_of(found),
        operator: Text::from(found.get_str("operator").unwrap_or("").to_string(alloc)?),
        days: before_of(alloc, found)?,
        export: text_if_any(alloc, found.get_str("export"))?,
    })
}

/// How many days old is what goes.
fn before_of(alloc: Global, found: &ArgMatches) -> Result<u64, Error> {
    let given = found.get_str("before").unwrap_or("");
    if let Some(days) = days_of(given) {
        return Ok(days);
    }
    let reason = format!(in alloc;
        "invalid value '{given}' for '--before <DAYS>': not a number of days such as 90d"
    )?;
    Err(central(alloc)?.error(ErrorKind::ValueValidation, reason.as_str())?)
}

/// The address to listen on.
fn bind_of(alloc: Global, found: &ArgMatches) -> Result<IpAddr, Error> {
    if let Some(address) = found.get_one::<IpAddr>("bind") {
        return Ok(address);
    }
    let given = found.get_str("bind").unwrap_or("");
    let reason = format!(in alloc;
        "invalid value '{given}' for '--bind <ADDRESS>': not an IP address"
    )?;
    Err(central(alloc)?.error(ErrorKind::ValueValidation, reason.as_str())?)
}

/// The port, which the command line can't do without.
pub fn port_of(found: &ArgMatches) -> u16 {
    found.get_one::<u16>("port").unwrap_or(0)
}

/// The parts between commas, empty ones too.
fn parts(alloc: Global, text: Option<&str>) -> Result<Vec<Text>, AllocError> {
    let mut found = Vec::new(alloc);
    for part in text.unwrap_or("").split(',') {
        found.push(Text::from(part.to_string(alloc)?))?;
    }
    Ok(found)
}
