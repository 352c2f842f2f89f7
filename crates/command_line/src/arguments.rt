//! The commands of the program, and their arguments.

use crate::help;
use clap::{Arg, ArgAction, Command, value_parser};
use std::alloc::{AllocError, Global};

/// The version of the program.
pub const VERSION: &str = "0.1.0";

/// The words of `--log`.
const LOGS: &[&str] = &["none", "errors", "connections"];

/// The words of `--commit`.
const COMMITS: &[&str] = &["each", "turn"];

/// The address to listen on, if nothing else is said.
const ADDRESS: &str = "127.0.0.1";

/// The most turns that `--turns` takes.
const MAX_TURNS: u32 = 1_000_000;

/// The most connections of stations of an operator that can be said.
const MAX_STATIONS: u32 = 1_000_000;

/// The least rows of a listing that can be said.
const MIN_LONGEST: u32 = 1_000;

/// The most that can be said.
const MAX_LONGEST: u32 = 1_000_000_000;

/// The most sessions that `--sessions` takes.
const MAX_SESSIONS: u32 = 1_000_000;

/// The most stations that `--stations` takes: each has a descriptor, and a process mostly has 1,024.
const MAX_FLEET: u32 = 1_000;

const DB: &str = "The file with the records, made if there is none";

const PORT: &str = "The port of the server on 127.0.0.1";

/// A command.
#[derive(Clone, Copy, Drop)]
enum Subcommand {
    Replay,
    Serve,
    Sim,
    Ask,
    Forget,
    Follow,
}

/// All commands, as the help lists them.
const COMMANDS: &[Subcommand] = &[
    Subcommand::Replay,
    Subcommand::Serve,
    Subcommand::Sim,
    Subcommand::Ask,
    Subcommand::Forget,
    Subcommand::Follow,
];

/// What an argument takes.
#[derive(Clone, Copy, Drop)]
enum Takes {
    /// Nothing: it is there or not.
    Nothing,
    /// A text as it is given, which may begin with a hyphen.
    Text,
    /// A text that doesn't begin with a hyphen.
    Word,
    /// The same, without the name of the argument before it.
    Place,
    /// A number from the first to the last.
    Number(u32, u32),
    Port,
    Address,
    /// A word of `LOGS`.
    Log,
    /// A word of `COMMITS`.
    Commit,
}

/// An argument of a command.
#[derive(Clone, Copy, Drop)]
struct Argument {
    name: &'static str,
    /// What stands for its value in the help.
    value: &'static str,
    takes: Takes,
    is_required: bool,
    help: &'static str,
}

/// One that is there or not.
fn flag(name: &'static str, help: &'static str) -> Argument {
    optional(name, "", Takes::Nothing, help)
}

/// One that may be left out.
fn optional(name: &'static str, value: &'static str, takes: Takes, help: &'static str) -> Argument {
    Argument {
        name,
        value,
        takes,
        is_required: false,
        help,
    }
}

/// One that has to be given.
fn required(name: &'static str, value: &'static str, takes: Takes, help: &'static str) -> Argument {
    Argument {
        name,
        value,
        takes,
        is_required: true,
        help,
    }
}

fn port(help: &'static str) -> Argument {
    required("port", "P", Takes::Port, help)
}

fn operators() -> Argument {
    required(
        "operators",
        "A,B",
        Takes::Text,
        "The operators that are hosted, parted by commas",
    )
}

fn operator(help: &'static str) -> Argument {
    required("operator", "OP", Takes::Text, help)
}

fn accept_loss() -> Argument {
    flag(
        "accept-loss",
        "Takes a file that lacks changes which were synced, as FILE-count says",
    )
}

fn page_sums() -> Argument {
    flag(
        "page-sums",
        "Ends each page of a new file in a sum, so that a start finds changed bits; sqlite3 may then not write into it",
    )
}

/// All commands.
pub fn central<'a>(alloc: Global) -> Result<Command<'a>, AllocError> {
    let mut central = Command::new(alloc, "central")
        .version(VERSION)
        .about("A central system for charging stations of several operators (OCPP 1.6 JSON)")
        .after_help(help::CENTRAL)
        .subcommand_required(true);
    for named in COMMANDS {
        central = central.subcommand(command_of(alloc, *named)?)?;
    }
    Ok(central)
}

fn command_of<'a>(alloc: Global, subcommand: Subcommand) -> Result<Command<'a>, AllocError> {
    match subcommand {
        Subcommand::Replay => replay_command(alloc),
        Subcommand::Serve => serve_command(alloc),
        Subcommand::Sim => sim_command(alloc),
        Subcommand::Ask => ask_command(alloc),
        Subcommand::Forget => forget_command(alloc),
        Subcommand::Follow => follow_command(alloc),
    }
}

/// A command with these arguments.
fn command<'a>(
    alloc: Global,
    name: &'static str,
    about: &'static str,
    after_help: &'static str,
    arguments: &[Argument],
) -> Result<Command<'a>, AllocError> {
    let mut command = Command::new(alloc, name)
        .about(about)
        .after_help(after_help);
    for argument in arguments {
        command = command.arg(arg_of(alloc, argument))?;
    }
    Ok(command)
}

fn arg_of<'a>(alloc: Global, argument: &Argument) -> Arg<'a> {
    let arg = Arg::new(alloc, argument.name)
        .help(argument.help)
        .required(argument.is_required);
    match argument.takes {
        Takes::Nothing => arg.long(argument.name).action(ArgAction::SetTrue),
        Takes::Place => arg.value_name(argument.value),
        takes => taking(arg.long(argument.name).value_name(argument.value), takes),
    }
}

/// An argument with what it takes.
fn taking<'a>(arg: Arg<'a>, takes: Takes) -> Arg<'a> {
    match takes {
        Takes::Text => arg.allow_hyphen_values(true),
        Takes::Number(first, last) => {
            let range = i64::from(first)..=i64::from(last);
            arg.value_parser(value_parser!(u32).range(range))
        }
        Takes::Port => arg.value_parser(value_parser!(u16).range(1..)),
        Takes::Address => arg.default_value(ADDRESS),
        Takes::Log => arg.value_parser(LOGS),
        Takes::Commit => arg.value_parser(COMMITS),
        Takes::Nothing | Takes::Word | Takes::Place => arg,
    }
}

fn replay_command<'a>(alloc: Global) -> Result<Command<'a>, AllocError> {
    command(
        alloc,
        "replay",
        "Reads lines of events from standard input and writes what the hub answers",
        help::REPLAY,
        &[
            operators(),
            optional(
                "db",
                "FILE",
                Takes::Text,
                "The file with the records, made if there is none; else they are in memory",
            ),
            accept_loss(),
            page_sums(),
            commit(
                "How changes are committed: `each` commits each change alone (the default), `turn` commits those of up to 1000 lines together and answers after that",
            ),
            flag("strict", "Ends with status 3 where a line was bad"),
        ],
    )
}

fn serve_command<'a>(alloc: Global) -> Result<Command<'a>, AllocError> {
    command(
        alloc,
        "serve",
        "Serves stations and operators over WebSocket",
        help::SERVE,
        &[
            port("The port to listen on, from 1 to 65535"),
            optional(
                "bind",
                "ADDRESS",
                Takes::Address,
                "The IP address to listen on. Nobody is authenticated, so one that other machines reach has to stand behind a proxy that does",
            ),
            required("db", "FILE", Takes::Text, DB),
            accept_loss(),
            page_sums(),
            operators(),
            optional(
                "origin",
                "ORIGINS",
                Takes::Text,
                "The origins whose pages are served in a browser, parted by commas, as https://console.example or null; else none is",
            ),
            most_stations(),
            longest(),
            turns(),
            stop_file(),
            commit(
                "How changes are committed: `turn` commits those of a turn together and answers after that (the default), `each` commits each change alone",
            ),
            optional(
                "journal",
                "FILE",
                Takes::Text,
                "Appends each event that is taken to this file, before anybody is told of it",
            ),
            flag(
                "journal-sync",
                "Syncs the journal, so that it outlasts a power cut as the records do",
            ),
            journal_size(),
            follow(),
            log(),
        ],
    )
}

fn most_stations() -> Argument {
    optional(
        "connections-per-operator",
        "N",
        Takes::Number(1, MAX_STATIONS),
        "The most connections of stations that an operator has at once, 10000 if it isn't given",
    )
}

fn commit(help: &'static str) -> Argument {
    optional("commit", "WHEN", Takes::Commit, help)
}

fn longest() -> Argument {
    optional(
        "longest-listing",
        "N",
        Takes::Number(MIN_LONGEST, MAX_LONGEST),
        "The most rows of a listing, of which a reading counts as two; 250000 if it isn't given",
    )
}

fn turns() -> Argument {
    optional(
        "turns",
        "N",
        Takes::Number(0, MAX_TURNS),
        "Ends after N turns, up to 1000000, without waiting; else serves until it is ended",
    )
}

fn stop_file() -> Argument {
    optional(
        "stop-file",
        "PATH",
        Takes::Text,
        "Ends as a file of that name appears, after what was taken is answered, and removes it; one that is there at the start is removed first",
    )
}

fn journal_size() -> Argument {
    optional(
        "journal-size",
        "BYTES",
        Takes::Number(1, u32::MAX),
        "Begins the next file of the journal where it has so many bytes; the one before keeps the moment behind its name",
    )
}

fn follow() -> Argument {
    optional(
        "follow",
        "FILE",
        Takes::Text,
        "Follows the journal of another server to its end first, - for standard input, and then serves",
    )
}

fn log() -> Argument {
    optional(
        "log",
        "LEVEL",
        Takes::Log,
        "What is written to standard error: faults alone, what went wrong, or each connection too",
    )
}

fn sim_command<'a>(alloc: Global) -> Result<Command<'a>, AllocError> {
    command(
        alloc,
        "sim",
        "Runs charging sessions as a station, and prints each message",
        help::SIM,
        &[
            port(PORT),
            required(
                "path",
                "/ocpp/A/S",
                Takes::Text,
                "The path of the station: its operator and its name",
            ),
            optional(
                "tag",
                "TAG",
                Takes::Text,
                "The id tag of its own sessions, of up to 20 characters, SIM1 if it isn't given; with --stations the number of the station follows it",
            ),
            optional(
                "sessions",
                "N",
                Takes::Number(0, MAX_SESSIONS),
                "Runs N sessions of its own, up to 1000000, one after the other; 1 if it isn't given, and 0 with --stay",
            ),
            flag(
                "stay",
                "Stays connected after its own sessions, accepts a RemoteStartTransaction while no session runs and the RemoteStopTransaction of its transaction, and sends heartbeats at the interval in seconds that the boot is answered with",
            ),
            optional(
                "stations",
                "N",
                Takes::Number(1, MAX_FLEET),
                "Runs N stations side by side, from 1 to 1000, each named and with a tag that end in its number: /ocpp/ACME/CP gives CP1 with SIM1, CP2 with SIM2 and so on. Of more than one it prints how far they are, at most once a second, in place of the messages",
            ),
        ],
    )
}

fn ask_command<'a>(alloc: Global) -> Result<Command<'a>, AllocError> {
    command(
        alloc,
        "ask",
        "Sends lines as an operator, and prints what they are answered",
        help::ASK,
        &[
            port(PORT),
            operator("The operator that asks"),
            flag("wait", "Follows the call of a command to its end"),
            optional(
                "line",
                "LINE",
                Takes::Place,
                "The line to send; without it each line of standard input, one after the other",
            ),
        ],
    )
}

fn forget_command<'a>(alloc: Global) -> Result<Command<'a>, AllocError> {
    command(
        alloc,
        "forget",
        "Forgets the history of an operator's stations, and prints how many rows went",
        help::FORGET,
        &[
            port(PORT),
            operator("The operator whose history goes"),
            required(
                "before",
                "DAYS",
                Takes::Word,
                "What is older than so many days goes, as 90d",
            ),
            optional(
                "export",
                "NAME",
                Takes::Text,
                "Writes what goes to NAME-transactions.csv and NAME-readings.csv before it goes, after what is there",
            ),
        ],
    )
}

fn follow_command<'a>(alloc: Global) -> Result<Command<'a>, AllocError> {
    command(
        alloc,
        "follow",
        "Follows the journal of a server to its end, over records of its own",
        help::FOLLOW,
        &[
            required("db", "FILE", Takes::Text, DB),
            required(
                "journal",
                "FILE",
                Takes::Text,
                "The journal, - for standard input",
            ),
            operators(),
            accept_loss(),
            page_sums(),
        ],
    )
}
