//! What a replay, a server and a follower are to do.

use log::LevelFilter;
use ocpp_types::Text;
use std::net::SocketAddr;

/// How the file with the records is opened, or made.
#[derive(Clone, Copy, Drop)]
pub struct FileOptions {
    /// A file that lacks changes is taken.
    pub accepts_loss: bool,
    /// The pages of a new file end in sums.
    pub page_sums: bool,
}

/// Where a journal is kept, and how.
#[derive(Drop)]
pub struct JournalOptions {
    /// The path of its file.
    pub path: Text,
    /// What is written is synced.
    pub syncs: bool,
    /// With how many bytes the next file is begun. Without them none is.
    pub size: Option<u64>,
}

/// What a follower is to do.
#[derive(Drop)]
pub struct FollowOptions {
    /// The path of the journal. `-` is standard input.
    pub journal: Text,
    /// The operators that are hosted.
    pub operators: Vec<Text>,
    /// The path of the file with the records.
    pub db: Text,
    /// How that file is opened, or made.
    pub file: FileOptions,
}

/// What a replay is to do.
#[derive(Drop)]
pub struct ReplayOptions {
    /// The operators that are hosted.
    pub operators: Vec<Text>,
    /// The path of the file with the records; without it they are in memory.
    pub db: Option<Text>,
    /// How that file is opened, or made.
    pub file: FileOptions,
    /// When changes are committed.
    pub commit: Commit,
    /// Whether a bad line sets the exit status.
    pub is_strict: bool,
}

/// When changes are committed.
#[derive(Clone, Copy, Debug, PartialEq, Eq, Drop)]
pub enum Commit {
    /// Each alone.
    Each,
    /// All of a turn together: of a server's turn, or of up to 1,000 lines of a replay.
    Turn,
}

/// What a server is to do.
#[derive(Drop)]
pub struct ServeOptions {
    /// Where it listens.
    pub address: SocketAddr,
    /// The operators that are hosted.
    pub operators: Vec<Text>,
    /// The origins whose pages are served in a browser.
    pub origins: Vec<Text>,
    /// The path of the file with the records.
    pub db: Text,
    /// How that file is opened, or made.
    pub file: FileOptions,
    /// How many turns the server makes. `None` serves until it is ended.
    pub turns: Option<u32>,
    /// The most connections of stations that an operator has.
    pub most_stations: u32,
    /// The most rows of a listing.
    pub longest: u32,
    /// The path of a file that ends it as it appears.
    pub stop_file: Option<Text>,
    /// When its changes are committed.
    pub commit: Commit,
    /// The journal that it keeps, if it keeps one.
    pub journal: Option<JournalOptions>,
    /// The path of a journal that is followed to its end first. `-` is standard input.
    pub follow: Option<Text>,
    /// Which lines its log has.
    pub log: LevelFilter,
}
