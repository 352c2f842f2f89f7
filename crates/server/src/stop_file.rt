//! The file that ends a server.

use ocpp_types::Text;
use std::fs;

/// The nanoseconds between two looks for it.
const LOOKS: u64 = 50_000_000;

/// The file that ends a server as it appears, if one does.
#[derive(Drop)]
pub struct StopFile {
    path: Option<Text>,
    /// The nanoseconds since the start from which on it is looked for again.
    next_look: u64,
}

impl StopFile {
    /// Looks for the file at that path. `None` looks for none.
    pub fn new(path: Option<Text>) -> StopFile {
        StopFile { path, next_look: 0 }
    }

    /// Whether it is found, so many nanoseconds since the start. It is looked for once in 50 ms at most.
    pub fn is_there(&mut self, rt: &HostRuntime, now: u64) -> bool {
        let Some(path) = &self.path else {
            return false;
        };
        if now < self.next_look {
            return false;
        }
        self.next_look = now.saturating_add(LOOKS);
        matches!(fs::exists(rt, path.as_str()), Ok(true))
    }

    /// Removes it. What can't be removed stays.
    pub fn remove(&self, rt: &HostRuntime) {
        if let Some(path) = &self.path {
            let _gone = fs::remove_file(rt, path.as_str());
        }
    }
}
