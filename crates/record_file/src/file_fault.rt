//! What is said of a file that can't be used.

use ocpp_types::{Mem, Text};
use std::alloc::Global;
use std::fs;
use std::io::ErrorKind;
use store_sql::PrepareFault;

/// The path of a file that isn't taken, and what is wrong there, if the system tells it.
pub fn detail_of(rt: &HostRuntime, path: &str, fault: PrepareFault) -> Mem<Text> {
    match fault {
        PrepareFault::CannotOpen => line(rt.alloc(), path, why_of(rt, path)),
        _ => Text::copy_of(rt.alloc(), path),
    }
}

fn line(alloc: Global, path: &str, why: &str) -> Mem<Text> {
    Ok(Text::from(format!(in alloc; "{path}: {why}")?))
}

fn why_of(rt: &HostRuntime, path: &str) -> &'static str {
    match fs::metadata(rt, path) {
        Ok(found) if found.is_dir() => "it is a folder",
        Ok(_) => "it can't be read and written by this user, or has a second name",
        Err(error) if error.kind() == ErrorKind::PermissionDenied => {
            "its folder can't be entered by this user"
        }
        Err(_) => why_none(rt, folder_of(path)),
    }
}

/// Why there is no file in a folder, and none can be made.
fn why_none(rt: &HostRuntime, folder: &str) -> &'static str {
    match fs::metadata(rt, folder) {
        Ok(found) if found.is_dir() => "no file can be made in its folder by this user",
        Ok(_) => "what should be its folder is a file",
        Err(_) => "its folder doesn't exist",
    }
}

/// The folder in which a file is, by its path.
fn folder_of(path: &str) -> &str {
    match path.rsplit_once('/') {
        Some(("", _name)) => "/",
        Some((folder, _name)) => folder,
        None => ".",
    }
}
