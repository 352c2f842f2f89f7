//! The words of `central sim`.

use crate::arguments::central;
use crate::command::port_of;
use clap::error::ErrorKind;
use clap::{ArgMatches, Error};
use clients::SimOptions;
use ocpp_types::{Text, count_characters};
use std::alloc::{AllocError, Global};

/// The tag of a station's own sessions, if nothing else is said.
const TAG: &str = "SIM1";

/// What those of a fleet begin with.
const FLEET_TAG: &str = "SIM";

/// The most characters of a tag (OCPP 1.6, type IdToken).
const LONGEST_TAG: usize = 20;

/// What the words of the command say.
pub fn sim_options(alloc: Global, found: &ArgMatches) -> Result<SimOptions, Error> {
    let stays = found.get_flag("stay");
    let sessions = if stays { 0 } else { 1 };
    Ok(SimOptions {
        port: port_of(found),
        path: Text::from(found.get_str("path").unwrap_or("").to_string(alloc)?),
        tag: tag_of(alloc, found)?,
        sessions: found.get_one::<u32>("sessions").unwrap_or(sessions),
        stays,
        stations: found.get_one::<u32>("stations"),
    })
}

/// The tag of its own sessions. In a fleet a number follows it.
fn tag_of(alloc: Global, found: &ArgMatches) -> Result<Text, Error> {
    let (default, digits) = match found.get_one::<u32>("stations") {
        Some(stations) => (FLEET_TAG, digits_of(stations)),
        None => (TAG, 0),
    };
    let given = found.get_str("tag").unwrap_or(default);
    if count_characters(given) <= LONGEST_TAG.saturating_sub(digits) {
        return Ok(Text::from(given.to_string(alloc)?));
    }
    let reason = format!(in alloc;
        "invalid value '{given}' for '--tag <TAG>': longer than 20 characters{}",
        if digits > 0 {
            " with the number of a station"
        } else {
            ""
        }
    )?;
    Err(central(alloc)?.error(ErrorKind::ValueValidation, reason.as_str())?)
}

/// How many digits a number of stations has.
fn digits_of(stations: u32) -> usize {
    match stations {
        0..=9 => 1,
        10..=99 => 2,
        100..=999 => 3,
        _ => 4,
    }
}
