//! The operators of a command line.

use crate::fault::RunFault;
use hub::Hub;
use hub_rows::{Store, are_operators, is_hosted};
use ocpp_types::{Mem, Text};
use station_calls::VendorHandler;
use std::alloc::Global;
use std::fmt::{Display, Formatter, Write};
use std::{fmt, slice};

/// Why operators can't be hosted.
#[derive(Debug, Drop)]
pub enum BadOperators {
    /// There is none.
    Missing,
    /// This can't be the name of an operator.
    NoName(Text),
    /// This name comes twice.
    Twice(Text),
}

impl Display for BadOperators {
    fn fmt<W: Write>(&self, f: &mut Formatter<W>) -> fmt::Result {
        match self {
            BadOperators::Missing => write!(f, "--operators: no name"),
            BadOperators::NoName(name) => {
                let name = name.as_str().escape_debug();
                write!(
                    f,
                    "--operators: \"{name}\" can't be a name: 1 to 32 letters, digits, - and _"
                )
            }
            BadOperators::Twice(name) => write!(f, "--operators: \"{name}\" comes twice"),
        }
    }
}

/// A hub of these operators. Error: they can't be hosted.
pub fn hub_of<S: Store + Drop, V: VendorHandler>(
    alloc: Global,
    store: S,
    operators: Vec<Text>,
    vendors: Vec<V>,
) -> Result<Hub<S, V>, RunFault> {
    let fault = fault_of(operators.as_slice())?;
    match Hub::new(alloc, store, operators, vendors) {
        Ok(hub) => Ok(hub),
        Err(_) => Err(RunFault::BadOperators(fault.unwrap_or(BadOperators::Missing))),
    }
}

/// Why these operators can't be hosted, by the first name that is at fault. `None` where they can.
pub fn fault_of(names: &[Text]) -> Mem<Option<BadOperators>> {
    if names.is_empty() {
        return Ok(Some(BadOperators::Missing));
    }
    for (place, name) in names.iter().enumerate() {
        if !are_operators(slice::from_ref(name)) {
            return Ok(Some(BadOperators::NoName(name.clone()?)));
        }
        if is_hosted(&names[..place], name.as_str()) {
            return Ok(Some(BadOperators::Twice(name.clone()?)));
        }
    }
    Ok(None)
}

/// Copies of names.
pub fn copies_of(alloc: Global, names: &[Text]) -> Mem<Vec<Text>> {
    let mut copies = Vec::new(alloc);
    for name in names {
        copies.push(name.clone()?)?;
    }
    Ok(copies)
}
