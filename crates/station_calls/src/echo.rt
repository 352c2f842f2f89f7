//! A vendor's handler that sends back what it gets.
ghost use Rattle.std.specs.Prelude.{◌≡◌, IfOk};
ghost use Rattle.station_calls.specs.Vendors.{lent_text};

use crate::vendor::{VendorAnswer, VendorHandler};
use ocpp_types::{DataTransferStatus, Mem, Text};
use std::alloc::Global;

/// Answers the messages of `org.example.echo`: one without a `messageId`, or with `echo`, is
/// accepted and its content comes back, any other is unknown.
#[derive(Drop)]
pub struct Echo {
    pub alloc: Global,
}

impl VendorHandler for Echo {
    ghost use Rattle.std.specs.Prelude.{codes};
    ghost use Rattle.station_calls.specs.Echo.{echo};

    ghost view = { λ _. record { name = codes "org.example.echo"; gives = echo } };

    fn vendor(&self) -> &str {
        "org.example.echo"
    }

    fn answer(&self, message: Option<&str>, content: Option<&str>) -> Mem<VendorAnswer> {
        match message {
            None | Some("echo") => Ok(VendorAnswer {
                status: DataTransferStatus::Accepted,
                content: copied(self.alloc, content)?,
            }),
            Some(_) => Ok(VendorAnswer {
                status: DataTransferStatus::UnknownMessageId,
                content: None,
            }),
        }
    }
}

fn copied(alloc: Global, content: Option<&str>) -> Mem<Option<Text>>
    ensures { IfOk result (λ copy. copy ≡ lent_text content.entry) }
{
    match content {
        Some(content) => Ok(Some(Text::copy_of(alloc, content)?)),
        None => Ok(None),
    }
}
