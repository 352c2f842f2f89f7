//! Messages of vendors (OCPP 1.6, section 4.3; docs/RULES.md, Vendor messages).
ghost use Rattle.std.specs.Prelude.{◌≡◌, IfOk};
ghost use Rattle.std.specs.Str.{bytes_eq};
ghost use Rattle.station_calls.specs.Vendors.{lent_text, answer_of};

use ocpp_types::{DataTransferStatus, Mem, Text};

/// What a vendor's message is answered (OCPP 1.6, DataTransfer.conf).
#[derive(Drop)]
pub struct VendorAnswer {
    pub status: DataTransferStatus,
    /// The member `data`.
    pub content: Option<Text>,
}

/// Answers the messages of one vendor. An answer is a function of the message alone. Nothing is
/// kept from one message to the next, so no answer depends on another operator's messages.
pub trait VendorHandler: Drop {
    ghost use Rattle.station_calls.specs.Vendors.{HandlerView};

    /// The handler as contracts see it: its vendor, and its answer to a message by its name and content.
    ghost view: { Self → HandlerView };

    /// The vendor whose messages it answers, a `vendorId`.
    fn vendor(&self) -> &str
        ensures { result.now ≡ (view self.now).name };

    /// Answers a message by its `messageId` and its `data`, which may be missing.
    fn answer(&self, message: Option<&str>, content: Option<&str>) -> Mem<VendorAnswer>
        ensures { IfOk result (λ a. a ≡ (view self.now).gives (lent_text message.entry) (lent_text content.entry)) };
}

impl VendorHandler for Box<dyn VendorHandler> {
    ghost view = { λ b. (VendorHandler-box b).view b.value };

    fn vendor(&self) -> &str {
        (**self).vendor()
    }

    fn answer(&self, message: Option<&str>, content: Option<&str>) -> Mem<VendorAnswer> {
        (**self).answer(message, content)
    }
}

fn is_of<V: VendorHandler>(handler: &V, vendor: &str) -> bool
    ensures { result ≡ bytes_eq (V.view handler.now).name vendor.now }
{
    handler.vendor() == vendor
}

/// The answer of the first handler of the vendor, or UnknownVendorId with no content.
#[tactic(auto, using(hub_rows::proofs::Steps::drop_here))]
pub fn ask<V: VendorHandler>(
    vendors: &[V],
    vendor: &str,
    message: Option<&str>,
    content: Option<&str>,
) -> Mem<VendorAnswer>
    ensures { IfOk result (λ a. a ≡ answer_of V.view vendors.now vendor.now (lent_text message.entry) (lent_text content.entry)) }
{
    for handler in vendors {
        if is_of(handler, vendor) {
            return handler.answer(message, content);
        }
    }
    Ok(VendorAnswer {
        status: DataTransferStatus::UnknownVendorId,
        content: None,
    })
}

/// A text that may be missing, lent.
pub fn lent(given: &Option<Text>) -> Option<&str>
    ensures { lent_text result ≡ given.now }
{
    match given {
        None => None,
        Some(text) => Some(text.as_str()),
    }
}
