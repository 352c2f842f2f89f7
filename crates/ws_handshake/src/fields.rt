//! The fields of a request.
ghost use Rattle.std.specs.Prelude.{◌≡◌, length, All, option_map};
ghost use Rattle.httparse.specs.Spans.{IsHeaderWithin};
ghost use Rattle.websocket.specs.Headers.{eq_ignore_case, fields_of, header_value};
ghost use Rattle.ws_handshake.specs.Heads.{is_between, has_item, has_exactly, has_foreign_origin, count_of, is_among, lists, lists_exactly, offered, offers, only_value};

use crate::subprotocol::{Offered, Subprotocol};
use httparse::spans::HeaderSpan;
use ocpp_types::Text;

/// Whether a field of that name lists the item. Several fields are one list, and letters have no case (RFC 9110,
/// section 5.3).
pub fn lists(head: &[u8], fields: &[HeaderSpan], name: &[u8], item: &[u8]) -> bool
    requires { All (IsHeaderWithin (length head.now)) fields.now }
    ensures { result ≡ lists name.now item.now (fields_of head.now fields.now) }
{
    for field in fields {
        if eq_ignore_case(field.name.of(head), name) && has_item(field.value.of(head), item) {
            return true;
        }
    }
    false
}

/// Which names of OCPP 1.6 are among the subprotocols that are offered (RFC 6455, section 11.3.4).
pub fn offered(head: &[u8], fields: &[HeaderSpan]) -> Offered
    requires { All (IsHeaderWithin (length head.now)) fields.now }
    ensures { result ≡ offered (fields_of head.now fields.now) }
{
    Offered {
        named: offers(head, fields, Subprotocol::Named),
        in_capitals: offers(head, fields, Subprotocol::InCapitals),
        with_j: offers(head, fields, Subprotocol::WithJ),
    }
}

fn offers(head: &[u8], fields: &[HeaderSpan], subprotocol: Subprotocol) -> bool
    requires { All (IsHeaderWithin (length head.now)) fields.now }
    ensures { result ≡ offers subprotocol (fields_of head.now fields.now) }
{
    lists_exactly(
        head,
        fields,
        b"Sec-WebSocket-Protocol",
        subprotocol.name().as_bytes(),
    )
}

/// Whether a field of that name lists exactly the item.
fn lists_exactly(head: &[u8], fields: &[HeaderSpan], name: &[u8], item: &[u8]) -> bool
    requires { All (IsHeaderWithin (length head.now)) fields.now }
    ensures { result ≡ lists_exactly name.now item.now (fields_of head.now fields.now) }
{
    for field in fields {
        if eq_ignore_case(field.name.of(head), name) && has_exactly(field.value.of(head), item) {
            return true;
        }
    }
    false
}

/// Whether a page of an origin asks that isn't among these (RFC 6455, sections 4.2.2 and 10.2). Only a browser names one.
pub fn has_foreign_origin(head: &[u8], fields: &[HeaderSpan], origins: &[Text]) -> bool
    requires { All (IsHeaderWithin (length head.now)) fields.now }
    ensures { result ≡ has_foreign_origin origins.now (fields_of head.now fields.now) }
{
    for field in fields {
        if eq_ignore_case(field.name.of(head), b"Origin")
            && !is_among(field.value.of(head), origins)
        {
            return true;
        }
    }
    false
}

fn is_among(value: &[u8], origins: &[Text]) -> bool
    ensures { result ≡ is_among origins.now value.now }
{
    origins
        .iter()
        .any(|origin| origin.as_str().as_bytes() == value)
}

/// The value of the field of that name, if there is exactly one.
pub fn only_value<'b>(head: &'b [u8], fields: &[HeaderSpan], name: &[u8]) -> Option<&'b [u8]>
    requires { All (IsHeaderWithin (length head.now)) fields.now }
    ensures { option_map (λ v. v.now) result ≡ only_value name.now (fields_of head.now fields.now) }
{
    if count_of(head, fields, name) == 1 {
        first_value(head, fields, name)
    } else {
        None
    }
}

/// How many fields have that name.
pub fn count_of(head: &[u8], fields: &[HeaderSpan], name: &[u8]) -> usize
    requires { All (IsHeaderWithin (length head.now)) fields.now }
    ensures { result ≡ count_of name.now (fields_of head.now fields.now) }
{
    let mut count = 0_usize;
    for field in fields {
        if eq_ignore_case(field.name.of(head), name) {
            count = count.saturating_add(1);
        }
    }
    count
}

fn first_value<'b>(head: &'b [u8], fields: &[HeaderSpan], name: &[u8]) -> Option<&'b [u8]>
    requires { All (IsHeaderWithin (length head.now)) fields.now }
    ensures { option_map (λ v. v.now) result ≡ header_value (fields_of head.now fields.now) name.now }
{
    for field in fields {
        if eq_ignore_case(field.name.of(head), name) {
            return Some(field.value.of(head));
        }
    }
    None
}

fn eq_ignore_case(a: &[u8], b: &[u8]) -> bool
    ensures { result ≡ eq_ignore_case a.now b.now }
{
    a.eq_ignore_ascii_case(b)
}

/// Whether a list has the item. Items are cut at commas and white space.
fn has_item(value: &[u8], item: &[u8]) -> bool
    ensures { result ≡ has_item item.now value.now }
{
    value
        .split(|byte| is_between(*byte))
        .any(|one| eq_ignore_case(one, item))
}

/// Whether a list has exactly the item.
fn has_exactly(value: &[u8], item: &[u8]) -> bool
    ensures { result ≡ has_exactly item.now value.now }
{
    value.split(|byte| is_between(*byte)).any(|one| one == item)
}

fn is_between(byte: u8) -> bool
    ensures { result ≡ is_between byte }
{
    matches!(byte, b',' | b' ' | b'\t')
}
