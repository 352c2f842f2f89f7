//! Sampled values to text.
ghost use Rattle.std.specs.Prelude.{◌≡◌, [], IfOk, OnOk, Some, option_map};
ghost use Rattle.json.specs.Print.{print};
ghost use Rattle.json.specs.Tree.{json_tokens};
ghost use Rattle.meter_values.specs.Read.{sampled_in};
ghost use Rattle.meter_values.specs.Tokens.{row_tokens, Adds};
ghost use Rattle.meter_values.specs.Written.{object_of, text_of, unless};

use json::Writer;
use ocpp_types::{
    Location, Measurand, Mem, Named, ReadingContext, SampledValue, Text, ValueFormat,
};
use std::alloc::Global;

/// The text of sampled values: a compact JSON array of objects, each with the members of OCPP 1.6
/// (section 7.43, SampledValue) in that order. A member that has the standard's default is left
/// out, and so is one that is none; `value` always stands. It is read again as the same values.
pub fn write_sampled(alloc: Global, sampled: &[SampledValue]) -> Mem<Text>
    ensures text { IfOk result (λ text. text ≡ text_of sampled.now) }
    ensures read_back { IfOk result (λ text. sampled_in text ≡ Some sampled.now) }
{
    let mut out = Writer::new(Vec::new(alloc));
    out.begin_array()?;
    for one in sampled {
        write_one(&mut out, one)?;
    }
    out.end_array()?;
    Ok(into_text(out))
}

/// The text of all that was written.
fn into_text(out: Writer) -> Text
    requires { out.before ≡ [] }
    ensures { result ≡ print out.tokens }
{
    let text = String::from_utf8(out.into_inner()).unwrap();
    Text::from(text)
}

/// Writes one sampled value, as an object.
fn write_one(out: &mut Writer, one: &SampledValue) -> Mem<()>
    ensures { OnOk result (Adds out.old out.new (json_tokens (object_of one.now))) }
{
    let context = unless(one.context, ReadingContext::SamplePeriodic);
    let format = unless(one.format, ValueFormat::Raw);
    let measurand = unless(one.measurand, Measurand::EnergyActiveImportRegister);
    let location = unless(one.location, Location::Outlet);
    out.begin_object()?;
    write_member(out, "value", Some(one.value.as_str()))?;
    write_member(out, "context", context)?;
    write_member(out, "format", format)?;
    write_member(out, "measurand", measurand)?;
    write_member(out, "phase", name_of(one.phase))?;
    write_member(out, "location", location)?;
    write_member(out, "unit", name_of(one.unit))?;
    out.end_object()?;
    Ok(())
}

/// Writes a member of an object, if there is one.
fn write_member(out: &mut Writer, name: &str, text: Option<&str>) -> Mem<()>
    ensures { OnOk result (Adds out.old out.new
        (row_tokens (name.now, option_map (λ t. t.now) text.entry))) }
{
    if let Some(text) = text {
        out.key(name)?;
        out.string(text)?;
    }
    Ok(())
}

/// The name of a value, unless it is the default.
fn unless<N: Named>(value: N, default: N) -> Option<&'static str>
    ensures { option_map (λ t. t.now) result ≡ unless N.name_of default value }
{
    let name = value.name();
    if name == default.name() {
        None
    } else {
        Some(name)
    }
}

/// The name of a value that may be none.
fn name_of<N: Named>(value: Option<N>) -> Option<&'static str>
    ensures { option_map (λ t. t.now) result ≡ option_map N.name_of value }
{
    match value {
        Some(value) => Some(value.name()),
        None => None,
    }
}
