//! JSON values from text, over memory that is kept from one text to the next.
ghost use Rattle.std.specs.Prelude.{◌≡◌, ◌<◌, length, Some, None, IfOk, OnOk, option_map};
ghost use Rattle.json.specs.Json.{value, items, members};
ghost use Rattle.serde_json.specs.Data.{no_members};
ghost use Rattle.serde_json.specs.Read.{of_json, of_items, of_members, converted, read as read_text};
ghost use Rattle.json_data.specs.View.{view, items_view, members_view};
ghost use Rattle.json_data.specs.Refused.{IsRefusal};
ghost use Rattle.json_data.specs.declared.value_reader.Refused.TheVariants as refused;

use crate::numbers::number_of;
use json::{Invalid, Reader, Scratch, Token, Value};
use std::alloc::{AllocError, AllocFailed, Global};

/// The greatest depth of arrays and objects that is read, as `serde_json` has it.
pub const MAX_DEPTH: usize = 127;

/// Why no value is read.
#[derive(Clone, Copy, Debug, PartialEq, Eq, Drop)]
pub enum Refused {
    NoMemory,
    /// The text isn't one value of JSON, or a number in it is out of range.
    Invalid,
}

impl From<AllocError> for Refused {
    ghost from_gives = { λ _ r. r ≡ refused.NoMemory };

    fn from(_refused: AllocError) -> Refused {
        Refused::NoMemory
    }
}

impl<T: Drop> From<AllocFailed<T>> for Refused {
    ghost from_gives = { λ _ r. r ≡ refused.NoMemory };

    fn from(_refused: AllocFailed<T>) -> Refused {
        Refused::NoMemory
    }
}

impl From<Invalid> for Refused {
    ghost from_gives = { λ _ r. r ≡ refused.Invalid };

    fn from(_invalid: Invalid) -> Refused {
        Refused::Invalid
    }
}

/// The value that a text is, as `serde_json` reads it. `None`: it is no JSON to it.
pub fn read_value<'a>(
    alloc: Global,
    scratch: &'a mut Scratch,
    text: &'a str,
) -> Result<Option<Value<'a>>, AllocError>
    ensures { IfOk result (λ value. option_map (λ v. view v) value ≡ read_text text.now) }
{
    match read_all(alloc, scratch, text) {
        Ok(value) => Ok(Some(value)),
        Err(Refused::Invalid) => Ok(None),
        Err(Refused::NoMemory) => Err(AllocError),
    }
}

fn read_all<'a>(
    alloc: Global,
    scratch: &'a mut Scratch,
    text: &'a str,
) -> Result<Value<'a>, Refused>
    ensures ok { IfOk result (λ v. read_text text.now ≡ Some (view v)) }
    ensures err { IsRefusal result → read_text text.now ≡ None }
{
    let mut reader = Reader::new(text, scratch)?;
    let value = read(alloc, &mut reader, MAX_DEPTH)?;
    if reader.next().is_some() {
        return Err(Refused::Invalid);
    }
    Ok(value)
}

/// The value that comes next.
#[cycle(read)]
#[inline(always)]
pub fn read<'a>(alloc: Global, reader: &mut Reader<'a>, depth: usize) -> Result<Value<'a>, Refused>
    ensures ok { IfOk result (λ v. converted of_json (value depth reader.old) ≡ Some (view v, reader.new)) }
    ensures shorter { OnOk result (length reader.new < length reader.old) }
    ensures err { IsRefusal result → converted of_json (value depth reader.old) ≡ None }
{
    let token = reader.next().ok_or(Refused::Invalid)?;
    match token {
        Token::String(text) => Ok(Value::String(text)),
        Token::Number(text) => match number_of(text) {
            Some(_) => Ok(Value::Number(text)),
            None => Err(Refused::Invalid),
        },
        Token::Bool(b) => Ok(Value::Bool(b)),
        Token::Null => Ok(Value::Null),
        Token::EndObject | Token::EndArray | Token::Key(_) | Token::Bad => Err(Refused::Invalid),
        Token::BeginArray => {
            if depth == 0 {
                return Err(Refused::Invalid);
            }
            Ok(Value::Array(read_items(alloc, reader, depth - 1)?))
        }
        Token::BeginObject => {
            if depth == 0 {
                return Err(Refused::Invalid);
            }
            Ok(Value::Object(read_members(alloc, reader, depth - 1)?))
        }
    }
}

#[cycle(read)]
#[inline(never)]
fn read_items<'a>(
    alloc: Global,
    reader: &mut Reader<'a>,
    depth: usize,
) -> Result<Vec<Value<'a>>, Refused>
    ensures ok { IfOk result (λ v. converted of_items (items (value depth) (length reader.old) reader.old)
        ≡ Some (items_view v.items, reader.new)) }
    ensures shorter { OnOk result (length reader.new < length reader.old) }
    ensures err { IsRefusal result → converted of_items (items (value depth) (length reader.old) reader.old) ≡ None }
{
    let mut found = Vec::new(alloc);
    'items: while !reader.take_end_array() {
        let item = read(alloc, reader, depth)?;
        found.push(item)?;
    }
    Ok(found)
}

#[cycle(read)]
#[inline(never)]
fn read_members<'a>(
    alloc: Global,
    reader: &mut Reader<'a>,
    depth: usize,
) -> Result<Vec<(&'a str, Value<'a>)>, Refused>
    ensures ok { IfOk result (λ m. converted (λ ms. of_members ms no_members) (members (value depth) (length reader.old) reader.old)
        ≡ Some (members_view m.items, reader.new)) }
    ensures shorter { OnOk result (length reader.new < length reader.old) }
    ensures err { IsRefusal result
        → converted (λ ms. of_members ms no_members) (members (value depth) (length reader.old) reader.old) ≡ None }
{
    let mut found = Vec::new(alloc);
    'members: while let Some(name) = reader.next_key()? {
        let member = read(alloc, reader, depth)?;
        found.push((name, member))?;
    }
    Ok(found)
}
