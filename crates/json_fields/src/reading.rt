//! A value read off the tokens of a text, in one pass.
ghost use Rattle.std.specs.Prelude.{◌≡◌, ◌<◌, length, Some, None, Err, IfOk, OnOk, option_map};
ghost use Rattle.json.specs.Json.{items, members, value};
ghost use Rattle.serde_json.specs.Data.{no_members, number};
ghost use Rattle.serde_json.specs.Read.{of_json, of_items, of_members, converted, number_of, read as read_text};
ghost use Rattle.json_fields.specs.View.{items_view, members_view, view};

use crate::members::{make_room, put_member};
use crate::numbers::number_of;
use crate::value::{Json, Member};
use json::{Invalid, Reader, Scratch, Token};
use std::alloc::{AllocError, AllocFailed, Global};

/// The most arrays and objects that may stand within one another.
const MAX_DEPTH: usize = 127;

/// Why there is no value.
#[derive(Drop)]
pub(crate) enum Fault {
    /// The text is no JSON, or nests too deep, or has a number that no float is near to.
    NoJson,
    OutOfMemory,
}

impl From<AllocError> for Fault {
    ghost use Rattle.std.specs.Prelude.{◌≡◌};
    ghost use Rattle.json_fields.specs.declared.reading.Fault.TheVariants.{OutOfMemory};

    ghost from_gives = { λ _ fault. fault ≡ OutOfMemory };

    fn from(_: AllocError) -> Fault {
        Fault::OutOfMemory
    }
}

impl<T: Drop> From<AllocFailed<T>> for Fault {
    ghost use Rattle.std.specs.Prelude.{◌≡◌};
    ghost use Rattle.json_fields.specs.declared.reading.Fault.TheVariants.{OutOfMemory};

    ghost from_gives = { λ _ fault. fault ≡ OutOfMemory };

    fn from(_refused: AllocFailed<T>) -> Fault {
        Fault::OutOfMemory
    }
}

impl From<Invalid> for Fault {
    ghost use Rattle.std.specs.Prelude.{◌≡◌};
    ghost use Rattle.json_fields.specs.declared.reading.Fault.TheVariants.{NoJson};

    ghost from_gives = { λ _ fault. fault ≡ NoJson };

    fn from(_: Invalid) -> Fault {
        Fault::NoJson
    }
}

/// The value that a text is.
pub(crate) fn text_value<'t>(
    alloc: Global,
    scratch: &'t mut Scratch,
    text: &'t str,
) -> Result<Json<'t>, Fault>
    ensures ok { IfOk result (λ v. read_text text.now ≡ Some (view v)) }
    ensures err { result ≡ Err Fault.NoJson → read_text text.now ≡ None }
{
    let mut reader = Reader::new(text, scratch)?;
    let value = read(alloc, &mut reader, MAX_DEPTH)?;
    if reader.next().is_some() {
        return Err(Fault::NoJson);
    }
    Ok(value)
}

/// The next value. Arrays and objects may nest as deep as the number says.
#[cycle(read)]
#[inline(always)]
pub(crate) fn read<'t>(
    alloc: Global,
    reader: &mut Reader<'t>,
    depth: usize,
) -> Result<Json<'t>, Fault>
    ensures ok { IfOk result (λ v. converted of_json (value depth reader.old) ≡ Some (view v, reader.new)) }
    ensures shorter { OnOk result (length reader.new < length reader.old) }
    ensures err { result ≡ Err Fault.NoJson → converted of_json (value depth reader.old) ≡ None }
{
    let token = reader.next().ok_or(Fault::NoJson)?;
    match token {
        Token::String(text) => Ok(Json::Text(text)),
        Token::Number(text) => match number_of(text) {
            Some(number) => Ok(number),
            None => Err(Fault::NoJson),
        },
        Token::Bool(truth) => Ok(Json::Bool(truth)),
        Token::Null => Ok(Json::Null),
        Token::EndObject | Token::EndArray | Token::Key(_) | Token::Bad => Err(Fault::NoJson),
        Token::BeginArray => {
            if depth == 0 {
                return Err(Fault::NoJson);
            }
            Ok(Json::Array(read_items(alloc, reader, depth - 1)?))
        }
        Token::BeginObject => {
            if depth == 0 {
                return Err(Fault::NoJson);
            }
            Ok(Json::Object(read_members(alloc, reader, depth - 1)?))
        }
    }
}

#[cycle(read)]
fn read_items<'t>(
    alloc: Global,
    reader: &mut Reader<'t>,
    depth: usize,
) -> Result<Vec<Json<'t>>, Fault>
    ensures ok { IfOk result (λ v. converted of_items (items (value depth) (length reader.old) reader.old) ≡ Some (items_view v.items, reader.new)) }
    ensures shorter { OnOk result (length reader.new < length reader.old) }
    ensures err { result ≡ Err Fault.NoJson → converted of_items (items (value depth) (length reader.old) reader.old) ≡ None }
{
    let mut found = Vec::new(alloc);
    'items: while !reader.take_end_array() {
        let item = read(alloc, reader, depth)?;
        found.push(item)?;
    }
    Ok(found)
}

#[cycle(read)]
fn read_members<'t>(
    alloc: Global,
    reader: &mut Reader<'t>,
    depth: usize,
) -> Result<Vec<Member<'t>>, Fault>
    ensures ok { IfOk result (λ v. converted (λ ms. of_members ms no_members) (members (value depth) (length reader.old) reader.old)
        ≡ Some (members_view v.items, reader.new)) }
    ensures shorter { OnOk result (length reader.new < length reader.old) }
    ensures err { result ≡ Err Fault.NoJson → converted (λ ms. of_members ms no_members) (members (value depth) (length reader.old) reader.old) ≡ None }
{
    let mut found = Vec::new(alloc);
    'members: while let Some(name) = reader.next_key()? {
        make_room(&mut found)?;
        let member = read(alloc, reader, depth)?;
        put_member(&mut found, name, member)?;
    }
    Ok(found)
}
