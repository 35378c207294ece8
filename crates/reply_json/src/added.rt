//! Texts, data, edges and objects, each added behind other bytes as JSON spells it.
ghost use Rattle.std.specs.Prelude.{◌≡◌, ◌∷◌, ◌++◌, Some, length, IfOk, OnOk};
ghost use Rattle.std.specs.Bool.{OnTrue};
ghost use Rattle.json.specs.Print.{escape, quoted};
ghost use Rattle.json.specs.Written.{PlainBetween};
ghost use Rattle.serde_json.specs.Written.{comma_if, compact_text};
ghost use Rattle.reply_json.specs.Reads.{numbered};
ghost use Rattle.reply_json.specs.Values.{edge_data, edges_data, object_data, pairs_data};

use crate::said::otype_name;
use itoa::Buffer;
use json::Writer;
use std::alloc::{AllocError, Global};
use tao_base::{Data, Edge, Object, Pair};
use topology::Config;

/// Adds a text and, behind it, a number.
pub(crate) fn add_numbered(out: &mut Vec<u8>, text: &str, number: u64) -> Result<(), AllocError>
    ensures { OnOk result (out.new.items ≡ out.old.items ++ numbered text.now number) }
{
    let mut buffer = Buffer::new();
    out.extend_from_slice(text.as_bytes())?;
    out.extend_from_slice(buffer.format(number).as_bytes())
}

/// Whether no byte is one that JSON escapes.
fn all_plain(text: &[u8]) -> bool
    ensures { OnTrue result (PlainBetween text.now 0 (length text.now)) }
{
    for &byte in text {
        if byte == b'"' || byte == b'\\' || byte < 0x20 {
            return false;
        }
    }
    true
}

/// Whether JSON spells a text as it stands.
fn is_plain(text: &[u8]) -> bool
    ensures { OnTrue result (escape text.now ≡ text.now) }
{
    all_plain(text)
}

/// A text with its escapes, in quotes.
fn quoted_text(alloc: Global, text: &str) -> Result<Vec<u8>, AllocError>
    ensures { IfOk result (λ bytes. bytes.items ≡ quoted text.now) }
{
    let mut writer = Writer::new(Vec::new(alloc));
    writer.string(text)?;
    Ok(writer.into_inner())
}

/// Adds a text with its escapes, in quotes. Takes memory of its own for it.
fn add_escaped(alloc: Global, out: &mut Vec<u8>, text: &str) -> Result<(), AllocError>
    ensures { OnOk result (out.new.items ≡ out.old.items ++ quoted text.now) }
{
    let bytes = quoted_text(alloc, text)?;
    out.extend_from_slice(bytes.as_slice())
}

/// Adds a text in quotes.
fn add_text(alloc: Global, out: &mut Vec<u8>, text: &str) -> Result<(), AllocError>
    ensures { OnOk result (out.new.items ≡ out.old.items ++ quoted text.now) }
{
    if !is_plain(text.as_bytes()) {
        return add_escaped(alloc, out, text);
    }
    out.push(b'"')?;
    out.extend_from_slice(text.as_bytes())?;
    out.push(b'"')?;
    Ok(())
}

/// Adds a comma, where something stands before.
fn add_comma(out: &mut Vec<u8>, later: bool) -> Result<(), AllocError>
    ensures { OnOk result (out.new.items ≡ out.old.items ++ comma_if later) }
{
    if later {
        out.push(b',')?;
    }
    Ok(())
}

/// Adds a key with its value.
fn add_pair(alloc: Global, out: &mut Vec<u8>, later: bool, pair: &Pair) -> Result<(), AllocError>
    ensures { OnOk result (out.new.items ≡ out.old.items ++ (comma_if later ++ (quoted pair.now.key ++ 58 ∷ quoted pair.now.value))) }
{
    add_comma(out, later)?;
    add_text(alloc, out, pair.key.as_str())?;
    out.push(b':')?;
    add_text(alloc, out, pair.value.as_str())
}

/// Adds data.
fn add_pairs(alloc: Global, out: &mut Vec<u8>, payload: &Data) -> Result<(), AllocError>
    ensures { OnOk result (out.new.items ≡ out.old.items ++ compact_text (pairs_data payload.now)) }
{
    out.push(b'{')?;
    let mut later = false;
    for pair in payload.pairs() {
        add_pair(alloc, out, later, pair)?;
        later = true;
    }
    out.push(b'}')?;
    Ok(())
}

/// Adds an edge.
fn add_edge(alloc: Global, out: &mut Vec<u8>, edge: &Edge) -> Result<(), AllocError>
    ensures { OnOk result (out.new.items ≡ out.old.items ++ compact_text (edge_data edge.now)) }
{
    out.extend_from_slice(b"{\"data\":")?;
    add_pairs(alloc, out, &edge.payload)?;
    add_numbered(out, ",\"id2\":", edge.id2.number())?;
    add_numbered(out, ",\"time\":", edge.time as u64)?;
    out.push(b'}')?;
    Ok(())
}

/// Adds an edge of several.
fn add_one_edge(
    alloc: Global,
    out: &mut Vec<u8>,
    later: bool,
    edge: &Edge,
) -> Result<(), AllocError>
    ensures { OnOk result (out.new.items ≡ out.old.items ++ (comma_if later ++ compact_text (edge_data edge.now))) }
{
    add_comma(out, later)?;
    add_edge(alloc, out, edge)
}

/// Adds edges, in their order.
pub(crate) fn add_edges(alloc: Global, out: &mut Vec<u8>, edges: &[Edge]) -> Result<(), AllocError>
    ensures { OnOk result (out.new.items ≡ out.old.items ++ compact_text (edges_data edges.now)) }
{
    out.push(b'[')?;
    let mut later = false;
    for edge in edges {
        add_one_edge(alloc, out, later, edge)?;
        later = true;
    }
    out.push(b']')?;
    Ok(())
}

/// Adds an object, with the name that the configuration has for its type.
fn add_object(
    alloc: Global,
    out: &mut Vec<u8>,
    config: &Config,
    object: &Object,
) -> Result<(), AllocError>
    ensures { OnOk result (out.new.items ≡ out.old.items ++ compact_text (object_data config.now (Some object.now))) }
{
    out.extend_from_slice(b"{\"data\":")?;
    add_pairs(alloc, out, &object.payload)?;
    out.extend_from_slice(b",\"otype\":")?;
    add_text(alloc, out, otype_name(config, object.otype))?;
    out.push(b'}')?;
    Ok(())
}

/// Adds an object, or `null`.
pub(crate) fn add_maybe_object(
    alloc: Global,
    out: &mut Vec<u8>,
    config: &Config,
    object: &Option<Object>,
) -> Result<(), AllocError>
    ensures { OnOk result (out.new.items ≡ out.old.items ++ compact_text (object_data config.now object.now)) }
{
    match object {
        Some(object) => add_object(alloc, out, config, object),
        None => out.extend_from_slice(b"null"),
    }
}
