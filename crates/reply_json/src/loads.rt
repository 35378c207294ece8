//! The line of a load.
ghost use Rattle.std.specs.Prelude.{◌≡◌, IfOk, map};
ghost use Rattle.serde_json.specs.Written.{compact_text};
ghost use Rattle.reply_json.specs.Json.{fields};
ghost use Rattle.reply_json.specs.Loads.{bad_load_text, load_text};
ghost use Rattle.reply_json.specs.OneLine.{IsOneLine};
ghost use Rattle.reply_json.specs.Said.{said_value};

use crate::said::Said;
use crate::spelled::put_members;
use json::Writer;
use std::alloc::Global;
use tao_base::{Bytes, OutOfMemory};

/// The text of an object of members, which are given in the order of their names.
fn text_of(alloc: Global, members: &[(&str, Said<'_>)]) -> Result<Bytes, OutOfMemory>
    ensures text { IfOk result (λ bytes. bytes ≡ compact_text (fields (map (λ m. (m.0.now, said_value m.1)) members.now))) }
    ensures one_line { IfOk result IsOneLine }
{
    let mut out = Writer::new(Vec::new(alloc));
    put_members(&mut out, members)?;
    Ok(Bytes::of(out.into_inner()))
}

/// The text that tells what came of a load: how many live edges the settled logs have, how long each of them is, and how many calls were
/// refused. Takes time and memory in the number of logs.
pub fn load_text(
    alloc: Global,
    edges: u64,
    logs: &[u64],
    refused: u64,
) -> Result<Bytes, OutOfMemory>
    ensures text { IfOk result (λ bytes. bytes ≡ load_text edges logs.now refused) }
    ensures one_line { IfOk result IsOneLine }
{
    text_of(
        alloc,
        &[
            ("edges", Said::Whole(edges)),
            ("logs", Said::Lengths(logs)),
            ("ok", Said::Text("load")),
            ("refused", Said::Whole(refused)),
        ],
    )
}

/// The text that tells of a load that came to no good end.
pub fn bad_load_text(alloc: Global) -> Result<Bytes, OutOfMemory>
    ensures text { IfOk result (λ bytes. bytes ≡ bad_load_text) }
    ensures one_line { IfOk result IsOneLine }
{
    text_of(alloc, &[("bad", Said::Text("load"))])
}
