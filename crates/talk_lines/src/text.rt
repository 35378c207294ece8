//! The text of the reply to a batch.
ghost use Rattle.std.specs.Prelude.{◌≡◌, ◌++◌, IfOk, OnOk};
ghost use Rattle.reply_json.specs.OneLine.{IsOneLine};
ghost use Rattle.reply_json.specs.Reply.{reply_text};
ghost use Rattle.talk_lines.specs.BatchText.{after_comma, after_commas, batch_text, with_commas};

use replies::Reply;
use reply_json::reply_text;
use std::alloc::Global;
use tao_base::{Bytes, OutOfMemory};
use topology::Config;

/// The text of the reply to a batch: JSON with no space, the batch's replies in their order, and no line feed at its end. Takes time and memory in the length
/// of the text.
#[tactic(auto, using(crate::proofs::TextLemmas::one_line_then))]
pub fn batch_text(alloc: Global, config: &Config, replies: &[Reply]) -> Result<Bytes, OutOfMemory>
    ensures text { IfOk result (λ bytes. bytes ≡ batch_text config.now replies.now) }
    ensures one_line { IfOk result IsOneLine }
{
    let mut text = Vec::new(alloc);
    text.extend_from_slice(b"{\"ok\":\"batch\",\"replies\":[")?;
    put_replies(alloc, &mut text, config, replies)?;
    text.extend_from_slice(b"]}")?;
    Ok(Bytes::of(text))
}

/// Puts the texts of replies, with a comma between each two.
#[tactic(auto, using(crate::proofs::TextLemmas::one_line_then))]
fn put_replies(
    alloc: Global,
    text: &mut Vec<u8>,
    config: &Config,
    replies: &[Reply],
) -> Result<(), OutOfMemory>
    ensures text { OnOk result (text.new.items ≡ text.old.items ++ with_commas config.now replies.now) }
    ensures one_line { OnOk result (IsOneLine text.old.items → IsOneLine text.new.items) }
{
    match replies.split_first() {
        Some((first, others)) => {
            put_reply(alloc, text, config, first)?;
            put_others(alloc, text, config, others)
        }
        None => Ok(()),
    }
}

/// Puts the texts of replies, each behind a comma.
#[tactic(auto, using(crate::proofs::TextLemmas::others_then))]
fn put_others(
    alloc: Global,
    text: &mut Vec<u8>,
    config: &Config,
    others: &[Reply],
) -> Result<(), OutOfMemory>
    ensures text { OnOk result (text.new.items ≡ text.old.items ++ after_commas config.now others.now) }
    ensures one_line { OnOk result (IsOneLine text.old.items → IsOneLine text.new.items) }
{
    for other in others {
        put_after_comma(alloc, text, config, other)?;
    }
    Ok(())
}

/// Puts the text of a reply behind a comma.
#[tactic(auto, using(crate::proofs::TextLemmas::comma_then, crate::proofs::TextLemmas::one_line_comma))]
fn put_after_comma(
    alloc: Global,
    text: &mut Vec<u8>,
    config: &Config,
    reply: &Reply,
) -> Result<(), OutOfMemory>
    ensures text { OnOk result (text.new.items ≡ text.old.items ++ after_comma config.now reply.now) }
    ensures one_line { OnOk result (IsOneLine text.old.items → IsOneLine text.new.items) }
{
    text.push(b',')?;
    put_reply(alloc, text, config, reply)?;
    Ok(())
}

/// Puts the text of a reply.
#[tactic(auto, using(crate::proofs::TextLemmas::one_line_then))]
fn put_reply(
    alloc: Global,
    text: &mut Vec<u8>,
    config: &Config,
    reply: &Reply,
) -> Result<(), OutOfMemory>
    ensures text { OnOk result (text.new.items ≡ text.old.items ++ reply_text config.now reply.now) }
    ensures one_line { OnOk result (IsOneLine text.old.items → IsOneLine text.new.items) }
{
    let said = reply_text(alloc, config, reply)?;
    text.extend_from_slice(said.as_slice())?;
    Ok(())
}
