//! Edges, messages, lengths and data, each as it is spelled.
ghost use Rattle.std.specs.Prelude.{◌≡◌};
ghost use Rattle.reply_json.specs.Json.{whole};
ghost use Rattle.reply_json.specs.Said.{part_value};
ghost use Rattle.reply_json.specs.Values.{edge_data, message_data, pairs_data};
ghost use Rattle.reply_json.specs.Writing.{Puts};

use crate::spelled::{Spelled, put_members};
use json::Writer;
use replies::Message;
use std::alloc::AllocError;
use tao_base::{Data, Edge};

/// A part of an object, an edge or a message.
#[derive(Clone, Copy)]
pub(crate) enum Part<'r> {
    Whole(u64),
    Text(&'r str),
    /// Each key with its value.
    Pairs(&'r Data),
}

impl Spelled for Part<'_> {
    ghost value = { part_value };

    #[tactic(auto, unfolding(crate::specs::Writing::tokens_of))]
    fn put(&self, out: &mut Writer) -> Result<(), AllocError> {
        match self {
            Part::Whole(number) => out.u64(*number),
            Part::Text(text) => out.string(text),
            Part::Pairs(payload) => put_pairs(out, payload),
        }
    }
}

impl Spelled for u64 {
    ghost value = { whole };

    #[tactic(auto, unfolding(crate::specs::Writing::tokens_of))]
    fn put(&self, out: &mut Writer) -> Result<(), AllocError> {
        out.u64(*self)
    }
}

impl Spelled for Message {
    ghost value = { message_data };

    fn put(&self, out: &mut Writer) -> Result<(), AllocError> {
        put_members(
            out,
            &[
                ("position", Part::Whole(self.position)),
                ("shard", Part::Whole(self.shard as u64)),
            ],
        )
    }
}

impl Spelled for Edge {
    ghost value = { edge_data };

    fn put(&self, out: &mut Writer) -> Result<(), AllocError> {
        put_members(
            out,
            &[
                ("data", Part::Pairs(&self.payload)),
                ("id2", Part::Whole(self.id2.number())),
                ("time", Part::Whole(self.time as u64)),
            ],
        )
    }
}

#[tactic(auto, unfolding(crate::specs::Writing::tokens_of))]
fn put_pairs(out: &mut Writer, payload: &Data) -> Result<(), AllocError>
    ensures { Puts result out.old out.new (pairs_data payload.now) }
{
    out.begin_object()?;
    for pair in payload.pairs() {
        out.key(pair.key.as_str())?;
        out.string(pair.value.as_str())?;
    }
    out.end_object()
}
