//! What the members of a reply's line say.
ghost use Rattle.std.specs.Prelude.{◌≡◌, option_map};
ghost use Rattle.reply_json.specs.Said.{object_value, said_value};
ghost use Rattle.reply_json.specs.Values.{answer_data, answer_name, count_said, edges_said, object_data, object_said, otype_name};
ghost use Rattle.reply_json.specs.Writing.{Puts};

use crate::spelled::{Spelled, put_items, put_members};
use crate::values::Part;
use json::Writer;
use replies::Message;
use std::alloc::AllocError;
use tao_base::{Answer, Data, Edge, OType, Object};
use topology::Config;

/// What a member of a reply's line says.
#[derive(Clone, Copy)]
pub(crate) enum Said<'r> {
    Flag(bool),
    Whole(u64),
    Text(&'r str),
    /// None is spelled `null`.
    Object(Option<ObjectSaid<'r>>),
    Edges(&'r [Edge]),
    Lengths(&'r [u64]),
    Messages(&'r [Message]),
}

/// An object, with the name of its type.
#[derive(Clone, Copy)]
pub(crate) struct ObjectSaid<'r> {
    pub payload: &'r Data,
    pub otype: &'r str,
}

impl Spelled for Said<'_> {
    ghost value = { said_value };

    #[tactic(auto, unfolding(crate::specs::Writing::tokens_of))]
    fn put(&self, out: &mut Writer) -> Result<(), AllocError> {
        match self {
            Said::Flag(flag) => out.boolean(*flag),
            Said::Whole(number) => out.u64(*number),
            Said::Text(text) => out.string(text),
            Said::Object(None) => out.null(),
            Said::Object(Some(object)) => put_object(out, object),
            Said::Edges(edges) => put_items(out, edges),
            Said::Lengths(lengths) => put_items(out, lengths),
            Said::Messages(messages) => put_items(out, messages),
        }
    }
}

fn put_object(out: &mut Writer, object: &ObjectSaid<'_>) -> Result<(), AllocError>
    ensures { Puts result out.old out.new (object_value object.now) }
{
    put_members(
        out,
        &[
            ("data", Part::Pairs(object.payload)),
            ("otype", Part::Text(object.otype)),
        ],
    )
}

/// The name that the configuration has for an object type.
pub(crate) fn otype_name(config: &Config, otype: OType) -> &str
    ensures { result.now ≡ otype_name config.now otype }
{
    config.schema.otype_name(otype)
}

/// The object, with the name that the configuration has for its type.
pub(crate) fn said_object<'r>(config: &'r Config, object: &'r Option<Object>) -> Said<'r>
    ensures { said_value result ≡ object_data config.now object.now }
{
    match object {
        Some(object) => {
            Said::Object(Some(ObjectSaid {
                payload: &object.payload,
                otype: otype_name(config, object.otype),
            }))
        }
        None => Said::Object(None),
    }
}

pub(crate) fn said_answer<'r>(config: &'r Config, answer: &'r Answer) -> Said<'r>
    ensures { said_value result ≡ answer_data config.now answer.now }
{
    match answer {
        Answer::Object(object) => said_object(config, object),
        Answer::Edges(edges) => Said::Edges(edges.as_slice()),
        Answer::Count(count) => Said::Whole(*count),
    }
}

/// What is said of an answer that is a number.
pub(crate) fn count_said<'r>(answer: &'r Answer) -> Option<Said<'r>>
    ensures { option_map said_value result ≡ count_said answer.now }
{
    match answer {
        Answer::Count(count) => Some(Said::Whole(*count)),
        _ => None,
    }
}

/// What is said of an answer of edges.
pub(crate) fn edges_said<'r>(answer: &'r Answer) -> Option<Said<'r>>
    ensures { option_map said_value result ≡ edges_said answer.now }
{
    match answer {
        Answer::Edges(edges) => Some(Said::Edges(edges.as_slice())),
        _ => None,
    }
}

/// What is said of an answer that is an object, or none.
pub(crate) fn object_said<'r>(config: &'r Config, answer: &'r Answer) -> Option<Said<'r>>
    ensures { option_map said_value result ≡ object_said config.now answer.now }
{
    match answer {
        Answer::Object(object) => Some(said_object(config, object)),
        _ => None,
    }
}

/// What an answer stands under.
pub(crate) fn answer_name(answer: &Answer) -> &'static str
    ensures { result.now ≡ answer_name answer.now }
{
    match answer {
        Answer::Object(_) => "object",
        Answer::Edges(_) => "edges",
        Answer::Count(_) => "count",
    }
}
