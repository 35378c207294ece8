//! Refusals: each is told by its name, and by what it is about.
ghost use Rattle.std.specs.Prelude.{◌≡◌};
ghost use Rattle.reply_json.specs.Refusals.{about_name, about_number, is_master, line_refused, link_fault, name_refused, no_such_entry, node_down, too_old};
ghost use Rattle.reply_json.specs.Refusals.{node_refused, number_about, plan_refused, refusal_data, session_refused, store_refused, when_position};
ghost use Rattle.reply_json.specs.Writing.{Puts};

use crate::said::Said;
use crate::spelled::put_members;
use crate::texts::{unsettled_text, when_text};
use json::Writer;
use replies::{
    LineRefused, NameRefused, NodeRefused, PlanRefused, Refusal, SessionRefused, StoreRefused, When,
};
use std::alloc::{AllocError, Global};
use topology::Config;

pub(crate) fn put_refusal(
    alloc: Global,
    out: &mut Writer,
    config: &Config,
    refusal: &Refusal,
) -> Result<(), AllocError>
    ensures { Puts result out.old out.new (refusal_data config.now refusal.now) }
{
    match refusal {
        Refusal::Line(refused) => put_line_refused(out, refused),
        Refusal::Plan(refused) => put_plan_refused(out, refused),
        Refusal::Session(refused) => put_session_refused(out, refused),
        Refusal::Name(refused) => put_name_refused(out, refused),
        Refusal::Node(refused) => put_node_refused(alloc, out, config, refused),
        Refusal::Store(refused) => put_store_refused(out, refused),
        Refusal::Memory { position } => put_about_number(out, "memory", "position", *position),
    }
}

fn put_line_refused(out: &mut Writer, refused: &LineRefused) -> Result<(), AllocError>
    ensures { Puts result out.old out.new (line_refused refused.now) }
{
    match refused {
        LineRefused::BadLine { field } => {
            put_members(
                out,
                &[
                    ("field", Said::Text(field.as_str())),
                    ("no", Said::Text("bad_line")),
                ],
            )
        }
        LineRefused::TooLarge { bytes, pairs } => {
            put_members(
                out,
                &[
                    ("bytes", Said::Whole(*bytes)),
                    ("no", Said::Text("too_large")),
                    ("pairs", Said::Whole(*pairs)),
                ],
            )
        }
        LineRefused::NotHere { word } => {
            put_members(
                out,
                &[
                    ("do", Said::Text(word.text())),
                    ("no", Said::Text("not_here")),
                ],
            )
        }
    }
}

fn put_plan_refused(out: &mut Writer, refused: &PlanRefused) -> Result<(), AllocError>
    ensures { Puts result out.old out.new (plan_refused refused.now) }
{
    match refused {
        PlanRefused::NoPlan { plan } => put_about_number(out, "no_plan", "plan", *plan as u64),
        PlanRefused::PlanThere { plan } => put_about_number(
            out,
            "plan_there",
            "plan",
            *plan as u64,
        ),
        PlanRefused::PlanFull { plans } => put_about_number(out, "plan_full", "plans", *plans),
    }
}

fn put_session_refused(out: &mut Writer, refused: &SessionRefused) -> Result<(), AllocError>
    ensures { Puts result out.old out.new (session_refused refused.now) }
{
    match refused {
        SessionRefused::NoSession { session } => put_about_number(
            out,
            "no_session",
            "session",
            *session as u64,
        ),
        SessionRefused::SessionThere { session } => put_about_number(
            out,
            "session_there",
            "session",
            *session as u64,
        ),
        SessionRefused::SessionFull { sessions } => put_about_number(
            out,
            "session_full",
            "sessions",
            *sessions,
        ),
    }
}

fn put_name_refused(out: &mut Writer, refused: &NameRefused) -> Result<(), AllocError>
    ensures { Puts result out.old out.new (name_refused refused.now) }
{
    match refused {
        NameRefused::NoTier { name } => put_about_name(out, "no_tier", name.as_str()),
        NameRefused::NoNode { name } => put_about_name(out, "no_node", name.as_str()),
        NameRefused::UnknownType { name } => put_about_name(out, "unknown_type", name.as_str()),
        NameRefused::NoShard { shard } => put_about_number(out, "no_shard", "shard", *shard as u64),
        NameRefused::SameType { name } => put_about_name(out, "same_type", name.as_str()),
        NameRefused::Limit { bound, count } => {
            put_members(
                out,
                &[
                    ("bound", Said::Whole(*bound)),
                    ("count", Said::Whole(*count)),
                    ("no", Said::Text("limit")),
                ],
            )
        }
    }
}

fn put_about_name(out: &mut Writer, word: &str, name: &str) -> Result<(), AllocError>
    ensures { Puts result out.old out.new (about_name word.now name.now) }
{
    put_members(out, &[("name", Said::Text(name)), ("no", Said::Text(word))])
}

/// A word, and a number whose name comes behind `no` in the order of names.
fn put_about_number(out: &mut Writer, word: &str, name: &str, number: u64) -> Result<(), AllocError>
    ensures { Puts result out.old out.new (about_number word.now name.now number) }
{
    put_members(
        out,
        &[("no", Said::Text(word)), (name, Said::Whole(number))],
    )
}

/// A number whose name comes before `no` in the order of names, and a word.
fn put_number_about(out: &mut Writer, name: &str, number: u64, word: &str) -> Result<(), AllocError>
    ensures { Puts result out.old out.new (number_about name.now number word.now) }
{
    put_members(
        out,
        &[(name, Said::Whole(number)), ("no", Said::Text(word))],
    )
}

fn put_node_refused(
    alloc: Global,
    out: &mut Writer,
    config: &Config,
    refused: &NodeRefused,
) -> Result<(), AllocError>
    ensures { Puts result out.old out.new (node_refused config.now refused.now) }
{
    match refused {
        NodeRefused::NoMessage { message } => put_number_about(
            out,
            "message",
            *message as u64,
            "no_message",
        ),
        NodeRefused::NoRefill { node } => {
            let node = config.node_text(alloc, *node)?;
            put_members(
                out,
                &[
                    ("no", Said::Text("no_refill")),
                    ("node", Said::Text(node.as_str())),
                ],
            )
        }
        NodeRefused::IsMaster { store } => {
            put_is_master(out, config.region_name(store.region), store.shard)
        }
        NodeRefused::NoEntry { length, position } => put_no_entry(out, *length, *position),
        NodeRefused::NoServer { region } => {
            put_about_name(out, "no_server", config.region_name(*region))
        }
        NodeRefused::NodeDown { node, when } => {
            let name = config.node_text(alloc, *node)?;
            put_node_down(out, name.as_str(), *when)
        }
    }
}

fn put_is_master(out: &mut Writer, region: &str, shard: u16) -> Result<(), AllocError>
    ensures { Puts result out.old out.new (is_master region.now shard) }
{
    put_members(
        out,
        &[
            ("no", Said::Text("is_master")),
            ("region", Said::Text(region)),
            ("shard", Said::Whole(shard as u64)),
        ],
    )
}

fn put_no_entry(out: &mut Writer, length: u64, position: u64) -> Result<(), AllocError>
    ensures { Puts result out.old out.new (no_such_entry length position) }
{
    put_members(
        out,
        &[
            ("length", Said::Whole(length)),
            ("no", Said::Text("no_entry")),
            ("position", Said::Whole(position)),
        ],
    )
}

fn put_node_down(out: &mut Writer, name: &str, when: When) -> Result<(), AllocError>
    ensures { Puts result out.old out.new (node_down name.now when) }
{
    let word = when_text(when);
    put_members(
        out,
        &[
            ("name", Said::Text(name)),
            ("no", Said::Text("node_down")),
            ("position", Said::Whole(when_position(when))),
            ("when", Said::Text(word)),
        ],
    )
}

fn put_store_refused(out: &mut Writer, refused: &StoreRefused) -> Result<(), AllocError>
    ensures { Puts result out.old out.new (store_refused refused.now) }
{
    match refused {
        StoreRefused::TooOld { cut, position } => put_too_old(out, *cut, *position),
        StoreRefused::SeqReused { position } => put_about_number(
            out,
            "seq_reused",
            "position",
            *position,
        ),
        StoreRefused::ShardFull { serial } => put_about_number(
            out,
            "shard_full",
            "serial",
            *serial,
        ),
        StoreRefused::StampFull { number } => put_about_number(
            out,
            "stamp_full",
            "number",
            *number,
        ),
        StoreRefused::LogFull { length } => put_number_about(out, "length", *length, "log_full"),
        StoreRefused::KeeperFault { count } => put_number_about(
            out,
            "count",
            *count,
            "keeper_fault",
        ),
        StoreRefused::LinkFault { count, when } => put_link_fault(out, *count, *when),
        StoreRefused::Unsettled { shard, why } => {
            put_members(
                out,
                &[
                    ("no", Said::Text("unsettled")),
                    ("shard", Said::Whole(*shard as u64)),
                    ("why", Said::Text(unsettled_text(*why))),
                ],
            )
        }
    }
}

fn put_too_old(out: &mut Writer, cut: u64, position: u64) -> Result<(), AllocError>
    ensures { Puts result out.old out.new (too_old cut position) }
{
    put_members(
        out,
        &[
            ("cut", Said::Whole(cut)),
            ("no", Said::Text("too_old")),
            ("position", Said::Whole(position)),
        ],
    )
}

fn put_link_fault(out: &mut Writer, count: u64, when: When) -> Result<(), AllocError>
    ensures { Puts result out.old out.new (link_fault count when) }
{
    put_members(
        out,
        &[
            ("count", Said::Whole(count)),
            ("no", Said::Text("link_fault")),
            ("position", Said::Whole(when_position(when))),
            ("when", Said::Text(when_text(when))),
        ],
    )
}

/// The position of the committed entry, 0 before.
fn when_position(when: When) -> u64
    ensures { result ≡ when_position when }
{
    match when {
        When::Before => 0,
        When::After { position } => position,
    }
}
