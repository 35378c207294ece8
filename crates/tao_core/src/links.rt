//! What is asked of links.
ghost use Rattle.tao_core.specs.Core.{CoreState, moment};
ghost use Rattle.tao_core.specs.LinkReplies.{AnswersLink, AnswersSwitch};
ghost use Rattle.tao_keeper.specs.KeeperState.{KeeperState};

use replies::{NodeReply, Reply};
use request_check::{CheckedLink, LinkPlace};
use store_replies::out_of_memory;
use tao_base::OutOfMemory;
use tao_link::Link;
use words::LinkWord;

/// Does what is asked of a link.
pub(crate) fn perform_link<L: Link>(link: &mut L, asked: CheckedLink) -> Reply
    ensures { (core : CoreState) (keepers : KeeperState) → AnswersLink asked (moment core keepers (L.shown link.old)) result
        (moment core keepers (L.shown link.new)) }
{
    match asked {
        CheckedLink::Cut(place) => switch(link, LinkWord::Cut, place, false),
        CheckedLink::Mend(place) => switch(link, LinkWord::Mend, place, true),
    }
}

/// Asks a link to cut one direction between two nodes, or to mend it.
fn switch<L: Link>(link: &mut L, word: LinkWord, place: LinkPlace, whole: bool) -> Reply
    ensures { (core : CoreState) (keepers : KeeperState) → AnswersSwitch word whole place (moment core keepers (L.shown link.old)) result
        (moment core keepers (L.shown link.new)) }
{
    match link.switch(place.from, place.to, whole) {
        Ok(()) => Reply::Node(NodeReply::Link { word }),
        Err(OutOfMemory) => out_of_memory(),
    }
}
