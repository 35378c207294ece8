//! What is asked of links.
ghost use Rattle.outcomes.specs.Results.{Gives};
ghost use Rattle.request_check.specs.Refusal.{name_unless_memory};
ghost use Rattle.request_check.specs.Names.{settings};
ghost use Rattle.request_check.specs.Links.{checked_link, link_place};

use crate::kind::NodeKind;
use crate::names::Names;
use crate::refusal::NameError;
use node_name::NodeName;
use requests::{LinkName, LinkRequest};

/// The link from a node to another.
#[derive(Clone, Copy, PartialEq, Eq)]
pub struct LinkPlace {
    pub from: NodeName,
    pub to: NodeName,
}

/// What is asked of a link.
#[derive(Clone, Copy, PartialEq, Eq)]
pub enum CheckedLink {
    Cut(LinkPlace),
    Mend(LinkPlace),
}

pub(crate) fn checked_link(names: &Names<'_>, asked: &LinkRequest) -> Result<CheckedLink, NameError>
    ensures { Gives name_unless_memory result (checked_link (settings names.now) asked.now) }
{
    match asked {
        LinkRequest::Cut(link) => link_place(names, link).map(CheckedLink::Cut),
        LinkRequest::Mend(link) => link_place(names, link).map(CheckedLink::Mend),
    }
}

fn link_place(names: &Names<'_>, link: &LinkName) -> Result<LinkPlace, NameError>
    ensures { Gives name_unless_memory result (link_place (settings names.now) link.now) }
{
    let from = names.node(NodeKind::Any, &link.from)?;
    let to = names.node(NodeKind::Any, &link.to)?;
    Ok(LinkPlace { from, to })
}
