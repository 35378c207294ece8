//! The requests about links: the fields of each, in their order.
ghost use Rattle.outcomes.specs.Results.{Gives};
ghost use Rattle.request_json.specs.Refusal.{unless_memory};
ghost use Rattle.request_json.specs.Fields.{said};
ghost use Rattle.request_json.specs.Links.{ends_of, link_of};

use crate::fields::Fields;
use crate::refusal::LineRefusal;
use requests::{LinkName, LinkRequest};
use words::LinkWord;

pub(crate) fn link_of(word: LinkWord, fields: &Fields<'_, '_>) -> Result<LinkRequest, LineRefusal>
    ensures { Gives unless_memory result (link_of word (said fields.now)) }
{
    match word {
        LinkWord::Cut => ends_of(fields).map(LinkRequest::Cut),
        LinkWord::Mend => ends_of(fields).map(LinkRequest::Mend),
    }
}

fn ends_of(fields: &Fields<'_, '_>) -> Result<LinkName, LineRefusal>
    ensures { Gives unless_memory result (ends_of (said fields.now)) }
{
    let link = LinkName {
        from: fields.text("from")?,
        to: fields.text("to")?,
    };
    fields.only(&["do", "from", "to"])?;
    Ok(link)
}
