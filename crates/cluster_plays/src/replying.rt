//! What is replied, as text.
use replies::Reply;
use reply_json::reply_text;
use std::alloc::Global;
use topology::Config;

/// The text of a reply. None for want of memory.
pub fn text_at(alloc: Global, config: &Config, reply: &Reply) -> Option<String> {
    let bytes = reply_text(alloc, config, reply).ok()?;
    String::from_utf8(bytes.into_vec()).ok()
}

/// The text of a reply, which is let go. None for want of memory.
pub fn text_of(alloc: Global, config: &Config, reply: Reply) -> Option<String> {
    let text = text_at(alloc, config, &reply);
    drop(reply);
    text
}
