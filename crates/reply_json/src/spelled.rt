//! Values as JSON, written a part at a time.
ghost use Rattle.std.specs.Prelude.{map, option_map};
ghost use Rattle.serde_json.specs.Data.{Data, array};
ghost use Rattle.serde_json.specs.View.{items_of};
ghost use Rattle.reply_json.specs.Json.{fields, given};
ghost use Rattle.reply_json.specs.Writing.{Puts};

use json::Writer;
use std::alloc::AllocError;

/// The bytes that a reply's text has room for from the start: more than those of most replies.
pub(crate) const ROOM: usize = 512;

/// What JSON spells.
pub(crate) trait Spelled {
    ghost value: { Self → Data };

    /// Writes it after what stands there.
    fn put(&self, out: &mut Writer) -> Result<(), AllocError>
        ensures { Puts result out.old out.new (value self.now) };
}

/// Writes an array.
#[tactic(auto, unfolding(crate::specs::Writing::tokens_of))]
pub(crate) fn put_items<T: Spelled>(out: &mut Writer, items: &[T]) -> Result<(), AllocError>
    ensures { Puts result out.old out.new (array (items_of (map T.value items.now))) }
{
    out.begin_array()?;
    for item in items {
        item.put(out)?;
    }
    out.end_array()
}

/// Writes an object of members, which are given in the order of their names.
#[tactic(auto, unfolding(crate::specs::Writing::tokens_of))]
pub(crate) fn put_members<T: Spelled>(
    out: &mut Writer,
    members: &[(&str, T)],
) -> Result<(), AllocError>
    ensures { Puts result out.old out.new (fields (map (λ m. (m.0.now, T.value m.1)) members.now)) }
{
    out.begin_object()?;
    for (name, said) in members {
        out.key(name)?;
        said.put(out)?;
    }
    out.end_object()
}

/// Writes an object of those members that are there.
#[tactic(auto, unfolding(crate::specs::Writing::tokens_of))]
pub(crate) fn put_given<T: Spelled>(
    out: &mut Writer,
    members: &[(&str, Option<T>)],
) -> Result<(), AllocError>
    ensures { Puts result out.old out.new (fields (given (map (λ m. (m.0.now, option_map T.value m.1)) members.now))) }
{
    out.begin_object()?;
    for (name, said) in members {
        if let Some(said) = said {
            out.key(name)?;
            said.put(out)?;
        }
    }
    out.end_object()
}
