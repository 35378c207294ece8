//! The pen's step. A table can't be told an entry, so a ghost name carries it.
ghost use Rattle.std.specs.Prelude.{◌≡◌, ◌<◌, ◌++◌, ◌∷◌, [], length};
ghost use Rattle.graph_model.specs.Soundness.{CanFollow};
ghost use Rattle.graph_model.specs.Told.{WhereTold};
ghost use Rattle.shard_log.specs.View.{most_entries};
ghost use Rattle.shard_log.specs.declared.rule.Role.TheVariants.{Writes};

use crate::rule::{Board, Place, Seen};
use atomic_table::Play;
use std::marker::{Brand, PhantomData};
use tao_base::Entry;

/// Which entry is added. Each call picks it.
pub(crate) trait Adding {
    ghost use Rattle.tao_base.specs.declared.entry.Entry.{Entry};

    ghost entry: { Entry };
}

impl Adding for Brand {
    ghost use Rattle.shard_log.specs.Rule.{no_entry};

    ghost entry = { no_entry };
}

struct Adds<J> {
    of: PhantomData<J>,
}

impl<J: Adding> Play<(), Seen> for Adds<J> {
    ghost use Rattle.shard_log.specs.Rule.{Adds};

    ghost then = { Adds J.entry };
}

/// The pen's view and the log get the entry in one step, a fetch_add on the length.
#[tactic(auto, using(crate::proofs::Steps::adds))]
pub(crate) fn append<J: Adding>(board: &Board, place: &mut Place, entry: &Entry)
    requires entry { entry.now ≡ J.entry }
    requires table { (place.old.table_id ≡ board.now.shared.table_id) × (0 < board.now.shared.table_id.words) }
    requires pen { (place.old.me.0.role ≡ Writes) × (place.old.me.0.met ≡ []) }
    requires room { length place.old.me.0.entries < most_entries }
    requires follows { WhereTold place.old.me.0.told (CanFollow place.old.me.0.entries J.entry) }
    ensures table { place.new.table_id ≡ place.old.table_id }
    ensures seat { place.new.me ≡ (record (place.old.me.0) { entries = place.old.me.0.entries ++ J.entry ∷ [] }, place.old.me.1) }
{
    let _ = entry;
    board.shared.fetch_add::<Adds<J>>(place, 0, 1);
}
