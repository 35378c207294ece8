//! Two masters that see each other's logs, while the locks of both are held.
ghost use Rattle.std.specs.Prelude.{◌≡◌, ◌≢◌, ◌≤◌, ◌+◌, IfOk, IsSomeAnd, OnErr, OnOk, Some, if◌then◌else◌, length, slice_get, slice_set};
ghost use Rattle.shard_log.specs.View.{Begins, Grows, View, as_note, most_entries};
ghost use Rattle.shard_tables.specs.declared.store.StoreRole.TheVariants.{Master};
ghost use Rattle.shared_stores.specs.Locked.{entries_seen};

use crate::counted::CountedNote;
use crate::sharing::Sharing;
use crate::store::SharedStore;
use locked_model::learns_keep_locked;
use shard_log::Note;
use shard_tables::{StoreNode, inverses_match};
use tao_base::OutOfMemory;
use tao_keeper::Keeper;
use tao_schema::Schema;

/// A second note of the shard's log, from the one of these that is of that log. `OutOfMemory` where there is none, too.
fn second_of(notes: &mut [CountedNote], shard: u16) -> Result<Note, OutOfMemory>
    ensures same { notes.new ≡ notes.old }
    ensures own { IfOk result (λ note. slice_get notes.old shard ≡ Some note) }
{
    let place = usize::from(shard);
    if place < notes.len() {
        let own = &mut notes[place];
        Ok(own.split()?.into_note())
    } else {
        Err(OutOfMemory)
    }
}

/// A note that sees the whole log of a master of another shard, from the one of these notes that is of that log.
fn whole_of(notes: &mut [CountedNote], store: &mut StoreNode) -> Result<CountedNote, OutOfMemory>
    requires master { store.old.role ≡ Master }
    requires notes { (note : View) → slice_get notes.old store.old.name.shard ≡ Some note → store.old.view.log ≡ note.log }
    ensures notes { notes.new ≡ notes.old }
    ensures same { store.new ≡ store.old }
    ensures whole { IfOk result (λ note. note.entries ≡ store.old.view.entries) }
    ensures grows { IfOk result (λ note. IsSomeAnd (slice_get notes.old store.old.name.shard) (λ own. Grows own note)) }
    ensures few { IfOk result (λ note. length note.entries ≤ most_entries) }
{
    let own = second_of(notes, store.name().shard)?;
    CountedNote::whole(store, own)
}

/// Puts a note in the place of the one of its shard's log.
fn put_note(notes: &mut [CountedNote], shard: u16, note: CountedNote)
    ensures { notes.new ≡ slice_set notes.old shard note }
{
    let place = usize::from(shard);
    if place < notes.len() {
        notes[place] = note;
    }
}

/// Two notes of what a store has seen of another one's log: one for its next look at that, and one to hand out.
#[derive(Drop)]
pub struct Spares {
    pub own: CountedNote,
    pub given: CountedNote,
}

/// Two masters of different shards each see the other's whole log. Answers two notes of what the first one has then seen. Where there is no memory,
/// both are as they were.
pub fn see_each_other<K: Keeper, J: Sharing>(
    schema: &Schema,
    one: &mut SharedStore<K, J>,
    two: &mut SharedStore<K, J>,
) -> Result<Spares, OutOfMemory>
    requires schema { schema.now ≡ J.making.settings.schema }
    requires first { one.old.store.role ≡ Master }
    requires second { two.old.store.role ≡ Master }
    requires apart { one.old.store.name.shard ≢ two.old.store.name.shard }
    ensures one { OnOk result (entries_seen one.new.notes.items two.old.store.name.shard ≡ two.old.store.view.entries) }
    ensures two { OnOk result (entries_seen two.new.notes.items one.old.store.name.shard ≡ one.old.store.view.entries) }
    ensures own { IfOk result (λ spares. slice_get one.new.notes.items two.old.store.name.shard ≡ Some spares.own) }
    ensures given { IfOk result (λ spares. spares.given ≡ spares.own) }
    ensures few { IfOk result (λ spares. length spares.own.entries ≤ most_entries) }
    ensures stores { (one.new.store ≡ one.old.store) × (two.new.store ≡ two.old.store) }
    ensures keepers { (one.new.keeper ≡ one.old.keeper) × (two.new.keeper ≡ two.old.keeper) }
    ensures err { OnErr result ((one.new.notes.items ≡ one.old.notes.items) × (two.new.notes.items ≡ two.old.notes.items)) }
{
    let (here, there) = (one.name().shard, two.name().shard);
    let mut of_two = whole_of(&mut one.notes, &mut two.store)?;
    let of_one = whole_of(&mut two.notes, &mut one.store)?;
    let (own, given) = (of_two.split()?, of_two.split()?);
    inverses_match(schema);
    learns_keep_locked();
    put_note(&mut one.notes, there, of_two);
    put_note(&mut two.notes, here, of_one);
    Ok(Spares { own, given })
}

/// A master that had seen another one's whole log, as its spare notes have, sees it anew, after that gained an entry, or none. Answers the note that is
/// handed out, which then has seen the same. Takes no memory.
pub fn see_gained<K: Keeper, J: Sharing>(
    schema: &Schema,
    near: &mut SharedStore<K, J>,
    far: &mut SharedStore<K, J>,
    spares: Spares,
    gained: bool,
) -> CountedNote
    requires schema { schema.now ≡ J.making.settings.schema }
    requires first { near.old.store.role ≡ Master }
    requires second { far.old.store.role ≡ Master }
    requires apart { near.old.store.name.shard ≢ far.old.store.name.shard }
    requires own { slice_get near.old.notes.items far.old.store.name.shard ≡ Some spares.own }
    requires given { spares.given ≡ spares.own }
    requires few { length spares.own.entries ≤ most_entries }
    requires begins { Begins spares.own.entries far.old.store.view.entries }
    requires gained { length far.old.store.view.entries ≡ length spares.own.entries + (if gained then 1 else 0) }
    requires back { entries_seen far.old.notes.items near.old.store.name.shard ≡ near.old.store.view.entries }
    ensures near { entries_seen near.new.notes.items far.old.store.name.shard ≡ far.old.store.view.entries }
    ensures given { result ≡ as_note far.old.store.view }
    ensures store { near.new.store ≡ near.old.store }
    ensures keeper { near.new.keeper ≡ near.old.keeper }
    ensures far { (far.new.store ≡ far.old.store) × (far.new.keeper ≡ far.old.keeper) × (far.new.notes.items ≡ far.old.notes.items) }
{
    inverses_match(schema);
    learns_keep_locked();
    let there = far.name().shard;
    let Spares { own, given } = spares;
    let own = own.anew(&mut far.store, gained);
    let given = given.anew(&mut far.store, gained);
    put_note(&mut near.notes, there, own);
    given
}
