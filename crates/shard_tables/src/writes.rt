//! The writes of clients to a store.
ghost use Rattle.std.specs.Prelude.{◌≡◌, ◌<◌, IfErr, IfOk, IsSome, IsTrue, MatchResult, None, Some, false};
ghost use Rattle.graph_model.specs.Soundness.{CanFollow, IsSoundOf, is_client, IsNewOrigin};
ghost use Rattle.graph_model.specs.Log.{entry_at};
ghost use Rattle.graph_model.specs.Told.{WhereTold};
ghost use Rattle.tao_base.specs.EdgeTypes.{InversesMatch};
ghost use Rattle.tao_base.specs.Writes.{ChangesType, write_shard};
ghost use Rattle.write_model.specs.Writes.{FitsWrite};
ghost use Rattle.shard_log.specs.View.{as_note, most_entries};
ghost use Rattle.shard_tables.specs.StoreCommits.{CanCommit, HasEntryAt, HasNoCommit, IsOfCommit, IsLiveEntry, IsOtherWrite, IsRetried, OwesJob};
ghost use Rattle.shard_tables.specs.Refusals.{IsOfReads};
ghost use Rattle.shard_tables.specs.Stores.{IsStoreOf, length_of, note_of};
ghost use Rattle.shard_tables.specs.WriteDone.{StoreGains, WriteDone, asked_at};
ghost use Rattle.shard_tables.specs.Written.{made_entry};
ghost use Rattle.shard_tables.specs.declared.store.StoreRole.TheVariants.{Master};
ghost use Rattle.tao_keeper.specs.Given.{HaveSmallStamps};
ghost use Rattle.tao_keeper.specs.Growing.{LogsGrow};
ghost use Rattle.tao_keeper.specs.KeeperState.{CallsKeeper, KeepsTables};
ghost use Rattle.tao_keeper.specs.Table.{Changes, StandsAt, after_commit};
ghost use Rattle.tao_schema.specs.Schema.{types_of};

use super::refusal::StoreRefusal;
use super::store::StoreNode;
use shard_log::Note;
use std::alloc::Global;
use tao_base::{AType, Entry, Origin, StoreName, Touch, Touches, Write};
use tao_keeper::{Commit, Job, KeepFail, Keeper};
use tao_schema::Schema;
use write_fitting::fits;
use write_touches::{far_job, touches_of};

/// What a write did.
#[derive(Drop)]
pub struct Wrote {
    /// The entry of the write; none where nothing was there to change.
    pub entry: Option<Entry>,
    /// Whether the entry was there already: the write was made before.
    pub retry: bool,
    /// What the entry owes to another shard: the job that was opened with it, or for a write that was made before the
    /// one that is still open.
    pub job: Option<Job>,
    /// What the store has of its shard's log after the write, which is all.
    pub note: Note,
}

/// What a write begins with.
#[derive(Drop)]
struct Begun {
    note: Note,
    position: Option<u64>,
}

impl Wrote {
    /// Nothing was there to write.
    pub(crate) fn nothing(note: Note) -> Wrote
        ensures entry { result.entry ≡ None }
        ensures retry { result.retry ≡ false }
        ensures job { result.job ≡ None }
        ensures note { result.note ≡ note }
    {
        Wrote {
            entry: None,
            retry: false,
            job: None,
            note,
        }
    }
}

impl StoreNode {
    /// Makes the write of a client at the shard's master, in the store's epoch: adds its entry to the log, in one transaction.
    /// A write whose origin stands in the log with a live entry is answered with that, and one that finds nothing to change
    /// with none; neither adds anything. A refusal changes no table, and not the log. An entry that is answered is one that
    /// the write could have made, and an object's addition has one, also over a keeper that tells nothing.
    ///
    /// Refused, in this order: a write whose origin stands in the log with an old entry (`TooOld`) or with an
    /// entry of another write (`SeqReused`), an object without a serial (`ShardFull`), an edge without a next
    /// stamp (`StampFull`), an entry for which the log has no room (`LogFull`). `KeeperFault` comes only where
    /// the keeper's count of faults rose, and `OutOfMemory` where there was no memory.
    ///
    /// Costs at most 12 calls of the keeper: one for the origin, and where that stands in the log two for its
    /// entry and its job, or for its entry and the cut. Else one for the object, the last serial or the record
    /// at id1, or two for the records at id1 of both types; one for an object's touch and two for each touch of
    /// an edge, of which there are four at most; and one for the commit.
    pub fn write<M: Keeper>(
        &mut self,
        alloc: Global,
        keeper: &mut M,
        schema: &Schema,
        origin: Origin,
        write: &Write,
    ) -> Result<Wrote, StoreRefusal>
        requires master { self.old.role ≡ Master }
        requires keeper { IsStoreOf M.TELLS (M.state keeper.old).told self.old }
        requires client { IsTrue (is_client origin) }
        requires here { write_shard write.now ≡ self.old.name.shard }
        requires changes { ChangesType (types_of schema.now) write.now }
        requires sound { WhereTold M.TELLS (IsSoundOf (types_of schema.now) self.old.name.shard ((M.state keeper.old).told self.old.name).log) }
        ensures done { WriteDone M.TELLS self.old.name (asked_at (types_of schema.now) (M.state keeper.old).told self.old origin write.now)
            (M.state keeper.old) (M.state keeper.new) result }
        ensures store { StoreGains M.TELLS (M.state keeper.new).told self.old self.new result }
    {
        let begun = self.begin(keeper, origin)?;
        match begun.position {
            Some(position) => write_again(keeper, self.name(), position, write, begun.note),
            None => write_first(alloc, self, keeper, schema, origin, write, begun.note),
        }
    }

    /// A note of all that the store has, and the position of the origin's entry, where one stands in its log.
    fn begin<M: Keeper>(&mut self, keeper: &mut M, origin: Origin) -> Result<Begun, StoreRefusal>
        ensures same { self.new ≡ self.old }
        ensures begun { IfOk result (λ begun. begun.note ≡ note_of self.old) }
        ensures answer { WhereTold M.TELLS (IfOk result (λ begun. StandsAt ((M.state keeper.old).told self.old.name).log origin begun.position)) }
        ensures refusals { IfErr result IsOfReads }
        ensures stays { KeepsTables M.TELLS (M.state keeper.old) (M.state keeper.new) }
        ensures calls { CallsKeeper StoreRefusal.KeeperFault (M.state keeper.old) (M.state keeper.new) result }
    {
        let note = self.note()?;
        let position = keeper.origin(self.name(), origin)?;
        Ok(Begun { note, position })
    }
}

/// The live entry at the position, where it is one that the write could have made.
fn entry_for<M: Keeper>(
    keeper: &mut M,
    at: StoreName,
    position: u64,
    write: &Write,
) -> Result<Entry, StoreRefusal>
    requires stands { WhereTold M.TELLS (IsSome (entry_at ((M.state keeper.old).told at).log position)) }
    ensures answer { WhereTold M.TELLS (MatchResult result (IsLiveEntry ((M.state keeper.old).told at) position)
        (IsOtherWrite ((M.state keeper.old).told at) position write.now)) }
    ensures fits { IfOk result (λ entry. FitsWrite entry write.now) }
    ensures stays { KeepsTables M.TELLS (M.state keeper.old) (M.state keeper.new) }
    ensures calls { CallsKeeper StoreRefusal.KeeperFault (M.state keeper.old) (M.state keeper.new) result }
{
    let found = keeper.entry(at, position)?;
    match found {
        Some(entry) => {
            if fits(&entry, write) {
                Ok(entry)
            } else {
                Err(StoreRefusal::SeqReused { position })
            }
        }
        // It stands in the log, and isn't live.
        None => {
            let cut = keeper.cut_of(at)?;
            Err(StoreRefusal::TooOld { cut, position })
        }
    }
}

/// Answers a write whose origin stands at the position.
fn write_again<M: Keeper>(
    keeper: &mut M,
    at: StoreName,
    position: u64,
    write: &Write,
    note: Note,
) -> Result<Wrote, StoreRefusal>
    requires stands { WhereTold M.TELLS (IsSome (entry_at ((M.state keeper.old).told at).log position)) }
    ensures answer { WhereTold M.TELLS (MatchResult result (HasEntryAt ((M.state keeper.old).told at) position)
        (IsOtherWrite ((M.state keeper.old).told at) position write.now)) }
    ensures retried { IfOk result (IsRetried write.now note) }
    ensures stays { KeepsTables M.TELLS (M.state keeper.old) (M.state keeper.new) }
    ensures calls { CallsKeeper StoreRefusal.KeeperFault (M.state keeper.old) (M.state keeper.new) result }
{
    let entry = entry_for(keeper, at, position, write)?;
    let job = keeper.job(at, position)?;
    Ok(Wrote {
        entry: Some(entry),
        retry: true,
        job,
        note,
    })
}

/// Each type of a schema is the inverse of its inverse, as the schema says with each inverse that it gives.
pub fn inverses_match(schema: &Schema)
    ensures { InversesMatch (types_of schema.now) }
{
    let _inverse = schema.inverse(AType(0));
}

/// Adds what is committed to the keeper's log, with its job, and then to the master's log, or to neither. The note then sees
/// the whole log.
pub fn add_entry<M: Keeper>(
    store: &mut StoreNode,
    keeper: &mut M,
    commit: Commit,
    note: Note,
) -> Result<Wrote, StoreRefusal>
    requires master { store.old.role ≡ Master }
    requires note { note ≡ as_note store.old.view }
    requires keeper { IsStoreOf M.TELLS (M.state keeper.old).told store.old }
    requires can { CanCommit store.old commit }
    requires follows { WhereTold M.TELLS (CanFollow ((M.state keeper.old).told store.old.name).log commit.entry) }
    ensures wrote { IfOk result (IsOfCommit commit) }
    ensures refusals { IfErr result IsOfReads }
    ensures store { StoreGains M.TELLS (M.state keeper.new).told store.old store.new result }
    ensures tables { WhereTold M.TELLS (Changes result (M.state keeper.old).told (M.state keeper.new).told store.old.name
        (after_commit ((M.state keeper.old).told store.old.name) commit.entry commit.job)) }
    ensures logs { LogsGrow M.TELLS (M.state keeper.old).told (M.state keeper.new).told }
    ensures calls { CallsKeeper StoreRefusal.KeeperFault (M.state keeper.old) (M.state keeper.new) result }
{
    keeper.commit(store.name(), &commit)?;
    store.append(&commit.entry);
    Ok(Wrote {
        entry: Some(commit.entry),
        retry: false,
        job: commit.job,
        note: store.renew(note),
    })
}

/// The entry of a write that follows so many entries.
fn entry_of(length: u64, origin: Origin, write: &Write, touches: Vec<Touch>) -> Entry
    requires { length < most_entries }
    ensures { result ≡ made_entry length origin write.now touches.items }
{
    Entry {
        position: length + 1,
        kind: write.kind(),
        origin,
        touches: Touches::of(touches),
    }
}

/// What a write with these touches commits: its entry, where the log has room for it, with the job that it owes.
fn write_commit(
    alloc: Global,
    store: &StoreNode,
    schema: &Schema,
    origin: Origin,
    write: &Write,
    touches: Vec<Touch>,
) -> Result<Commit, StoreRefusal>
    requires master { store.now.role ≡ Master }
    requires stamps { HaveSmallStamps touches.items }
    ensures entry { IfOk result (λ commit. commit.entry ≡ made_entry (length_of store.now) origin write.now touches.items) }
    ensures job { IfOk result (OwesJob (types_of schema.now)) }
    ensures can { IfOk result (CanCommit store.now) }
    ensures room { IfOk result (λ _. length_of store.now < store.now.log_max) }
    ensures refusals { IfErr result (HasNoCommit store.now) }
{
    let length = store.room()?;
    let entry = entry_of(length, origin, write, touches);
    let job = far_job(alloc, schema, &entry)?;
    Ok(Commit { entry, job })
}

/// Makes a write whose origin doesn't stand in the log. The note has seen the whole log before.
fn write_first<M: Keeper>(
    alloc: Global,
    store: &mut StoreNode,
    keeper: &mut M,
    schema: &Schema,
    origin: Origin,
    write: &Write,
    note: Note,
) -> Result<Wrote, StoreRefusal>
    requires master { store.old.role ≡ Master }
    requires note { note ≡ as_note store.old.view }
    requires keeper { IsStoreOf M.TELLS (M.state keeper.old).told store.old }
    requires here { write_shard write.now ≡ store.old.name.shard }
    requires changes { ChangesType (types_of schema.now) write.now }
    requires sound { WhereTold M.TELLS (IsSoundOf (types_of schema.now) store.old.name.shard ((M.state keeper.old).told store.old.name).log) }
    requires new { WhereTold M.TELLS (IsNewOrigin ((M.state keeper.old).told store.old.name).log origin) }
    ensures done { WriteDone M.TELLS store.old.name (asked_at (types_of schema.now) (M.state keeper.old).told store.old origin write.now)
        (M.state keeper.old) (M.state keeper.new) result }
    ensures store { StoreGains M.TELLS (M.state keeper.new).told store.old store.new result }
{
    inverses_match(schema);
    let touches = touches_of(alloc, keeper, store.name(), schema, store.epoch(), write)?;
    if touches.is_empty() {
        return Ok(Wrote::nothing(note));
    }
    let commit = write_commit(alloc, store, schema, origin, write, touches)?;
    add_entry(store, keeper, commit, note)
}
