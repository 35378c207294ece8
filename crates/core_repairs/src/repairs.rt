//! A repair: a shard's first open job is merged from store to store and then ended.
ghost use Rattle.std.specs.Prelude.{◌≡◌, ◌<◌, IfErr, IfOk, IfSome};
ghost use Rattle.core_steps.specs.core_mail.Inboxes.{AreInboxesOf};
ghost use Rattle.core_model.specs.Consistent.{IsConsistent};
ghost use Rattle.core_model.specs.Jobs.{IsOwedJob, far_shard, job_on};
ghost use Rattle.core_model.specs.Pens.{pens_of};
ghost use Rattle.core_model.specs.States.{AreStatesOf};
ghost use Rattle.core_model.specs.Stores.{AreStores, store_count};
ghost use Rattle.core_steps.specs.core_nodes.Outside.{outside};
ghost use Rattle.core_steps.specs.Posting.{CanPost, PostsOn};
ghost use Rattle.core_steps.specs.World.{world};
ghost use Rattle.core_repairs.specs.Repairs.{FailsAs, FindsFirst, RepairsFirst, RunsJob, NotifiesOfRepair, refused_for};
ghost use Rattle.graph_model.specs.Told.{WhereTold};
ghost use Rattle.shard_log.specs.View.{as_note};
ghost use Rattle.shard_tables.specs.Refusals.{IsOfReads};
ghost use Rattle.shard_tables.specs.Written.{LiesOn, StandsIn};
ghost use Rattle.tao_keeper.specs.Given.{IsGivenJob};
ghost use Rattle.tao_keeper.specs.KeeperState.{IsLater, KeepsTables};

use core_model::{ShardJob, far_shard, masters_are_regions};
use core_steps::Nodes;
use core_steps::core_nodes::Fleet;
use edge_repair::{RepairRefusal, passed_on};
use replies::{NodeRefused, Refusal, StoreRefused, When};
use shard_log::Note;
use shard_tables::StoreRefusal;
use store_replies::{link_fault, refused_as};
use tao_base::{Entry, OutOfMemory};
use tao_keeper::{Job, Keeper};
use tao_link::Link;
use topology::Config;

/// A job that was run, and the entry that merged it; none where all of its records were at the other end.
#[derive(Drop)]
pub struct Ran {
    pub job: Job,
    pub wrote: Option<Entry>,
}

/// How it is told why a job was not run, where the keepers and the link have counted so many faults.
fn refused_for(refusal: RepairRefusal, keeper_faults: u64, link_faults: u64) -> Refusal
    ensures { result ≡ refused_for keeper_faults link_faults refusal }
{
    match refusal {
        RepairRefusal::KeeperFault => Refusal::Store(StoreRefused::KeeperFault {
            count: keeper_faults,
        }),
        RepairRefusal::LinkFault => link_fault(link_faults, When::Before),
        RepairRefusal::LogFull { length } => Refusal::Store(StoreRefused::LogFull { length }),
        RepairRefusal::OutOfMemory => Refusal::Memory { position: 0 },
    }
}

/// A note of a shard's log, taken before a repair writes there, for those who are to be notified of it.
fn note_before(fleet: &mut Fleet, config: &Config, shard: u16) -> Result<Note, Refusal>
    requires stores { AreStores config.now (store_count config.now) fleet.old.stores }
    requires here { shard < config.now.shards }
    ensures note { IfOk result (λ note. note ≡ as_note (pens_of fleet.old.stores shard)) }
    ensures refused { IfErr result (λ refusal. refusal ≡ Refusal.Memory 0) }
    ensures same { fleet.new ≡ fleet.old }
{
    match fleet.note(config, shard) {
        Ok(note) => Ok(note),
        Err(OutOfMemory) => Err(Refusal::Memory { position: 0 }),
    }
}

/// Notifies those who see a shard's log of an entry that a repair wrote there, where there is one, with a note of that log, which is renewed for it.
fn notify_of_repair(
    nodes: &mut Nodes,
    config: &Config,
    shard: u16,
    wrote: &Option<Entry>,
    note: Note,
)
    requires here { shard < config.now.shards }
    requires states { AreStatesOf config.now nodes.old.topology }
    requires stores { AreStores config.now (store_count config.now) nodes.old.fleet.stores }
    requires one_log { (pens_of nodes.old.fleet.stores shard).log ≡ note.log }
    requires stands { IfSome wrote.now (StandsIn (pens_of nodes.old.fleet.stores shard)) }
    requires lies { IfSome wrote.now (LiesOn (pens_of nodes.old.fleet.stores shard) shard) }
    requires inboxes { AreInboxesOf config.now (pens_of nodes.old.fleet.stores) nodes.old.mail }
    ensures notifies { NotifiesOfRepair nodes.old.topology shard wrote.now nodes.old.mail nodes.new.mail }
    ensures inboxes { AreInboxesOf config.now (pens_of nodes.old.fleet.stores) nodes.new.mail }
    ensures rest { nodes.new ≡ record nodes.old { mail = nodes.new.mail } }
{
    let Some(entry) = wrote else { return };
    let mut note = nodes.fleet.renew(config, shard, note);
    nodes.notify_followers(config, shard, entry, &mut note);
    nodes.notify_besides(config, shard, entry, &mut note);
}

/// Why a job was not run which its store refused to end.
fn failed_for(refusal: StoreRefusal) -> RepairRefusal
    requires { IsOfReads refusal }
    ensures { FailsAs refusal result }
{
    passed_on(refusal)
}

/// The first open job of a shard, where one is open.
fn find_job<K: Keeper>(
    fleet: &mut Fleet,
    config: &Config,
    keepers: &mut K,
    shard: u16,
) -> Result<Option<Job>, Refusal>
    requires consistent { IsConsistent K.TELLS config.now (K.state keepers.old).told fleet.old }
    requires here { shard < config.now.shards }
    ensures finds { FindsFirst K.TELLS config.now shard result (K.state keepers.old) (K.state keepers.new) }
    ensures given { IfOk result (λ found. IfSome found IsGivenJob) }
    ensures same { fleet.new ≡ fleet.old }
    ensures consistent { IsConsistent K.TELLS config.now (K.state keepers.new).told fleet.new }
    ensures tables { KeepsTables K.TELLS (K.state keepers.old) (K.state keepers.new) }
    ensures later { IsLater (K.state keepers.old) (K.state keepers.new) }
{
    match fleet.first_job(config, keepers, shard) {
        Ok(found) => Ok(found),
        Err(refusal) => Err(refused_as(refusal, keepers.faults())),
    }
}

/// Merges a job at the store of the shard on which its records lie, over the link, and then ends it.
fn merge_and_end<K: Keeper, L: Link>(
    nodes: &mut Nodes,
    config: &Config,
    keepers: &mut K,
    link: &mut L,
    shard: u16,
    job: &Job,
) -> Result<Option<Entry>, RepairRefusal>
    requires ready { CanPost K.TELLS config.now (world nodes.old (K.state keepers.old) (L.shown link.old)) }
    requires here { shard < config.now.shards }
    requires there { far_shard job.now < config.now.shards }
    requires given { IsGivenJob job.now }
    requires owed { WhereTold K.TELLS (IsOwedJob config.now (K.state keepers.old).told (job_on shard job.now)) }
    ensures runs { RunsJob K.TELLS config.now (job_on shard job.now) result
        (outside (K.state keepers.old) (L.shown link.old)) (outside (K.state keepers.new) (L.shown link.new)) }
    ensures stands { IfOk result (λ wrote. IfSome wrote (StandsIn (pens_of nodes.new.fleet.stores (far_shard job.now)))) }
    ensures lies { IfOk result (λ wrote. IfSome wrote (LiesOn (pens_of nodes.new.fleet.stores (far_shard job.now)) (far_shard job.now))) }
    ensures rest { nodes.new ≡ record nodes.old { fleet = record nodes.old.fleet { stores = nodes.new.fleet.stores } } }
    ensures on { PostsOn K.TELLS config.now
        (world nodes.old (K.state keepers.old) (L.shown link.old)) (world nodes.new (K.state keepers.new) (L.shown link.new)) }
{
    masters_are_regions(config);
    let repaired = nodes.fleet.merge_far(
        nodes.alloc,
        config,
        keepers,
        link,
        &ShardJob { shard, job },
    )?;
    match nodes.fleet.end_job(config, keepers, shard, job) {
        Ok(()) => Ok(repaired.wrote),
        Err(refusal) => Err(failed_for(refusal)),
    }
}

/// Runs the first open job of a shard, where one is open: it is carried to the store of the shard on which its records lie, merged there, and ended
/// once the answer came back. Of a new entry the followers of that shard's master region are notified as after a write, and then the leader that the region
/// prefers, where it is up. The note of the log that their messages carry was taken before the merge, so that a message is lost only as one of a write is.
/// No leader takes part.
///
/// Whatever fails leaves the job open, and at most merged, and nobody is notified; without memory for that note nothing is done. `LinkFault` comes
/// only where the link's count of faults rose, `KeeperFault` only where the keepers' did, and `LogFull` where the other shard's log has no room for the
/// entry; `NoServer` comes where that shard isn't configured, with the region of the job's own master. Two carries, two calls of the keeper and what a
/// merge costs.
pub fn repair_first<K: Keeper, L: Link>(
    nodes: &mut Nodes,
    config: &Config,
    keepers: &mut K,
    link: &mut L,
    shard: u16,
) -> Result<Option<Ran>, Refusal>
    requires ready { CanPost K.TELLS config.now (world nodes.old (K.state keepers.old) (L.shown link.old)) }
    requires here { shard < config.now.shards }
    ensures repairs { RepairsFirst K.TELLS config.now shard result
        (world nodes.old (K.state keepers.old) (L.shown link.old)) (world nodes.new (K.state keepers.new) (L.shown link.new)) }
    ensures on { PostsOn K.TELLS config.now
        (world nodes.old (K.state keepers.old) (L.shown link.old)) (world nodes.new (K.state keepers.new) (L.shown link.new)) }
{
    let found = find_job(&mut nodes.fleet, config, keepers, shard)?;
    let Some(job) = found else { return Ok(None) };
    let far = far_shard(&job);
    if far >= config.shards {
        let region = nodes.topology.master(shard);
        return Err(Refusal::Node(NodeRefused::NoServer { region }));
    }
    masters_are_regions(config);
    let note = note_before(&mut nodes.fleet, config, far)?;
    let wrote = match merge_and_end(nodes, config, keepers, link, shard, &job) {
        Ok(wrote) => wrote,
        Err(refusal) => {
            let keeper_faults = keepers.faults();
            let link_faults = link.faults();
            return Err(refused_for(refusal, keeper_faults, link_faults));
        }
    };
    notify_of_repair(nodes, config, far, &wrote, note);
    Ok(Some(Ran { job, wrote }))
}
