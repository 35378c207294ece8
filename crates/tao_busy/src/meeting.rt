//! What the threads of a load were told stands in the logs of the closed cluster.
ghost use Rattle.std.specs.Prelude.{◌≡◌, ◌≤◌, ◌<◌, IfOk, OnOk, false, length};
ghost use Rattle.graph_model.specs.Told.{WhereTold};
ghost use Rattle.keepers.specs.Shown.{told_in};
ghost use Rattle.load_audit.specs.Audits.{logs_in};
ghost use Rattle.load_audit.specs.Listed.{missing_adds};
ghost use Rattle.load_shares.specs.Seen.{AllBegin, BeginLogs, EachPass};
ghost use Rattle.shared_tiers.specs.cluster_closing.unlocked_nodes.Unlocked.{MaySettle};
ghost use Rattle.shared_tiers.specs.locked_nodes.Cluster.{on_cluster};
ghost use Rattle.shared_tiers.specs.locked_nodes.Passes.{IsPassOf};
ghost use Rattle.tao_busy.specs.Counting.{AreShares, AreWell, BeginsLog};
ghost use Rattle.tao_busy.specs.Refusing.{HaveClearWay};

use crate::shares::Share;
use requests::Request;
use session_pass::Pass;
use shared_stores::Sharing;
use shared_tiers::cluster_closing::Closed;
use tao_base::OutOfMemory;
use tao_keeper::Keeper;

/// Whether a thread wanted memory.
pub(crate) fn is_any_short(shares: &[Share]) -> bool
    ensures { result ≡ false → AreWell shares.now }
{
    for share in shares {
        if share.tally.short {
            return true;
        }
    }
    false
}

/// What a pass has seen of a shard's log begins the log that the closed cluster has.
fn meet_log<K: Keeper, J: Sharing>(
    closed: &mut Closed<'_, K, J>,
    pass: &mut Pass,
    shard: u16,
) -> Result<(), OutOfMemory>
    requires ready { MaySettle K.TELLS J.making J.log (told_in K.state J.making.settings.shards closed.old.keepers.items) closed.old.unlocked }
    requires here { shard < J.making.settings.shards }
    requires pass { IsPassOf J.making J.log pass.old }
    ensures begins { WhereTold K.TELLS (OnOk result
        (BeginsLog J.making.settings (told_in K.state J.making.settings.shards closed.old.keepers.items) pass.old.notes shard)) }
    ensures pass { pass.new ≡ pass.old }
    ensures unlocked { closed.new.unlocked ≡ closed.old.unlocked }
    ensures keepers { closed.new.keepers ≡ closed.old.keepers }
{
    let mut note = pass.note(shard)?;
    let met = closed.meet(shard, &mut note);
    drop(note);
    met
}

/// What a pass has seen begins the logs that the closed cluster has.
fn meet_pass<K: Keeper, J: Sharing>(
    closed: &mut Closed<'_, K, J>,
    shards: u16,
    pass: Pass,
) -> Result<(), OutOfMemory>
    requires ready { MaySettle K.TELLS J.making J.log (told_in K.state J.making.settings.shards closed.old.keepers.items) closed.old.unlocked }
    requires shards { shards ≡ J.making.settings.shards }
    requires pass { IsPassOf J.making J.log pass }
    ensures begins { WhereTold K.TELLS (OnOk result
        (BeginLogs (logs_in J.making.settings (told_in K.state J.making.settings.shards closed.old.keepers.items)) pass.notes)) }
    ensures unlocked { closed.new.unlocked ≡ closed.old.unlocked }
    ensures keepers { closed.new.keepers ≡ closed.old.keepers }
{
    let mut pass = pass;
    for shard in 0..shards {
        meet_log(closed, &mut pass, shard)?;
    }
    Ok(())
}

/// What the passes have seen begins the logs that the closed cluster has.
fn meet_passes<K: Keeper, J: Sharing>(
    closed: &mut Closed<'_, K, J>,
    shards: u16,
    passes: Vec<Pass>,
) -> Result<(), OutOfMemory>
    requires ready { MaySettle K.TELLS J.making J.log (told_in K.state J.making.settings.shards closed.old.keepers.items) closed.old.unlocked }
    requires shards { shards ≡ J.making.settings.shards }
    requires passes { EachPass (IsPassOf J.making J.log) passes.items }
    ensures begin { WhereTold K.TELLS (OnOk result
        (AllBegin (logs_in J.making.settings (told_in K.state J.making.settings.shards closed.old.keepers.items)) passes.items)) }
    ensures unlocked { closed.new.unlocked ≡ closed.old.unlocked }
    ensures keepers { closed.new.keepers ≡ closed.old.keepers }
{
    let mut left = passes;
    'passes: while let Some(pass) = left.pop() {
        meet_pass(closed, shards, pass)?;
    }
    Ok(())
}

/// How many calls the threads were refused, where all that they were told stands in the logs that the closed cluster has: of the requests' additions no more
/// are in none of these logs, and none was refused where nothing was in the requests' way.
pub(crate) fn meet_shares<K: Keeper, J: Sharing>(
    closed: &mut Closed<'_, K, J>,
    shards: u16,
    shares: Vec<Share>,
    requests: &[Request],
) -> Result<u64, OutOfMemory>
    requires ready { MaySettle K.TELLS J.making J.log (told_in K.state J.making.settings.shards closed.old.keepers.items) closed.old.unlocked }
    requires shards { shards ≡ J.making.settings.shards }
    requires some { 0 < length shares.items }
    requires shares { AreShares (on_cluster K.TELLS K.state J.making J.log) (length shares.items) requests.now shares.items }
    requires well { AreWell shares.items }
    ensures few { WhereTold K.TELLS (IfOk result (λ refused.
        missing_adds (logs_in J.making.settings (told_in K.state J.making.settings.shards closed.old.keepers.items)) requests.now ≤ refused)) }
    ensures none { WhereTold K.TELLS (IfOk result (λ refused. HaveClearWay (on_cluster K.TELLS K.state J.making J.log)
        (logs_in J.making.settings (told_in K.state J.making.settings.shards closed.old.keepers.items)) requests.now → refused ≡ 0)) }
    ensures unlocked { closed.new.unlocked ≡ closed.old.unlocked }
    ensures keepers { closed.new.keepers ≡ closed.old.keepers }
{
    let mut left = shares;
    let mut refused = 0_u64;
    let _listed = requests.len();
    'shares: while let Some(share) = left.pop() {
        let Share { passes, tally } = share;
        meet_passes(closed, shards, passes)?;
        refused = refused.saturating_add(tally.refused);
    }
    Ok(refused)
}
