//! The words of replies that are no request's.
ghost use Rattle.std.specs.Prelude.{◌≡◌};
ghost use Rattle.reply_json.specs.Texts.{inverse_text, not_kept_text, scheduled_text, stage_text, unsettled_text, verdict_text, when_text};

use replies::{InverseEnd, NotKeptWhy, ScheduledWhy, Stage, StreamVerdict, UnsettledWhy, When};

/// What became of an inverse.
pub(crate) fn inverse_text(inverse: InverseEnd) -> &'static str
    ensures { result.now ≡ inverse_text inverse }
{
    match inverse {
        InverseEnd::None => "none",
        InverseEnd::Written => "written",
        InverseEnd::Scheduled { .. } => "scheduled",
    }
}

/// Why an inverse is not yet written.
pub(crate) fn scheduled_text(why: ScheduledWhy) -> &'static str
    ensures { result.now ≡ scheduled_text why }
{
    match why {
        ScheduledWhy::LinkFault => "link_fault",
        ScheduledWhy::KeeperFault => "keeper_fault",
        ScheduledWhy::LogFull => "log_full",
        ScheduledWhy::NoServer => "no_server",
        ScheduledWhy::Memory => "memory",
    }
}

/// Why a fill was not kept.
pub(crate) fn not_kept_text(why: NotKeptWhy) -> &'static str
    ensures { result.now ≡ not_kept_text why }
{
    match why {
        NotKeptWhy::Bound => "bound",
        NotKeptWhy::Asks => "asks",
        NotKeptWhy::Lost => "lost",
        NotKeptWhy::Mark => "mark",
        NotKeptWhy::Floor => "floor",
        NotKeptWhy::Memory => "memory",
    }
}

/// What a store did with a streamed entry.
pub(crate) fn verdict_text(verdict: StreamVerdict) -> &'static str
    ensures { result.now ≡ verdict_text verdict }
{
    match verdict {
        StreamVerdict::Applied => "applied",
        StreamVerdict::Old => "old",
        StreamVerdict::Gap => "gap",
        StreamVerdict::None => "none",
    }
}

/// A stage of a plan.
pub(crate) fn stage_text(stage: Stage) -> &'static str
    ensures { result.now ≡ stage_text stage }
{
    match stage {
        Stage::Look => "look",
        Stage::Ask => "ask",
        Stage::Master => "master",
        Stage::Keep => "keep",
        Stage::Commit => "commit",
        Stage::Inverse => "inverse",
        Stage::End => "end",
        Stage::Relay => "relay",
        Stage::Apply => "apply",
    }
}

/// Whether it was before the commit.
pub(crate) fn when_text(when: When) -> &'static str
    ensures { result.now ≡ when_text when }
{
    match when {
        When::Before => "before",
        When::After { .. } => "after",
    }
}

/// Why `settle` came to no end.
pub(crate) fn unsettled_text(why: UnsettledWhy) -> &'static str
    ensures { result.now ≡ unsettled_text why }
{
    match why {
        UnsettledWhy::LinkFault => "link_fault",
        UnsettledWhy::KeeperFault => "keeper_fault",
        UnsettledWhy::LogFull => "log_full",
    }
}
