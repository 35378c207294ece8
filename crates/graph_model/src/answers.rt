//! What a log answers depends on the version of the key alone.
ghost use Rattle.graph_model.specs.AnswerLaws.{VersionFixesAnswer};

use tao_base::{Entry, Query};

/// Any two beginnings of a log in which the queried key has one version answer alike.
#[tactic(auto, using(crate::proofs::Versions::version_fixes))]
pub fn version_fixes_answer(_log: &[Entry], _query: &Query)
    ensures { VersionFixesAnswer _log.now _query.now }
{}
