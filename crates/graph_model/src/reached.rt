//! The versions that a log has reached.
ghost use Rattle.graph_model.specs.VersionLaws.{LengthIsWithinVersion, VersionsAreOfBeginnings};

use tao_base::{AType, Entry, Id, Key};

/// A version that a log has reached is that of one of its beginnings.
#[tactic(auto, using(crate::proofs::Beginnings::versions_are_of_beginnings))]
pub fn versions_are_of_beginnings(_log: &[Entry], _key: Key)
    ensures { VersionsAreOfBeginnings _log.now _key }
{}

/// A list of a sound log is no longer than its version.
#[tactic(auto, using(crate::proofs::Lengths::length_is_within_version))]
pub fn lengths_are_within_versions(_log: &[Entry], _id1: Id, _atype: AType)
    ensures { LengthIsWithinVersion _log.now _id1 _atype }
{}
