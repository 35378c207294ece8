//! What promotions took away of a log, in memory.
use std::marker::Model;
use tao_base::Entry;

/// What a promotion took away of the log of the old master's store: the epoch that it began, how many entries it left, and
/// those that it took.
#[derive(Drop)]
pub struct LostPart {
    pub epoch: u64,
    pub length: u64,
    pub entries: Vec<Entry>,
}

impl Model for LostPart {
    ghost use Rattle.tao_keeper.specs.Table.{LostRow};

    ghost Value = { LostRow };

    ghost view = { λ p. record { epoch = p.epoch; length = p.length; entries = p.entries.items } };
}
