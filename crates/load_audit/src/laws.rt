//! Laws of what an audit counts.
ghost use Rattle.load_audit.specs.LiveLaws.{LastRecordLaws};

/// The edges that count as live are those whose record is live after the log, each once.
#[tactic(auto, using(crate::proofs::LastRecords::last_record_laws))]
pub fn live_edges_by_records()
    ensures { LastRecordLaws }
{}
