//! That each line keeps the promise, and how a session begins.
ghost use Rattle.promise_kept.specs.Lines.{CallsKeepPromise, KeptAnswersAgain, OthersKeepPromise};
ghost use Rattle.promise_kept.specs.Openings.{OpensAtZero};
ghost use Rattle.promise_kept.specs.Requests.{RequestsKeepPromise};

/// The lines of calls, held or not, and those that open a session, keep the promise.
#[tactic(auto, using(crate::proofs::Keeping::calls_keep_promise))]
pub fn calls_keep_promise()
    ensures { CallsKeepPromise }
{}

/// The lines of stores, of cache nodes, of the link and of who is up keep the promise.
#[tactic(auto, using(crate::proofs::HealthLines::others_keep))]
pub fn others_keep_promise()
    ensures { OthersKeepPromise }
{}

/// Each request keeps the promise, whatever it asks, or was refused before anything was done.
#[tactic(auto, using(crate::proofs::Requests::requests_keep))]
pub fn requests_keep_promise()
    ensures { RequestsKeepPromise }
{}

/// A read that was said to be kept is answered the same where the next line asks it again.
#[tactic(auto, using(crate::proofs::Again::kept_answers_again))]
pub fn kept_answers_again()
    ensures { KeptAnswersAgain }
{}

/// A session that is opened has the floor 0 at each key: nothing of an earlier run is in it.
#[tactic(auto, using(crate::proofs::Beginnings::opens_at_zero))]
pub fn opens_at_zero()
    ensures { OpensAtZero }
{}
