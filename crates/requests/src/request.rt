//! What requests say.
ghost use Rattle.std.specs.Prelude.{◌≡◌};
ghost use Rattle.requests.specs.RequestWords.{request_word};

use super::caches::CacheRequest;
use super::calls::Call;
use super::health::HealthRequest;
use super::links::LinkRequest;
use super::plans::PlanRequest;
use super::stores::StoreRequest;
use tao_base::Text;
use words::Word;

/// A tier of a region, which a session opens in.
#[derive(Drop)]
pub struct OpenCall {
    pub session: u32,
    pub region: Text,
    pub tier: Text,
}

/// What a line asks, by what it asks it of.
#[derive(Drop)]
pub enum Request {
    Open(OpenCall),
    Call(Call),
    Plan(PlanRequest),
    Cache(CacheRequest),
    Store(StoreRequest),
    Health(HealthRequest),
    Link(LinkRequest),
}

impl Request {
    /// The word of the request: what its `do` says.
    pub fn word(&self) -> Word
        ensures { result ≡ request_word self.now }
    {
        match self {
            Request::Open(_) => Word::Open,
            Request::Call(call) => call.word(),
            Request::Plan(asked) => asked.word(),
            Request::Cache(asked) => asked.word(),
            Request::Store(asked) => asked.word(),
            Request::Health(asked) => asked.word(),
            Request::Link(asked) => asked.word(),
        }
    }
}
