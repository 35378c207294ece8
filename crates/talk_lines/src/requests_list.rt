//! The requests of a batch.
use requests::Request;
use std::marker::Model;

/// Requests, in their order. Contracts see their list.
#[derive(Drop)]
pub struct Requests {
    requests: Vec<Request>,
}

impl Model for Requests {
    ghost use Rattle.std.specs.Prelude.{List};
    ghost use Rattle.requests.specs.declared.request.Request.{Request};

    ghost Value = { List Request };

    ghost view = { λ r. r.requests.items };
}

impl Requests {
    ghost use Rattle.std.specs.Prelude.{◌≡◌};

    /// The requests of a vector, which is taken over. Takes no memory.
    pub fn of(requests: Vec<Request>) -> Requests
        ensures { result ≡ requests.items }
    {
        Requests { requests }
    }

    /// The requests, the first in front.
    pub fn as_slice(&self) -> &[Request]
        ensures { result.now ≡ self.now }
    {
        self.requests.as_slice()
    }

    /// The vector of the requests. Takes no memory.
    pub fn into_vec(self) -> Vec<Request>
        ensures { result.items ≡ self }
    {
        self.requests
    }
}
