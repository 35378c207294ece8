//! What a call of the workload is.
ghost use Rattle.std.specs.Prelude.{◌≡◌};
ghost use Rattle.load_gen.specs.Kinds.{kind_of};

/// What a call of the workload is.
#[derive(Clone, Copy)]
pub(crate) enum Kind {
    ObjAdd,
    AssocAdd,
    AssocDelete,
    AssocRange,
    AssocCount,
    Deliver,
    Stream,
}

/// How many numbers are drawn from for the kind of a call.
pub(crate) const KINDS: u64 = 10;

impl Kind {
    /// The kind of a call by the number that was drawn for it. Four in ten add an edge.
    pub(crate) fn of(number: u64) -> Kind
        ensures { result ≡ kind_of number }
    {
        match number {
            0 => Kind::ObjAdd,
            1..=4 => Kind::AssocAdd,
            5 => Kind::AssocDelete,
            6 => Kind::AssocRange,
            7 => Kind::AssocCount,
            8 => Kind::Deliver,
            _ => Kind::Stream,
        }
    }
}
