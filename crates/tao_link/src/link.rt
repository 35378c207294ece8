//! `Link`, what carries calls from node to node.
ghost use Rattle.std.specs.Prelude.{◌≡◌, Some, OnErr, OnOk};
ghost use Rattle.counts.specs.Count.{Counted, HasCause};
ghost use Rattle.tao_link.specs.Cuts.{SwitchesWhereTold, between};
ghost use Rattle.tao_link.specs.Shown.{after_carry};

use node_name::NodeName;
use std::error::Error;
use std::fmt;
use tao_base::OutOfMemory;

/// A carry, by the nodes that it goes from and to. Each direction between two nodes is a carry of its own.
#[derive(Clone, Copy, PartialEq, Eq)]
pub struct Carry {
    pub from: NodeName,
    pub to: NodeName,
}

/// A link could not carry, and counted that as a fault.
#[derive(Clone, Copy, Debug, PartialEq, Eq)]
pub struct LinkFailed;

impl fmt::Display for LinkFailed {
    ghost use Rattle.std.specs.Prelude.{Some, codes};

    ghost output = { λ _. Some (codes "a link failed") };

    fn fmt<W: fmt::Write>(&self, f: &mut fmt::Formatter<W>) -> fmt::Result {
        write!(f, "a link failed")
    }
}

impl Error for LinkFailed {}

/// What carries a call, or its answer, from one node to another. A link counts the carries, and those
/// that failed as faults. Neither count falls; at its last value, 2^64 - 1, each stands still.
///
/// A link may tell which carries are cut: `switch` alone changes them. Whether those fail is its own matter.
pub trait Link {
    ghost use Rattle.tao_link.specs.Shown.{LinkShown};

    /// The carries that are cut, where the link tells them, its counts, and the last carry that failed.
    ghost shown: { Self → LinkShown };

    /// Carries from one node to another. A carry that failed is counted too.
    fn carry(&mut self, from: NodeName, to: NodeName) -> Result<(), LinkFailed>
        ensures counted { Counted (shown self.old).carries (shown self.new).carries }
        ensures cause { HasCause (shown self.old).faults (shown self.new).faults result }
        ensures cuts { (shown self.new).cuts ≡ (shown self.old).cuts }
        ensures ok { OnOk result (shown self.new ≡ after_carry (shown self.old)) }
        ensures err { OnErr result ((shown self.new).failed ≡ Some (between from to)) };

    /// Asks to mend one direction, where it is to be `whole`, or else to cut it. A link that doesn't tell its
    /// cuts may leave it as it is. The counts and the last carry that failed stay.
    ///
    /// The one error is out of memory, which leaves the cuts as they were.
    fn switch(&mut self, from: NodeName, to: NodeName, whole: bool) -> Result<(), OutOfMemory>
        ensures rest { shown self.new ≡ record (shown self.old) { cuts = (shown self.new).cuts } }
        ensures ok { OnOk result (SwitchesWhereTold (between from to) whole (shown self.old).cuts (shown self.new).cuts) }
        ensures err { OnErr result (shown self.new ≡ shown self.old) };

    /// How many carries there were.
    fn carries(&self) -> u64
        ensures { result ≡ (shown self.now).carries };

    /// How many faults there were.
    fn faults(&self) -> u64
        ensures { result ≡ (shown self.now).faults };

    /// The last carry that failed. None before one did.
    fn failed(&self) -> Option<Carry>
        ensures { result ≡ (shown self.now).failed };
}
