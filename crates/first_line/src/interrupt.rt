//! What ends the reading or writing of lines, and the status that says it.
ghost use Rattle.std.specs.Prelude.{◌≡◌};
ghost use Rattle.first_line.specs.Interrupts.{interrupt_code};

use std::alloc::AllocError;
use tao_base::OutOfMemory;
use tao_io::{ReadFault, SinkFailed};

/// What may end the reading or writing of any line.
#[derive(Clone, Copy, PartialEq, Eq)]
pub enum Interrupt {
    /// The source failed.
    Source,
    /// The sink failed.
    Sink,
    /// There was no memory to read a line, to do what it asks, or to spell a reply.
    Memory,
    /// The input has 2^40 bytes or more.
    InputTooLong,
}

impl From<ReadFault> for Interrupt {
    ghost use Rattle.std.specs.Prelude.{◌≡◌};
    ghost use Rattle.first_line.specs.Interrupts.{interrupt_from};

    ghost from_gives = { λ fault interrupt. interrupt ≡ interrupt_from fault };

    fn from(fault: ReadFault) -> Interrupt {
        match fault {
            ReadFault::Failed => Interrupt::Source,
            ReadFault::InputTooLong => Interrupt::InputTooLong,
            ReadFault::OutOfMemory => Interrupt::Memory,
        }
    }
}

impl From<AllocError> for Interrupt {
    ghost use Rattle.std.specs.Prelude.{◌≡◌};
    ghost use Rattle.first_line.specs.declared.interrupt.Interrupt.TheVariants.{Memory};

    ghost from_gives = { λ _ interrupt. interrupt ≡ Memory };

    fn from(_: AllocError) -> Interrupt {
        Interrupt::Memory
    }
}

impl From<OutOfMemory> for Interrupt {
    ghost use Rattle.std.specs.Prelude.{◌≡◌};
    ghost use Rattle.first_line.specs.declared.interrupt.Interrupt.TheVariants.{Memory};

    ghost from_gives = { λ _ interrupt. interrupt ≡ Memory };

    fn from(_: OutOfMemory) -> Interrupt {
        Interrupt::Memory
    }
}

impl From<SinkFailed> for Interrupt {
    ghost use Rattle.std.specs.Prelude.{◌≡◌};
    ghost use Rattle.first_line.specs.declared.interrupt.Interrupt.TheVariants.{Sink};

    ghost from_gives = { λ _ interrupt. interrupt ≡ Sink };

    fn from(_: SinkFailed) -> Interrupt {
        Interrupt::Sink
    }
}

impl Interrupt {
    /// The program's exit status: 4, 5, 7 or 9.
    pub fn code(self) -> u8
        ensures { result ≡ interrupt_code self }
    {
        match self {
            Interrupt::Source => 4,
            Interrupt::Sink => 5,
            Interrupt::Memory => 7,
            Interrupt::InputTooLong => 9,
        }
    }
}
