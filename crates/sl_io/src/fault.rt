//! Why an engine stopped.
ghost use Rattle.std.specs.Prelude.{◌≡◌};
ghost use Rattle.sl_io.specs.Fault.{sink_fault};

use sl_packet::{FlowFault, SinkFault};
use thiserror::Error;

/// Why an engine stopped before its work was done.
///
/// The engines' clauses on faults (`fault`, and `stopped` of `run_engine`) say less than the
/// sentences here. They know of a fault by the stream's count of faults, which stops at 2^64 - 1.
/// So an engine answers `Read` only where the reader, and `Write` only where the writer, had a
/// fault, or its count stood at 2^64 - 1 already. It answers `TooLong` only where more octets than
/// the managed limit were read; where no contract can name the reader's octets, nothing is claimed
/// of that. No clause can say that memory was refused.
#[derive(Clone, Copy, Debug, PartialEq, Eq, Error)]
pub enum LinkFault {
    /// The reader answered an error.
    #[error("read")]
    Read,
    /// More octets came than the managed limit.
    #[error("too long")]
    TooLong,
    /// Memory was refused.
    #[error("memory")]
    Memory,
    /// The writer answered an error, or took none of one or more octets.
    #[error("write")]
    Write,
}

impl From<FlowFault> for LinkFault {
    ghost use Rattle.std.specs.Prelude.{◌≡◌};
    ghost use Rattle.sl_io.specs.Fault.{flow_fault};

    ghost from_gives = { λ fault e. e ≡ flow_fault fault };

    /// The fault of an engine that couldn't hand packets on to its sink: `Memory` where memory was
    /// refused, and `Write` where the sink failed for another reason. `FlowFault::Failed`, after an
    /// earlier fault, never comes, as no engine goes on after one; it would be `Memory` too.
    fn from(fault: FlowFault) -> LinkFault {
        match fault {
            FlowFault::Sink(fault) => of_sink(fault),
            FlowFault::Memory | FlowFault::Failed => LinkFault::Memory,
        }
    }
}

// The device of an engine's sink is the writer. No such sink has a rule by which it refuses
// packets.
fn of_sink(fault: SinkFault) -> LinkFault
    ensures { result ≡ sink_fault fault }
{
    match fault {
        SinkFault::Memory => LinkFault::Memory,
        SinkFault::Device | SinkFault::Refused => LinkFault::Write,
    }
}
