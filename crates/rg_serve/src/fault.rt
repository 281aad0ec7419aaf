ghost use Rattle.std.specs.Prelude.{◌≡◌};
ghost use Rattle.rg_serve.specs.Coming.{of_pipe};

use rg_pipe::PipeFault;
use rg_run::TurnFault;

/// Why a serve ended before its end.
#[derive(Clone, Copy, Debug, PartialEq, Eq)]
pub enum ServeFault {
    /// A request could not be answered, or a put failed.
    Turn(TurnFault),
    /// A read of the input failed, and the source has counted it.
    Read,
    /// The input has more than 2^50 bytes.
    Limit,
    /// No legal request begins at this place of the input, in bytes, or the input ended within one.
    Frame(u64),
}

/// What a refusal of a pipe is to a serve.
pub(crate) fn frame_fault(fault: PipeFault) -> ServeFault
    ensures { result ≡ of_pipe fault }
{
    match fault {
        PipeFault::Frame(place) => ServeFault::Frame(place),
    }
}
