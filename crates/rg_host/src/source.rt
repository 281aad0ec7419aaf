ghost use Rattle.std.specs.Prelude.{◌≡◌, ℕ, ◌+◌, ◌<◌, ◌≤◌, List, length, take, Option, IfOk, OnOk, OnErr, IsErrOf};
ghost use Rattle.rg_bytes.specs.Counts.{Rose};
ghost use Rattle.rg_bytes.specs.Known.{before, IsAtEnd};

use rg_bytes::Memory;
use std::alloc::Global;
use std::error::Error;
use std::fmt;

/// A call on the outside failed.
#[derive(Clone, Copy, Debug, PartialEq, Eq, Hash)]
pub struct Failed;

impl fmt::Display for Failed {
    fn fmt<W: fmt::Write>(&self, f: &mut fmt::Formatter<W>) -> fmt::Result {
        f.write_str("a call on the outside failed")
    }
}

impl Error for Failed {}

/// Bytes that come from outside.
pub trait Source {
    /// The bytes still to come, where the source tells them.
    ghost left: { Self → Option (List ℕ) };

    /// How often a read has failed, up to 2^64 - 1.
    ghost faults: { Self → ℕ };

    /// Reads the next bytes into the first ones of `buf`, and answers how many. With room in `buf`, 0
    /// comes only at the end of the input.
    fn read(&mut self, buf: &mut [u8]) -> Result<usize, Failed>
        ensures count { IfOk result (λ n. n ≤ length buf.old) }

        // A read gives the next bytes that the source has.
        ensures bytes { IfOk result (λ n. left self.old ≡ before (take n buf.new) (left self.new)) }
        ensures end { IfOk result (λ n. n ≡ 0 → 0 < length buf.old → IsAtEnd (left self.new)) }

        // A failed read takes none, and the count of faults rose.
        ensures kept { OnErr result (left self.new ≡ left self.old) }
        ensures cause { OnErr result (Rose (faults self.old) (faults self.new)) }
        ensures later { faults self.old ≤ faults self.new };
}

/// Why `read_all` refused.
#[derive(Clone, Copy, Debug, PartialEq, Eq, Hash)]
pub enum AllFault {
    /// A read of the source failed.
    Read,
    /// There are more bytes than the limit.
    Limit,
    /// Memory ran out.
    Memory,
}

impl From<Memory> for AllFault {
    ghost use Rattle.rg_host.specs.declared.source.AllFault.TheVariants.{Memory};

    ghost from_gives = { λ _ fault. fault ≡ Memory };

    fn from(_error: Memory) -> AllFault {
        AllFault::Memory
    }
}

/// How many bytes `read_all` asks for at once, at most.
const PIECE: usize = 8192;

/// Reads all there is, at most `max` bytes. What was taken before a refusal is lost: at `Limit`,
/// one byte more than the limit.
pub fn read_all<S: Source>(alloc: Global, src: &mut S, max: usize) -> Result<Vec<u8>, AllFault>
    // All bytes are given, at most so many, and the source is at its end.
    ensures all { IfOk result (λ all. S.left src.old ≡ before all.items (S.left src.new)) }
    ensures end { OnOk result (IsAtEnd (S.left src.new)) }
    ensures within { IfOk result (λ all. length all.items ≤ max) }

    // Whatever the answer, at most one byte past `max` was taken, and that one only at `Limit`.
    ensures taken { (got : List ℕ) × (S.left src.old ≡ before got (S.left src.new)) × (length got ≤ max + 1) }
    ensures taken_within { ¬ IsErrOf result AllFault.Limit
        → (got : List ℕ) × (S.left src.old ≡ before got (S.left src.new)) × (length got ≤ max) }

    // A longer source was read to the limit and one byte beyond.
    ensures limit { IsErrOf result AllFault.Limit
        → (got : List ℕ) × (S.left src.old ≡ before got (S.left src.new)) × (length got ≡ max + 1) }

    // Read comes only where the source's count of faults rose.
    ensures read { IsErrOf result AllFault.Read → Rose (S.faults src.old) (S.faults src.new) }
    ensures later { S.faults src.old ≤ S.faults src.new }
{
    let mut all = Vec::new(alloc);
    let mut piece = [0u8; PIECE];
    'pieces: loop {
        let asked = (max - all.len()).saturating_add(1).min(PIECE);
        let count = match src.read(&mut piece[..asked]) {
            Err(_) => return Err(AllFault::Read),
            Ok(count) => count,
        };
        if count == 0 {
            return Ok(all);
        }
        if count > max - all.len() {
            return Err(AllFault::Limit);
        }
        all.extend_from_slice(&piece[..count])
            .map_err(Memory::from)?;
    }
}
