ghost use Rattle.std.specs.Prelude.{◌≡◌, ◌+◌, ◌≤◌, ◌^◌, ◌==◌, [], drop, length, IfOk, OnErr, IsErrOf};
ghost use Rattle.rg_bytes.specs.Counts.{Rose};
ghost use Rattle.rg_host.specs.Buffered.{IsPart, ReadsPart, KeepsFirst};

use rg_bytes::Memory;
use rg_host::{Failed, LineFault, Source};
use std::alloc::Global;
use std::marker::Model;

/// How many bytes a read asks for at most.
const MAX_READ_BYTES: usize = 65_536;

/// The greatest number of bytes that is taken from an input.
const MAX_INPUT_BYTES: u64 = 1 << 50;

/// Bytes that were read of an input, of at most 2^50: those from `start` to `end` are held.
#[derive(Drop)]
pub struct Intake {
    bytes: Vec<u8>,
    start: usize,
    end: usize,
    taken: u64,
}

impl Model for Intake {
    ghost use Rattle.std.specs.Prelude.{slice_range};
    ghost use Rattle.rg_serve.specs.Intaking.{Intaking, IsLaid};

    ghost Value = { Intaking };

    ghost view = { λ f. record { held = slice_range f.bytes.items f.start f.end; taken = f.taken } };

    ghost invariant = { λ f. IsLaid f.bytes.items f.start f.end f.taken };
}

/// Reads the next bytes of an input into the first ones of `bytes`, at most so many, and answers how many.
fn read_front<I: Source>(input: &mut I, bytes: &mut Vec<u8>, room: usize) -> Result<usize, Failed>
    requires part { IsPart bytes.old.items 0 room }
    ensures read { IfOk result (ReadsPart bytes.new.items 0 room (I.left input.old) (I.left input.new)) }
    ensures first { KeepsFirst 0 bytes.old.items bytes.new.items }
    ensures kept { OnErr result (I.left input.new ≡ I.left input.old) }
    ensures cause { OnErr result (Rose (I.faults input.old) (I.faults input.new)) }
    ensures later { I.faults input.old ≤ I.faults input.new }
{
    input.read(&mut bytes[0..room])
}

impl Intake {
    ghost use Rattle.rg_serve.specs.Intaking.{Reads};

    /// An intake that has taken nothing. Takes its room here, and no memory later.
    pub fn new(alloc: Global) -> Result<Intake, Memory>
        ensures held { IfOk result (λ intake. intake.held ≡ []) }
        ensures taken { IfOk result (λ intake. intake.taken ≡ 0) }
    {
        let bytes = vec![in alloc; 0u8; MAX_READ_BYTES]?;
        Ok(Intake {
            bytes,
            start: 0,
            end: 0,
            taken: 0,
        })
    }

    /// Whether nothing is held.
    pub fn is_empty(&self) -> bool
        ensures { result ≡ (length self.now.held == 0) }
    {
        self.end - self.start == 0
    }

    /// The bytes that were taken and not passed yet.
    pub fn held(&self) -> &[u8]
        ensures { result.now ≡ self.now.held }
    {
        &self.bytes[self.start..self.end]
    }

    /// Passes the first bytes that are held.
    pub fn pass(&mut self, count: usize)
        requires { count ≤ length self.old.held }
        ensures { self.new ≡ record self.old { held = drop count self.old.held } }
    {
        self.start += count;
    }

    /// Takes more bytes of the input, once nothing is held. `false` says that there are none.
    pub fn read<I: Source>(&mut self, input: &mut I) -> Result<bool, LineFault>
        requires given { self.old.held ≡ [] }
        requires within { self.old.taken ≤ 2 ^ 50 }
        ensures reads { Reads self.old self.new (I.left input.old) (I.left input.new) result }
        ensures cause { IsErrOf result LineFault.Read → Rose (I.faults input.old) (I.faults input.new) }
        ensures later { I.faults input.old ≤ I.faults input.new }
    {
        if self.taken == MAX_INPUT_BYTES {
            return self.probe(input);
        }
        let room = (MAX_INPUT_BYTES - self.taken).min(MAX_READ_BYTES as u64) as usize;
        match read_front(input, &mut self.bytes, room) {
            Err(_) => Err(LineFault::Read),
            Ok(0) => Ok(false),
            Ok(count) => {
                self.start = 0;
                self.end = count;
                self.taken += count as u64;
                Ok(true)
            }
        }
    }

    /// Asks for a byte past the limit.
    fn probe<I: Source>(&mut self, input: &mut I) -> Result<bool, LineFault>
        requires { self.old.taken ≡ 2 ^ 50 }
        ensures reads { Reads self.old self.new (I.left input.old) (I.left input.new) result }
        ensures cause { IsErrOf result LineFault.Read → Rose (I.faults input.old) (I.faults input.new) }
        ensures later { I.faults input.old ≤ I.faults input.new }
    {
        let mut byte = [0u8; 1];
        match input.read(&mut byte) {
            Err(_) => Err(LineFault::Read),
            Ok(0) => Ok(false),
            Ok(_) => {
                self.taken += 1;
                Err(LineFault::Limit)
            }
        }
    }
}
