ghost use Rattle.std.specs.Prelude.{◌≡◌, ◌⊎◌, ◌≤◌, ◌++◌, ◌∷◌, [], ℕ, List, codes, decimal, IfOk, IfErr, OnOk, IsErrOf};
ghost use Rattle.rg_bytes.specs.Counts.{Rose};
ghost use Rattle.rg_host.specs.Lines.{ended};
ghost use Rattle.rg_host.specs.Moments.{LeavesFiles};
ghost use Rattle.rg_host.specs.Puts.{IsPrefix, Puts};
ghost use Rattle.rg_selftest.specs.Trials.{trial_lines};

use crate::fault::PrintFault;
use crate::trials::Trial;
use itoa::Buffer;
use rg_bytes::{Memory, put_bytes, write_whole};
use rg_host::{Failed, Host, put_all};
use std::alloc::Global;

/// Puts the four lines of a trial: `lines N`, `events K`, `bytes B` and `sum S`, each ended by LF.
pub fn print<H: Host>(alloc: Global, trial: &Trial, host: &mut H) -> Result<(), PrintFault>
    // Just the four lines were put.
    ensures completes { OnOk result (Puts H.said H.clock H.since host.old host.new (ended (trial_lines trial.now))) }

    // Nothing was put, or, where a put failed, a prefix of the text.
    ensures stops { IfErr result (λ fault. (fault ≡ PrintFault.Write) ⊎ (host.new ≡ host.old)) }

    // Where a put failed, a prefix of them was put.
    ensures cut { IsErrOf result PrintFault.Write → (put : List ℕ) × IsPrefix put (ended (trial_lines trial.now)) × Puts H.said H.clock H.since host.old host.new put }

    // Write comes only where the count of failed puts rose, and no file is written.
    ensures write { IsErrOf result PrintFault.Write → Rose (H.out_faults host.old) (H.out_faults host.new) }
    ensures leaves { LeavesFiles H.now H.may H.clock H.since host.old host.new }
    ensures disk_faults { H.disk_faults host.new ≡ H.disk_faults host.old }
    ensures out_faults { H.out_faults host.old ≤ H.out_faults host.new }
{
    let text = match trial_text(alloc, trial) {
        Ok(text) => text,
        Err(Memory) => return Err(PrintFault::Memory),
    };
    match put_all(host, &text) {
        Ok(()) => Ok(()),
        Err(Failed) => Err(PrintFault::Write),
    }
}

/// The lines of a trial, each ended by LF.
fn trial_text(alloc: Global, trial: &Trial) -> Result<Vec<u8>, Memory>
    ensures { IfOk result (λ text. text.items ≡ ended (trial_lines trial.now)) }
{
    let mut text = Vec::new(alloc);
    push_line(&mut text, b"lines ", trial.lines)?;
    push_line(&mut text, b"events ", trial.events)?;
    push_line(&mut text, b"bytes ", trial.bytes)?;
    push_sum(&mut text, trial.sum)?;
    Ok(text)
}

/// Adds a word, a number and LF. An error leaves the text begun.
fn push_line(text: &mut Vec<u8>, word: &[u8], number: u64) -> Result<(), Memory>
    ensures { OnOk result (text.new.items ≡ text.old.items ++ (word.now ++ (decimal number ++ 10 ∷ []))) }
{
    put_bytes(text, word)?;
    write_whole(text, number)?;
    put_bytes(text, b"\n")
}

/// Adds the line of a sum. An error leaves the text begun.
fn push_sum(text: &mut Vec<u8>, sum: u128) -> Result<(), Memory>
    ensures { OnOk result (text.new.items ≡ text.old.items ++ (codes "sum " ++ (decimal sum ++ 10 ∷ []))) }
{
    put_bytes(text, b"sum ")?;
    put_bytes(text, Buffer::new().format(sum).as_bytes())?;
    put_bytes(text, b"\n")
}
