ghost use Rattle.std.specs.Prelude.{◌≡◌, ◌↔◌, ℕ, ◌<◌, ◌≤◌, min, length, take, drop, IfOk, IsErr, OnErr, Contains};
ghost use Rattle.rg_bytes.specs.Counts.{Rose};
ghost use Rattle.rg_bytes.specs.Known.{before, IsAtEnd};
ghost use Rattle.rg_host.specs.CallCounts.{raised};

use crate::source::{Failed, Source};
use std::marker::Model;

/// A source of bytes in memory, some calls of which fail. It tells its bytes.
#[derive(Drop)]
pub struct MemSource {
    bytes: Vec<u8>,
    at: usize,
    fail: Vec<u64>,
    next: u64,
    faults: u64,
}

impl Model for MemSource {
    ghost use Rattle.std.specs.Prelude.{◌≤◌, length, drop};
    ghost use Rattle.rg_host.specs.MemSource.{Supply};

    ghost Value = { Supply };

    ghost view = { λ source. record {
      left = drop source.at source.bytes.items;
      fail = source.fail.items;
      next = source.next;
      faults = source.faults;
    } };

    ghost invariant = { λ source. source.at ≤ length source.bytes.items };
}

impl MemSource {
    /// A source of these bytes, whose calls of these numbers fail, counted from 0.
    pub fn new(bytes: Vec<u8>, fail: Vec<u64>) -> MemSource
        ensures { result ≡ record { left = bytes.items; fail = fail.items; next = 0; faults = 0 } }
    {
        MemSource {
            bytes,
            at: 0,
            fail,
            next: 0,
            faults: 0,
        }
    }
}

/// Copies as many bytes as there are and fit, and answers how many.
fn copy_prefix(to: &mut [u8], from: &[u8]) -> usize
    ensures count { result ≡ min (length to.old) (length from.now) }
    ensures bytes { take result to.new ≡ take result from.now }
{
    let count = to.len().min(from.len());
    to[..count].copy_from_slice(&from[..count]);
    count
}

impl Source for MemSource {
    ghost use Rattle.std.specs.Prelude.{Some};

    ghost left = { λ source. Some source.left };

    ghost faults = { λ source. source.faults };

    fn read(&mut self, buf: &mut [u8]) -> Result<usize, Failed>
        ensures count { IfOk result (λ n. n ≤ length buf.old) }
        ensures bytes { IfOk result (λ n. ⟦<MemSource as Source>⟧.left self.old
            ≡ before (take n buf.new) (⟦<MemSource as Source>⟧.left self.new)) }
        ensures end { IfOk result (λ n. n ≡ 0 → 0 < length buf.old → IsAtEnd (⟦<MemSource as Source>⟧.left self.new)) }
        ensures kept { OnErr result (⟦<MemSource as Source>⟧.left self.new ≡ ⟦<MemSource as Source>⟧.left self.old) }
        ensures cause { OnErr result
            (Rose (⟦<MemSource as Source>⟧.faults self.old) (⟦<MemSource as Source>⟧.faults self.new)) }
        ensures later { ⟦<MemSource as Source>⟧.faults self.old ≤ ⟦<MemSource as Source>⟧.faults self.new }

        // Exactly the listed calls fail, and another gives as much as there is and fits.
        ensures listed { IsErr result ↔ Contains self.old.fail self.old.next }
        ensures most { IfOk result (λ n. n ≡ min (length buf.old) (length self.old.left)) }
        ensures ok { IfOk result (λ n. self.new
            ≡ record self.old { left = drop n self.old.left; next = raised self.old.next }) }
        ensures err { OnErr result (self.new
            ≡ record self.old { next = raised self.old.next; faults = raised self.old.faults }) }
    {
        let listed = self.fail.contains(&self.next);
        self.next = self.next.saturating_add(1);
        if listed {
            self.faults = self.faults.saturating_add(1);
            return Err(Failed);
        }
        let count = copy_prefix(buf, &self.bytes[self.at..]);
        self.at += count;
        Ok(count)
    }
}
