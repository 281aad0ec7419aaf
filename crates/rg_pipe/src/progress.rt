ghost use Rattle.std.specs.Prelude.{◌≡◌, ◌≤◌, ◌+◌, ◌^◌, []};
ghost use Rattle.rg_pipe.specs.Handing.{expected_after};
ghost use Rattle.rg_pipe.specs.Judging.{sent_of};
ghost use Rattle.rg_pipe.specs.Assembling.{found_for};

use crate::judge::Kind;

/// What a request is where the next line is to have the expected offset. The text of a line stands apart.
#[derive(Clone, Copy, Debug, PartialEq, Eq)]
pub enum Found {
    /// A line that has the expected offset.
    Line(u64),
    /// A line whose offset is below the expected one.
    Again(u64),
    /// A line whose offset is above the expected one, which is the second.
    Gap(u64, u64),
    /// A commit.
    Commit,
    /// A save.
    Save,
}

/// How far a stream was handed out.
#[derive(Clone, Copy, Debug, PartialEq, Eq)]
pub struct Progress {
    /// How many bytes of the stream were handed out, at most 2^62.
    pub place: u64,
    /// The offset that the next line is to have, at most 2^62.
    pub expected: u64,
}

impl Progress {
    /// Hands out a legal request of so many bytes.
    pub fn pass(&mut self, kind: Kind, size: usize) -> Found
        requires counted { self.old.place + size ≤ 2 ^ 62 }
        requires small { self.old.expected ≤ 2 ^ 62 }
        ensures found { result ≡ found_for self.old.expected kind }
        ensures passed { self.new ≡ record {
          place = self.old.place + size;
          expected = expected_after self.old.expected (sent_of kind []);
        } }
    {
        self.place += size as u64;
        match kind {
            Kind::Line(offset) => self.pass_line(offset),
            Kind::Commit => Found::Commit,
            Kind::Save => Found::Save,
        }
    }

    /// Hands out a line of this offset.
    fn pass_line(&mut self, offset: u64) -> Found
        requires { self.old.expected ≤ 2 ^ 62 }
        ensures found { result ≡ found_for self.old.expected (Kind.Line offset) }
        ensures passed { self.new ≡ record self.old { expected = expected_after self.old.expected (sent_of (Kind.Line offset) []) } }
    {
        if offset < self.expected {
            return Found::Again(offset);
        }
        if offset > self.expected {
            return Found::Gap(offset, self.expected);
        }
        self.expected += 1;
        Found::Line(offset)
    }
}
