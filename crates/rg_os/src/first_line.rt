ghost use Rattle.std.specs.Prelude.{◌≤◌, length};

use std::alloc::Global;
use std::io;
use std::io::Write;

/// The greatest length of the line that is kept, in bytes.
const MAX_LINE_BYTES: usize = 4_096;

/// A writer that keeps the first line, without its LF, and fails behind it.
#[derive(Drop)]
pub struct FirstLine {
    line: Vec<u8>,
    is_whole: bool,
}

impl FirstLine {
    /// Nothing has come.
    pub fn new(alloc: Global) -> FirstLine {
        FirstLine {
            line: Vec::new(alloc),
            is_whole: false,
        }
    }

    /// The line, if it came whole and is text; else an empty one.
    pub fn into_text(self) -> String {
        let alloc = *self.line.allocator();
        if self.is_whole {
            if let Ok(text) = String::from_utf8(self.line) {
                return text;
            }
        }
        String::new(alloc)
    }

    fn push(&mut self, byte: u8) -> io::Result<()> {
        if self.is_whole || self.line.len() >= MAX_LINE_BYTES {
            return Err(io::Error::from(io::ErrorKind::WriteZero));
        }
        if byte == b'\n' {
            self.is_whole = true;
            return Ok(());
        }
        self.line.push(byte)?;
        Ok(())
    }
}

impl Write for FirstLine {
    fn write(&mut self, buf: &[u8]) -> io::Result<usize> {
        for byte in buf {
            self.push(*byte)?;
        }
        Ok(buf.len())
    }

    fn flush(&mut self) -> io::Result<()> {
        Ok(())
    }
}
