/// How many reads lie between two lines on how far an opening has come.
const READS_A_LINE: u64 = 512;

/// Whether standard error is told.
#[derive(Clone, Copy, PartialEq, Eq)]
enum Watch {
    Off,
    On,
    /// It is, and a line stands there.
    Told,
}

/// Tells standard error how far an opening has come that answers stored payments again.
#[derive(Drop)]
pub struct Progress<'a, R: Eprint> {
    rt: &'a R,
    watch: Watch,
}

impl<'a, R: Eprint> Progress<'a, R> {
    /// Tells nothing.
    pub fn off(rt: &'a R) -> Progress<'a, R> {
        Progress {
            rt,
            watch: Watch::Off,
        }
    }

    pub fn turn_on(&mut self) {
        self.watch = Watch::On;
    }

    /// Tells of a read of a file at a place in bytes, the one with this number, at some of the log's.
    pub fn tell(&mut self, file: u32, at: u64, reads: u64) {
        if self.watch == Watch::Off || file != 2 || reads % READS_A_LINE != 0 {
            return;
        }
        let _ = eprint!(self.rt; "\rreading stored payments: byte {at} of the log");
        self.watch = Watch::Told;
    }

    /// Takes the line away. Nothing more is told.
    pub fn end(&mut self) {
        if self.watch == Watch::Told {
            let _ = eprint!(self.rt; "\r\x1b[K");
        }
        self.watch = Watch::Off;
    }
}
