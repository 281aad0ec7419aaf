ghost use Rattle.std.specs.Prelude.{◌≡◌, ◌≤◌, ◌^◌, ℕ, Some, true, codes, bytes_eq};
ghost use Rattle.rg_bytes.specs.Numbers.{whole_of};
ghost use Rattle.rg_commands.specs.Call.{command_of, with_file, with_two, with_first, run_at, replay_at, trial_at};

use rg_bytes::read_whole;

/// The greatest offset that the first line of an input may have.
const MAX_FIRST_OFFSET: u64 = 1 << 61;

/// The greatest offset from which a replay may put lines. Each payment's is less, so there it puts none.
const MAX_REPLAY_OFFSET: u64 = 1 << 62;

/// The greatest number of lines of a trial.
const TRIAL_LINES: u64 = 200_000;

/// What the words after the program's name ask for.
#[derive(Clone, Copy, Debug, PartialEq, Eq, Hash)]
pub enum Command {
    /// `run PLAN STORE FIRST`: the first line of the input has that offset, 0 where it isn't said.
    Run(u64),
    /// `replay PLAN STORE FIRST`: the least offset whose line is put, 0 where it isn't said.
    Replay(u64),
    /// `verify PLAN STORE`
    Verify,
    /// `check PLAN`
    Check,
    /// `dump STORE`
    Dump,
    /// `info STORE`
    Info,
    /// `self N SEED`: a trial on N made lines of a seed, N at most 200,000.
    Trial(u64, u64),
}

/// The command of two words of which this is the first, where they are one.
fn with_file(command: &str) -> Option<Command>
    ensures { result ≡ with_file (bytes_eq command.now (codes "check")) (bytes_eq command.now (codes "dump")) (bytes_eq command.now (codes "info")) }
{
    if command == "check" {
        Some(Command::Check)
    } else if command == "dump" {
        Some(Command::Dump)
    } else if command == "info" {
        Some(Command::Info)
    } else {
        None
    }
}

/// The run whose first line has the offset that this text says, where it says one.
fn run_from(first: &[u8]) -> Option<Command>
    ensures { result ≡ run_at (whole_of first.now) }
{
    match read_whole(first) {
        Some(first) if first <= MAX_FIRST_OFFSET => Some(Command::Run(first)),
        _ => None,
    }
}

/// The replay from the offset on that this text says, where it says one.
fn replay_from(first: &[u8]) -> Option<Command>
    ensures { result ≡ replay_at (whole_of first.now) }
{
    match read_whole(first) {
        Some(first) if first <= MAX_REPLAY_OFFSET => Some(Command::Replay(first)),
        _ => None,
    }
}

/// The trial on as many lines of a seed as these texts say, where they say so.
fn trial_on(lines: &[u8], seed: &[u8]) -> Option<Command>
    ensures { result ≡ trial_at (whole_of lines.now) (whole_of seed.now) }
{
    match (read_whole(lines), read_whole(seed)) {
        (Some(lines), Some(seed)) if lines <= TRIAL_LINES => Some(Command::Trial(lines, seed)),
        _ => None,
    }
}

/// The command of three words of which this is the first and these are the others, where they are one.
fn with_two(command: &str, second: &[u8], third: &[u8]) -> Option<Command>
    ensures { result ≡ with_two (bytes_eq command.now (codes "run")) (bytes_eq command.now (codes "replay")) (bytes_eq command.now (codes "verify")) (bytes_eq command.now (codes "self")) (whole_of second.now) (whole_of third.now) }
{
    if command == "run" {
        Some(Command::Run(0))
    } else if command == "replay" {
        Some(Command::Replay(0))
    } else if command == "verify" {
        Some(Command::Verify)
    } else if command == "self" {
        trial_on(second, third)
    } else {
        None
    }
}

/// The command of four words of which these are the first and the last, where they are one.
fn with_first(command: &str, first: &[u8]) -> Option<Command>
    ensures { result ≡ with_first (bytes_eq command.now (codes "run")) (bytes_eq command.now (codes "replay")) (whole_of first.now) }
{
    if command == "run" {
        run_from(first)
    } else if command == "replay" {
        replay_from(first)
    } else {
        None
    }
}

impl Command {
    /// The command of these words, where they are one.
    pub fn named(words: &[String]) -> Option<Command>
        ensures { result ≡ command_of words.now }
    {
        match words {
            [command, _] => with_file(command.as_str()),
            [command, second, third] => {
                with_two(command.as_str(), second.as_bytes(), third.as_bytes())
            }
            [command, _, _, first] => with_first(command.as_str(), first.as_bytes()),
            _ => None,
        }
    }
}
