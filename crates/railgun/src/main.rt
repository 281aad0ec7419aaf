//! Answers each payment with exact metrics over windows that end at that payment.
#![tactic(auto)]

ghost use Rattle.std.specs.Prelude.{◌≡◌, ◌↔◌, ℕ, Some};
ghost use Rattle.rg_commands.specs.Call.{command_of};

use rg_commands::{Command, railgun};
use rg_dump::dump;
use rg_hints::{hints, schema_hints};
use rg_messages::{FailedFile, Refusal, Report, Status};
use rg_os::{Access, Counted, Failure, FileSource, FirstLine, FolderHost, ReaderSource};
use std::io::IsTerminal;
use std::process::ExitCode;
use std::{env, io};

/// The words after the program's name.
fn words(rt: &HostRuntime) -> io::Result<Vec<String>> {
    let mut words = Vec::new(rt.alloc());
    for word in env::args(rt)?.skip(1) {
        words.push(word)?;
    }
    Ok(words)
}

/// What is done with the store: only a run writes it.
fn access_of(words: &[String]) -> Access
    ensures { (result ≡ Access.Write) ↔ ((first : ℕ) × (command_of words.now ≡ Some (Command.Run first))) }
{
    match Command::named(words) {
        Some(Command::Run(_)) => Access::Write,
        Some(
            Command::Replay(_)
            | Command::Verify
            | Command::Check
            | Command::Dump
            | Command::Info
            | Command::Trial(_, _),
        )
        | None => Access::Read,
    }
}

/// Runs the program on the real outside, and tells standard error of a call that ended early. Where standard error is a
/// terminal, it is told how far an opening has come, and at the end of each kind of reply how many there were.
fn run_on(rt: &HostRuntime, words: &[String]) -> Status {
    let path = match words.get(1) {
        Some(path) => path.as_str(),
        None => "",
    };
    let store = match words.get(2) {
        Some(store) => store.as_str(),
        None => path,
    };
    let access = access_of(words);
    let is_watched = access == Access::Write && rt.stderr().is_terminal();
    tell_missing(rt, words, store);
    let mut plan = FileSource::new(rt, path);
    let mut input = ReaderSource::new(rt.stdin());
    let mut host = FolderHost::new(
        rt,
        rt.alloc(),
        store,
        access,
        Counted::new(rt.stdout(), is_watched),
    );
    if is_watched {
        host.watch();
    }
    let mut refusal = None;
    let status = railgun(
        rt.alloc(),
        words,
        &mut plan,
        &mut input,
        &mut host,
        &mut refusal,
    );
    let failure = failed("", plan.failure())
        .or(failed("", input.failure()))
        .or(failed(store, host.disk_failure()))
        .or(failed("", host.failure()));
    tell(
        rt,
        Report {
            status,
            plan: path,
            refusal,
            failure,
        },
    );
    tell_hints(rt, status, path, store, refusal);
    if is_watched {
        let _ = rt.eprintln(host.writer());
    }
    status
}

/// Tells standard error where a command is given a folder that isn't there, in which a typing error would show.
fn tell_missing(rt: &HostRuntime, words: &[String], store: &str) {
    let told = match Command::named(words) {
        Some(Command::Run(_)) => "is a new store",
        Some(Command::Replay(_) | Command::Verify | Command::Dump | Command::Info) => {
            "isn't there, and is taken for an empty store"
        }
        Some(Command::Check | Command::Trial(_, _)) | None => return,
    };
    if let Err(error) = std::fs::metadata(rt, store) {
        if error.kind() == io::ErrorKind::NotFound {
            let _ = eprintln!(rt; "{store}: the folder {told}");
        }
    }
}

/// A failure of a file in this folder, or of what has no folder.
fn failed<'a>(folder: &'a str, failure: Option<Failure<'a>>) -> Option<FailedFile<'a>> {
    match failure {
        Some(Failure { name, error }) => Some(FailedFile {
            folder,
            name,
            error,
        }),
        None => None,
    }
}

/// Tells standard error of a call that ended early. That this fails changes nothing.
fn tell(rt: &HostRuntime, report: Report) {
    if report.status != Status::Ok {
        let _ = rt.eprintln(report);
    }
}

/// Tells standard error what helps to mend a plan that was refused, or a plan and a store that differ. A plan that is no
/// plain file can't be read again.
fn tell_hints(rt: &HostRuntime, status: Status, path: &str, store: &str, refusal: Option<Refusal>) {
    if status != Status::Plan && status != Status::Store {
        return;
    }
    let is_file = match std::fs::metadata(rt, path) {
        Ok(entry) => entry.is_file(),
        Err(_) => false,
    };
    if !is_file {
        return;
    }
    if let Ok(plan) = std::fs::read(rt, path) {
        let hints = match refusal {
            Some(refusal) => hints(rt.alloc(), &plan, refusal.fault),
            None => schema_hints(rt.alloc(), schema_of(rt, store).as_str(), &plan),
        };
        if let Ok(hints) = hints {
            let _ = rt.eprint(hints);
        }
    }
}

/// The text of a store's schema: the first line of its dump. It is empty where there is none.
fn schema_of(rt: &HostRuntime, store: &str) -> String {
    let first = FirstLine::new(rt.alloc());
    let mut host = FolderHost::new(rt, rt.alloc(), store, Access::Read, first);
    let _ = dump(rt.alloc(), &mut host);
    host.into_writer().into_text()
}

/// Runs the program on its words. Words that are no text are no form of a command.
fn main(rt: HostRuntime) -> ExitCode {
    let status = match words(&rt) {
        Ok(words) => run_on(&rt, &words),
        Err(error) if error.kind() == io::ErrorKind::OutOfMemory => Status::Memory,
        Err(_) => run_on(&rt, &[]),
    };
    ExitCode::from(status.number())
}
