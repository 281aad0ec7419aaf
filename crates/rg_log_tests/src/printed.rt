use crate::row::wrong_unless;
use crate::store::store;
use rg_bytes::Memory;
use rg_dump::{DumpFault, dump};
use rg_host::{Host, MemHost};
use rg_info::{InfoFault, info};
use std::alloc::Global;

/// What prints a store.
#[derive(Clone, Copy)]
pub(crate) enum Printer {
    Dump,
    Info,
}

/// What is printed of a store of a log, which is left as it is.
#[derive(Clone, Copy)]
pub(crate) struct Print<'a> {
    pub printer: Printer,
    /// The slots of the store.
    pub first: &'a [u8],
    pub second: &'a [u8],
    /// Whether each call of the host fails in turn. Then the output is a front of the text.
    pub fails: bool,
    /// How it ends; where calls fail, how it ends where the last one does.
    pub ends: Result<(), DumpFault>,
    pub text: &'a [u8],
}

/// A dump of a store without slots.
pub(crate) const DUMP: Print<'_> = Print {
    printer: Printer::Dump,
    first: b"",
    second: b"",
    fails: false,
    ends: Ok(()),
    text: b"",
};

/// The info of one.
pub(crate) const INFO: Print<'_> = Print {
    printer: Printer::Info,
    ..DUMP
};

/// How a print went.
#[derive(Clone, Copy)]
struct Ending {
    ends: Result<(), DumpFault>,
    /// How many bytes were put, where they are a front of the text and the store is as it was.
    length: Option<usize>,
    calls: u64,
}

fn ends(alloc: Global, host: &mut MemHost, printer: Printer) -> Result<(), DumpFault> {
    match printer {
        Printer::Dump => dump(alloc, host),
        Printer::Info => match info(alloc, host) {
            Ok(()) => Ok(()),
            Err(InfoFault::Disk) => Err(DumpFault::Disk),
            Err(InfoFault::Damaged(place)) => Err(DumpFault::Damaged(place)),
            Err(InfoFault::Memory) => Err(DumpFault::Memory),
            Err(InfoFault::Write) => Err(DumpFault::Write),
        },
    }
}

fn is_left(host: &MemHost, log: &[u8], print: &Print<'_>) -> bool {
    host.file(0) == print.first && host.file(1) == print.second && host.file(2) == log
}

fn printed_on(alloc: Global, host: &mut MemHost, log: &[u8], print: &Print<'_>) -> Ending {
    let ends = ends(alloc, host, print.printer);
    let is_so = print.text.starts_with(host.output()) && is_left(host, log, print);
    Ending {
        ends,
        length: if is_so {
            Some(host.output().len())
        } else {
            None
        },
        calls: host.calls(),
    }
}

/// Prints the store of this log on a host whose calls of these numbers fail.
fn printed(
    alloc: Global,
    log: &[u8],
    print: &Print<'_>,
    failing: &[u64],
) -> Result<Ending, Memory> {
    let mut host = store(alloc, print.first, print.second, log, failing)?;
    let printed = printed_on(alloc, &mut host, log, print);
    drop(host);
    Ok(printed)
}

/// Whether a print fails so where this call does.
fn fails(
    alloc: Global,
    log: &[u8],
    print: &Print<'_>,
    call: u64,
    is_last: bool,
) -> Result<bool, Memory> {
    let printed = printed(alloc, log, print, &[call])?;
    let is_fault = matches!(printed.ends, Err(DumpFault::Disk | DumpFault::Write));
    let is_so = !is_last || printed.ends == print.ends;
    Ok(is_fault && is_so && printed.length.is_some())
}

/// The number of the first of so many calls that fails otherwise, if one does.
fn first_other(
    alloc: Global,
    log: &[u8],
    print: &Print<'_>,
    calls: u64,
) -> Result<Option<usize>, Memory> {
    let mut number = 0usize;
    for call in 0..calls {
        if !fails(alloc, log, print, call, call == calls.saturating_sub(1))? {
            return Ok(Some(number));
        }
        number = number.saturating_add(1);
    }
    Ok(None)
}

/// Which call fails otherwise, if one does, or 0 where a print without failing calls goes otherwise.
pub(crate) fn print_wrong(
    alloc: Global,
    log: &[u8],
    print: &Print<'_>,
) -> Result<Option<usize>, Memory> {
    let printed = printed(alloc, log, print, &[])?;
    if print.fails {
        if printed.ends.is_err() || printed.calls == 0 {
            return Ok(Some(0));
        }
        return first_other(alloc, log, print, printed.calls);
    }
    let is_whole = printed.length == Some(print.text.len());
    Ok(wrong_unless(is_whole && printed.ends == print.ends))
}
