use super::changes::Change;
use super::pieces::{Piece, written};
use rg_commands::railgun;
use rg_host::{Host, MemHost, MemSource};
use rg_messages::Status;
use std::alloc::Global;
use std::process::Abort;
use std::str;
use std::test::Fail;

const PAYMENTS: &str = "\"ts\", \"card:text\", \"merchant:text\", \"amount:int\"";

pub(super) const CARDS: &str = "\"ts\", \"card:text\"";

/// The columns of payments that have a country besides.
pub(super) const COUNTRIES: &str =
    "\"ts\", \"card:text\", \"merchant:text\", \"amount:int\", \"country:text\"";

const TOTALS: &str =
    "SELECT count(*), sum(amount) FROM payments GROUP BY card OVER SLIDING 5 minutes";

pub(super) const MERCHANTS: &str =
    "SELECT countDistinct(merchant) FROM payments GROUP BY card OVER SLIDING 10 ms";

pub(super) const SMALL: &str = "cache = 1\nchunk = 2\ncommit = 2\nsave = 4\n";

/// Small settings by which a payment may be earlier than the last one by one millisecond.
pub(super) const GRACED: &str = "cache = 1\nchunk = 2\ncommit = 2\nsave = 4\ngrace = 1\n";

/// Three payments of one card, of which the third meets a window without the first.
pub(super) const THREE: &[u8] = b"0,c1,m1,100\n299999,c1,m2,200\n300000,c1,m1,50\n";

/// What a run in small chunks over an empty store puts for them.
pub(super) const THREE_PUT: &str =
    "open 0 0 0\n0 ok 1 100\n1 ok 2 300\nstored 2\n2 ok 2 250\nstored 3\nsaved 3\ndone 3 3\n";

/// Eight payments of one card.
pub(super) const EIGHT: &[u8] =
    b"0,c1,m1,1\n1,c1,m1,1\n2,c1,m1,1\n3,c1,m1,1\n4,c1,m1,1\n5,c1,m1,1\n6,c1,m1,1\n7,c1,m1,1\n";

/// What a run in small chunks over an empty store puts for them.
const EIGHT_PUT: &str =
    "open 0 0 0\n0 ok 1 1\n1 ok 2 2\nstored 2\n2 ok 3 3\n3 ok 4 4\nstored 4\nsaved 4\n4 ok 5 5\n5 ok 6 6\nstored 6\n6 ok 7 7\n7 ok 8 8\nstored 8\nsaved 8\nstored 8\nsaved 8\ndone 8 8\n";

/// The frame of the schema `payments(ts,card:text,merchant:text,amount:int)`, that of a chunk of
/// two payments, and a closed gate.
pub(super) const LOG: &[u8] =
    b"\x01\0\0\0\0\0\0\0\x30Spayments(ts,card:text,merchant:text,amount:int)\x01\0\0\0\0\0\0\0\x61C\0\0\0\x02\0\0\0\0\0\0\0\0\0\0\0\0\0\0\0\0\0\0\0\0\0\0\0\x01\0\0\0\0\0\x04\x93\xdf\0\0\0\0\0\0\0\0\0\0\0\0\0\0\0\0\x02c1\x02m1\0\0\0\0\0\0\0\x64\0\0\0\0\0\0\0\x01\0\0\0\0\0\x04\x93\xdf\x02c1\x02m2\0\0\0\0\0\0\0\xc8\0";

/// The same frames and that of a chunk of one payment behind them, all chunks by rows, and a closed gate.
pub(super) const ROWS: &[u8] =
    b"\x01\0\0\0\0\0\0\0\x30Spayments(ts,card:text,merchant:text,amount:int)\x01\0\0\0\0\0\0\0\x61C\0\0\0\x02\0\0\0\0\0\0\0\0\0\0\0\0\0\0\0\0\0\0\0\0\0\0\0\x01\0\0\0\0\0\x04\x93\xdf\0\0\0\0\0\0\0\0\0\0\0\0\0\0\0\0\x02c1\x02m1\0\0\0\0\0\0\0\x64\0\0\0\0\0\0\0\x01\0\0\0\0\0\x04\x93\xdf\x02c1\x02m2\0\0\0\0\0\0\0\xc8\x01\0\0\0\0\0\0\0\x43C\0\0\0\x01\0\0\0\0\0\0\0\x02\0\0\0\0\0\x04\x93\xe0\0\0\0\0\0\0\0\x02\0\0\0\0\0\x04\x93\xe0\0\0\0\0\0\0\0\x02\0\0\0\0\0\x04\x93\xe0\x02c1\x02m1\0\0\0\0\0\0\0\x32\0";

/// A log of an open gate and the length 255, behind which one byte stands.
pub(super) const DAMAGED_LOG: &[u8] = b"\x01\0\0\0\0\0\0\0\xff\0";

/// What of a text that a call put has to be the wanted one.
#[derive(Clone, Copy)]
pub(super) enum Compared {
    /// All of it.
    All,
    /// The same without the answers behind each `ok`.
    WithoutAnswers,
    /// Whole lines stand there that the wanted text begins with, and then the last line.
    FrontAndLast,
}

/// What a call finds, what it puts, and how it ends.
#[derive(Clone, Copy)]
pub(super) struct Call<'a> {
    pub(super) words: &'a [&'a str],
    /// The plan's queries, as they stand between its outer quotes.
    pub(super) query: &'a str,
    pub(super) columns: &'a str,
    pub(super) settings: &'a str,
    /// The whole plan, where it isn't made of these.
    pub(super) plan: &'a [Piece<'a>],
    /// The changes of the first slot before the call. Those of a scenario's runs have none, here and below.
    pub(super) slot: &'a [Change<'a>],
    /// The changes of the log before it.
    pub(super) log: &'a [Change<'a>],
    pub(super) input: &'a [u8],
    /// What stands behind that in the input.
    pub(super) more_input: &'a [Piece<'a>],
    pub(super) failing_plan_reads: &'a [u64],
    pub(super) failing_reads: &'a [u64],
    pub(super) wanted: &'a str,
    /// What is wanted behind that.
    pub(super) more_wanted: &'a [Piece<'a>],
    pub(super) compared: Compared,
    /// The last line behind lines that the wanted text begins with.
    pub(super) last: &'a str,
    pub(super) ends: Status,
}

/// A run over payments, in small chunks, that nothing fails.
pub(super) const RUN: Call<'static> = Call {
    words: &["run", "plan", "store"],
    query: TOTALS,
    columns: PAYMENTS,
    settings: SMALL,
    plan: &[],
    slot: &[],
    log: &[],
    input: b"",
    more_input: &[],
    failing_plan_reads: &[],
    failing_reads: &[],
    wanted: "",
    more_wanted: &[],
    compared: Compared::All,
    last: "",
    ends: Status::Ok,
};

/// The same by the default settings.
pub(super) const PLAIN: Call<'static> = Call {
    settings: "",
    ..RUN
};

/// A run over three payments.
pub(super) const RUN_THREE: Call<'static> = Call {
    input: THREE,
    wanted: THREE_PUT,
    ..RUN
};

/// A run over eight payments.
pub(super) const RUN_EIGHT: Call<'static> = Call {
    input: EIGHT,
    wanted: EIGHT_PUT,
    ..RUN
};

/// A run over sixteen payments of one card, the first eight of them those. It leaves changes in both slots.
pub(super) const RUN_SIXTEEN: Call<'static> = Call {
    input: b"0,c1,m1,1\n1,c1,m1,1\n2,c1,m1,1\n3,c1,m1,1\n4,c1,m1,1\n5,c1,m1,1\n6,c1,m1,1\n7,c1,m1,1\n8,c1,m1,1\n9,c1,m1,1\n10,c1,m1,1\n11,c1,m1,1\n12,c1,m1,1\n13,c1,m1,1\n14,c1,m1,1\n15,c1,m1,1\n",
    wanted: "open 0 0 0\n0 ok 1 1\n1 ok 2 2\nstored 2\n2 ok 3 3\n3 ok 4 4\nstored 4\nsaved 4\n4 ok 5 5\n5 ok 6 6\nstored 6\n6 ok 7 7\n7 ok 8 8\nstored 8\nsaved 8\n8 ok 9 9\n9 ok 10 10\nstored 10\n10 ok 11 11\n11 ok 12 12\nstored 12\nsaved 12\n12 ok 13 13\n13 ok 14 14\nstored 14\n14 ok 15 15\n15 ok 16 16\nstored 16\nsaved 16\nstored 16\nsaved 16\ndone 16 16\n",
    ..RUN
};

/// A dump, which fails where it reads a plan or an input.
pub(super) const DUMP: Call<'static> = Call {
    words: &["dump", "store"],
    failing_plan_reads: &[0],
    failing_reads: &[0],
    ..RUN
};

/// An `info` of a store with three payments and the checkpoint of them, which fails where it reads a plan or an input.
pub(super) const INFO: Call<'static> = Call {
    words: &["info", "store"],
    failing_plan_reads: &[0],
    failing_reads: &[0],
    wanted: "events 3\nnext 3\ntime 300000\nframes 3\nslot 0 3 1\nslot 1 none\n",
    ..RUN
};

/// A replay, which fails where it reads an input.
pub(super) const REPLAY: Call<'static> = Call {
    words: &["replay", "plan", "store"],
    failing_reads: &[0],
    ..RUN
};

/// A replay of the three payments.
pub(super) const REPLAY_THREE: Call<'static> = Call {
    wanted: "0 ok 1 100\n1 ok 2 300\n2 ok 2 250\ndone 3 3\n",
    ..REPLAY
};

/// A verify, which fails where it reads an input.
pub(super) const VERIFY: Call<'static> = Call {
    words: &["verify", "plan", "store"],
    failing_reads: &[0],
    ..RUN
};

/// A verify of the store of three payments.
pub(super) const VERIFY_THREE: Call<'static> = Call {
    wanted: "slot 0 ok 3\nslot 1 none\n",
    ..VERIFY
};

/// The text of a plan of a call's queries, columns and settings.
fn text_of(alloc: Global, call: &Call<'_>) -> Result<String, Fail> {
    let Call {
        query,
        columns,
        settings,
        ..
    } = *call;
    Ok(format!(in alloc;
        "queries = [\"{query}\"]\n\n[stream]\nname = \"payments\"\ncolumns = [{columns}]\n\n[settings]\n{settings}"
    )?)
}

/// The bytes of a call's plan.
fn plan_of(alloc: Global, call: &Call<'_>) -> Result<Vec<u8>, Fail> {
    if call.plan.is_empty() {
        return Ok(text_of(alloc, call)?.into_bytes());
    }
    written(alloc, b"", call.plan)
}

fn words_of(alloc: Global, words: &[&str]) -> Result<Vec<String>, Fail> {
    let mut owned = Vec::new(alloc);
    for word in words {
        owned.push(String::from_str(alloc, word)?)?;
    }
    Ok(owned)
}

/// Where a call's plan is read from.
fn plan_source(alloc: Global, call: &Call<'_>) -> Result<MemSource, Fail> {
    let failing = call.failing_plan_reads.to_vec(alloc)?;
    Ok(MemSource::new(plan_of(alloc, call)?, failing))
}

/// Where its input is read from.
fn input_source(alloc: Global, call: &Call<'_>) -> Result<MemSource, Fail> {
    let failing = call.failing_reads.to_vec(alloc)?;
    Ok(MemSource::new(written(alloc, call.input, call.more_input)?, failing))
}

/// What the program is handed.
#[derive(Drop)]
struct Given {
    words: Vec<String>,
    plan: MemSource,
    input: MemSource,
}

impl Given {
    fn new(alloc: Global, call: &Call<'_>) -> Result<Given, Fail> {
        Ok(Given {
            words: words_of(alloc, call.words)?,
            plan: plan_source(alloc, call)?,
            input: input_source(alloc, call)?,
        })
    }

    fn ends_on<H: Host>(&mut self, alloc: Global, host: &mut H) -> Status {
        let mut refusal = None;
        railgun(
            alloc,
            &self.words,
            &mut self.plan,
            &mut self.input,
            host,
            &mut refusal,
        )
    }
}

/// The status of a call on this host.
pub(super) fn status_on<H: Host>(
    alloc: Global,
    call: &Call<'_>,
    host: &mut H,
) -> Result<Status, Fail> {
    let mut given = Given::new(alloc, call)?;
    let status = given.ends_on(alloc, host);
    drop(given);
    Ok(status)
}

/// What a host has put behind so many bytes.
pub(super) fn text_behind(host: &MemHost, before: usize) -> &str {
    str::from_utf8(host.output().get(before..).unwrap_or(b"")).unwrap_or("no text")
}

/// Adds a text's lines, without the answers behind each `ok`.
fn put_unanswered(rest: &mut String, text: &str) -> Result<(), Fail> {
    for line in text.lines() {
        match line.split_once(" ok ") {
            Some((offset, _)) => write!(rest, "{offset} ok\n")?,
            None => write!(rest, "{line}\n")?,
        }
    }
    Ok(())
}

fn without_answers(alloc: Global, text: &str) -> Result<String, Fail> {
    let mut rest = String::new(alloc);
    match put_unanswered(&mut rest, text) {
        Ok(()) => Ok(rest),
        Err(fail) => Err(fail),
    }
}

/// Whether whole lines stand in a text that these begin with, and then this last line.
fn is_front_and(text: &str, lines: &str, last: &str) -> bool {
    match text.strip_suffix(last) {
        Some(front) => lines.starts_with(front) && (front.is_empty() || front.ends_with('\n')),
        None => false,
    }
}

/// The wanted text, where whole lines of it and the last line are put.
fn front_shown(alloc: Global, call: &Call<'_>, text: &str) -> Result<String, Fail> {
    if is_front_and(text, call.wanted, call.last) {
        return Ok(String::from_str(alloc, call.wanted)?);
    }
    Ok(format!(in alloc; "no whole lines and then the last one: {text}")?)
}

/// What is compared of a text that a call put.
fn shown(alloc: Global, call: &Call<'_>, text: &str) -> Result<String, Fail> {
    match call.compared {
        Compared::All => Ok(String::from_str(alloc, text)?),
        Compared::WithoutAnswers => without_answers(alloc, text),
        Compared::FrontAndLast => front_shown(alloc, call, text),
    }
}

/// Which check it is: what is said of it, and a number by which it is told from others of which the same is said.
#[derive(Clone, Copy)]
pub(super) struct Row<'a> {
    pub(super) says: &'a str,
    pub(super) number: usize,
}

/// What is wanted of a call: that it puts this text with these parts behind it, and ends so.
#[derive(Clone, Copy)]
pub(super) struct Wanted<'a> {
    pub(super) text: &'a str,
    pub(super) more: &'a [Piece<'a>],
    pub(super) ends: Status,
}

/// What is said of that call holds.
pub(super) fn assert_row(
    rt: &impl Abort,
    row: Row<'_>,
    what: &str,
    holds: bool,
) -> Result<(), Fail> {
    assert!(rt; holds, "{}, {}: {what}", row.says, row.number);
    Ok(())
}

fn assert_same(
    rt: &impl Abort,
    row: Row<'_>,
    put: (&str, Status),
    wanted: (&str, Status),
) -> Result<(), Fail> {
    assert_eq!(rt; put, wanted, "{}, {}", row.says, row.number);
    Ok(())
}

/// A call has put this text and ended so, as wanted.
pub(super) fn assert_wanted(
    rt: &(impl Abort + AllocGlobal),
    row: Row<'_>,
    text: &str,
    status: Status,
    wanted: Wanted<'_>,
) -> Result<(), Fail> {
    let bytes = written(rt.alloc(), wanted.text.as_bytes(), wanted.more)?;
    let all = str::from_utf8(&bytes).unwrap_or("no text");
    let done = assert_same(rt, row, (text, status), (all, wanted.ends));
    drop(bytes);
    done
}

/// A call has put what is wanted, and ended so.
pub(super) fn assert_put(
    rt: &(impl Abort + AllocGlobal),
    row: Row<'_>,
    call: &Call<'_>,
    text: &str,
    status: Status,
) -> Result<(), Fail> {
    let put = shown(rt.alloc(), call, text)?;
    let wanted = Wanted {
        text: call.wanted,
        more: call.more_wanted,
        ends: call.ends,
    };
    let done = assert_wanted(rt, row, put.as_str(), status, wanted);
    drop(put);
    done
}
