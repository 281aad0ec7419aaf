use super::pieces::Piece;
use super::scenario::{EMPTY, Scenario, left_by};
use super::setting::{
    Call, PLAIN, REPLAY, REPLAY_THREE, RUN, RUN_THREE, Row, assert_put, assert_row, status_on,
    text_behind,
};
use rg_host::{Failed, Host, MemHost};
use std::process::Abort;
use std::test::Fail;

/// A host in memory that is read alone and notes how. Another process commits to its log: it opens the gate
/// of a frame that is staged there, just when that was first read. It tells nothing of its files.
#[derive(Drop)]
struct Watched {
    inner: MemHost,
    /// Where that gate stands.
    end: u64,
    /// How many reads of the log came to the gate or went behind it.
    looks: u64,
    /// How many calls were made on another file than the log.
    others: u64,
    puts: u64,
    reads: u64,
    disk_faults: u64,
    out_faults: u64,
}

impl Watched {
    fn new(inner: MemHost, end: u64) -> Watched {
        Watched {
            inner,
            end,
            looks: 0,
            others: 0,
            puts: 0,
            reads: 0,
            disk_faults: 0,
            out_faults: 0,
        }
    }
}

impl Host for Watched {
    ghost use Rattle.std.specs.Prelude.{None, ⊤};

    ghost now = { λ _. None };

    ghost may = { λ _ _. ⊤ };

    ghost clock = { λ _. 0 };

    ghost since = { λ _ _ _. ⊤ };

    ghost said = { λ _. None };

    ghost disk_faults = { λ host. host.disk_faults };

    ghost out_faults = { λ host. host.out_faults };

    ghost reads = { λ host. host.reads };

    ghost now_may = { λ _ _ _. tt };

    ghost counts_now = { λ _ _ _ _ _ _. tt };

    ghost only_now = { λ _ _ _. (tt, λ s is. Prim.cc is) };

    ghost sinks = { λ _ _ _ _ _ _. tt };

    fn len(&mut self, file: u32) -> Result<u64, Failed> {
        if file != 2 {
            self.others = self.others.saturating_add(1);
        }
        match self.inner.len(file) {
            Ok(length) => Ok(length),
            Err(failed) => {
                self.disk_faults = self.disk_faults.saturating_add(1);
                Err(failed)
            }
        }
    }

    fn read_at(&mut self, file: u32, at: u64, buf: &mut [u8]) -> Result<usize, Failed> {
        self.reads = self.reads.saturating_add(1);
        if file != 2 {
            self.others = self.others.saturating_add(1);
        } else if at.saturating_add(buf.len() as u64) > self.end {
            self.looks = self.looks.saturating_add(1);
        }
        match self.inner.read_at(file, at, buf) {
            Ok(count) => {
                if self.looks == 1 && at == self.end && count > 0 {
                    buf[0] = 0;
                }
                Ok(count)
            }
            Err(failed) => {
                self.disk_faults = self.disk_faults.saturating_add(1);
                Err(failed)
            }
        }
    }

    fn write_at(&mut self, file: u32, at: u64, bytes: &[u8]) -> Result<(), Failed> {
        self.disk_faults = self.disk_faults.saturating_add(1);
        Err(Failed)
    }

    fn sync(&mut self, file: u32) -> Result<(), Failed> {
        self.disk_faults = self.disk_faults.saturating_add(1);
        Err(Failed)
    }

    fn put(&mut self, bytes: &[u8]) -> Result<usize, Failed> {
        self.puts = self.puts.saturating_add(1);
        match self.inner.put(bytes) {
            Ok(count) => Ok(count),
            Err(failed) => {
                self.out_faults = self.out_faults.saturating_add(1);
                Err(failed)
            }
        }
    }
}

/// A store to which another process commits, and replays of it, one after the other.
#[derive(Clone, Copy)]
struct Watching<'a> {
    store: Scenario<'a>,
    /// Where the gate stands that the other process opens.
    end: u64,
    /// The first replay, how it reads, and by how many puts it answers.
    first: Call<'a>,
    looks: u64,
    others: u64,
    puts: u64,
    /// Whether it puts more than 65,536 bytes.
    is_long: bool,
    then: &'a [Call<'a>],
}

/// A run over a fourth payment.
const RUN_FOURTH: Call<'static> = Call {
    words: &["run", "plan", "store", "3"],
    input: b"300001,c1,m1,7\n",
    wanted: "open 3 3 3\n3 ok 3 257\nstored 4\nsaved 4\nstored 4\nsaved 4\ndone 4 4\n",
    ..RUN
};

/// A replay of all four payments.
const REPLAY_FOUR: Call<'static> = Call {
    wanted: "0 ok 1 100\n1 ok 2 300\n2 ok 2 250\n3 ok 3 257\ndone 4 4\n",
    ..REPLAY
};

/// A run over 2,600 payments of a million millions each, whose replies have more than 65,536 bytes, and fewer than twice
/// as many.
const RUN_MANY: Call<'static> = Call {
    more_input: &[Piece::Each(0, 2600, "#,c1,m1,1000000000000\n")],
    wanted: "open 0 0 0\n",
    more_wanted: &[
        Piece::Each(0, 1024, "# ok @ @000000000000\n"),
        Piece::Is("stored 1024\n"),
        Piece::Each(1024, 2048, "# ok @ @000000000000\n"),
        Piece::Is("stored 2048\n"),
        Piece::Each(2048, 2600, "# ok @ @000000000000\n"),
        Piece::Is("stored 2600\nsaved 2600\ndone 2600 2600\n"),
    ],
    ..PLAIN
};

/// A replay of those.
const REPLAY_MANY: Call<'static> = Call {
    settings: "",
    more_wanted: &[
        Piece::Each(0, 2600, "# ok @ @000000000000\n"),
        Piece::Is("done 2600 2600\n"),
    ],
    ..REPLAY
};

/// A call on this host puts what is wanted behind what was put before, and ends so. Gives how much it puts.
fn assert_watched(
    rt: &(impl Abort + AllocGlobal),
    row: Row<'_>,
    call: &Call<'_>,
    host: &mut Watched,
) -> Result<usize, Fail> {
    let before = host.inner.output().len();
    let status = status_on(rt.alloc(), call, host)?;
    let text = text_behind(&host.inner, before);
    assert_put(rt, row, call, text, status)?;
    Ok(text.len())
}

/// Whether a host was read and put to as its first replay has to do, which put so many bytes.
fn is_read(watching: &Watching<'_>, host: &Watched, size: usize) -> bool {
    host.looks == watching.looks
        && host.others == watching.others
        && host.puts == watching.puts
        && (size > 65_536) == watching.is_long
}

/// The replays of this store, on this host.
fn assert_read_on(
    rt: &(impl Abort + AllocGlobal),
    watching: &Watching<'_>,
    host: &mut Watched,
) -> Result<(), Fail> {
    let says = watching.store.says;
    let size = assert_watched(rt, Row { says, number: 0 }, &watching.first, host)?;
    assert_row(
        rt,
        Row { says, number: 0 },
        "it reads so",
        is_read(watching, host, size),
    )?;
    for call in watching.then {
        assert_watched(rt, Row { says, number: 1 }, call, host)?;
    }
    Ok(())
}

fn assert_read(rt: &(impl Abort + AllocGlobal), watching: &Watching<'_>) -> Result<(), Fail> {
    let mut host = Watched::new(left_by(rt, &watching.store)?, watching.end);
    let done = assert_read_on(rt, watching, &mut host);
    drop(host);
    done
}

fn assert_each_read(rt: &(impl Abort + AllocGlobal), rows: &[Watching<'_>]) -> Result<(), Fail> {
    for watching in rows {
        assert_read(rt, watching)?;
    }
    Ok(())
}

const WATCHED: &[Watching<'static>] = &[
    // It reads the gate that is its end once, nothing behind it, and no slot; the next one goes on behind it.
    Watching {
        store: Scenario {
            says: "a replay reads the log up to the end that it found",
            runs: &[RUN_THREE, RUN_FOURTH],
            ..EMPTY
        },
        end: 236,
        first: REPLAY_THREE,
        looks: 1,
        others: 0,
        puts: 1,
        is_long: false,
        then: &[REPLAY_FOUR],
    },
    Watching {
        store: Scenario {
            says: "many replies are put together",
            runs: &[RUN_MANY],
            ..EMPTY
        },
        end: u64::MAX,
        first: REPLAY_MANY,
        looks: 0,
        others: 0,
        puts: 2,
        is_long: true,
        then: &[],
    },
];

#[test]
fn a_replay_reads_the_log_alone_and_puts_its_replies_together(rt: HostRuntime) -> Result<(), Fail> {
    assert_each_read(&rt, WATCHED)
}
