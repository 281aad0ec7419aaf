use super::pieces::Piece;
use super::scenario::{EMPTY, Scenario, assert_all, host_of};
use super::setting::{Call, PLAIN, status_on, text_behind};
use rg_messages::Status;
use std::alloc::Global;
use std::test::Fail;

/// A plan of 64 queries of a count and 15 sums by 8 columns, over windows of 1 to 64 ms, the last with a literal of 255
/// quotes, and of 32 columns, of which those of the key are text and the others int.
const GREATEST: &[Piece<'static>] = &[
    Piece::Is("queries = [\n"),
    Piece::Each(
        1,
        64,
        "\"SELECT count(*), sum(c9), sum(c10), sum(c11), sum(c12), sum(c13), sum(c14), sum(c15), sum(c16), sum(c17), sum(c18), sum(c19), sum(c20), sum(c21), sum(c22), sum(c23) FROM p GROUP BY c1, c2, c3, c4, c5, c6, c7, c8 OVER SLIDING # ms\",\n",
    ),
    Piece::Is(
        "\"SELECT count(*), sum(c9), sum(c10), sum(c11), sum(c12), sum(c13), sum(c14), sum(c15), sum(c16), sum(c17), sum(c18), sum(c19), sum(c20), sum(c21), sum(c22), sum(c23) FROM p WHERE c2 = '",
    ),
    Piece::Times(255, "''"),
    Piece::Is(
        "' GROUP BY c1, c2, c3, c4, c5, c6, c7, c8 OVER SLIDING 64 ms\",\n]\n[stream]\nname = \"p\"\ncolumns = [\"ts\"",
    ),
    Piece::Each(1, 9, ", \"c#:text\""),
    Piece::Each(9, 33, ", \"c#:int\""),
    Piece::Is("]\n"),
];

/// A run of a count by eight columns of text, over a row of eight texts of 255 bytes: each takes 257 bytes of a key,
/// which has 2,056.
const BY_TEXTS: Call<'static> = Call {
    query: "SELECT count(*) FROM payments GROUP BY a, b, c, d, e, f, g, h OVER INFINITE",
    columns: "\"ts\", \"a:text\", \"b:text\", \"c:text\", \"d:text\", \"e:text\", \"f:text\", \"g:text\", \"h:text\"",
    input: b"7",
    more_input: &[
        Piece::Is(","),
        Piece::Times(255, "x"),
        Piece::Is(","),
        Piece::Times(255, "x"),
        Piece::Is(","),
        Piece::Times(255, "x"),
        Piece::Is(","),
        Piece::Times(255, "x"),
        Piece::Is(","),
        Piece::Times(255, "x"),
        Piece::Is(","),
        Piece::Times(255, "x"),
        Piece::Is(","),
        Piece::Times(255, "x"),
        Piece::Is(","),
        Piece::Times(255, "x"),
        Piece::Is("\n"),
    ],
    ..PLAIN
};

const AT_BOUNDS: &[Scenario<'static>] = &[
    Scenario {
        says: "a plan at all its bounds is answered",
        calls: &[Call {
            plan: GREATEST,
            // 255 double quotes, 255 single ones, six empty texts, and the number of each column that is int
            input: b"7,\"",
            more_input: &[
                Piece::Times(255, "\"\""),
                Piece::Is("\","),
                Piece::Times(255, "'"),
                Piece::Is(",,,,,,"),
                Piece::Each(9, 33, ",#"),
                Piece::Is("\n"),
            ],
            // it is alone in each window and under each key
            wanted: "open 0 0 0\n0 ok",
            more_wanted: &[
                Piece::Times(64, " 1 9 10 11 12 13 14 15 16 17 18 19 20 21 22 23"),
                Piece::Is("\nstored 1\nsaved 1\ndone 1 1\n"),
            ],
            ..PLAIN
        }],
        ..EMPTY
    },
    Scenario {
        says: "a key of the greatest length is kept",
        runs: &[
            Call {
                wanted: "open 0 0 0\n0 ok 1\nstored 1\nsaved 1\ndone 1 1\n",
                ..BY_TEXTS
            },
            // the checkpoint has its row, and the next line finds it
            Call {
                words: &["run", "plan", "store", "1"],
                wanted: "open 1 1 1\n1 ok 2\nstored 2\nsaved 2\ndone 2 2\n",
                ..BY_TEXTS
            },
            // which is written behind it as a row that changed; a verify leaves the input alone
            Call {
                words: &["verify", "plan", "store"],
                failing_reads: &[0],
                wanted: "slot 0 ok 2\nslot 1 none\n",
                ..BY_TEXTS
            },
        ],
        ..EMPTY
    },
];

#[test]
fn what_is_at_all_its_bounds_is_answered(rt: HostRuntime) -> Result<(), Fail> {
    assert_all(&rt, AT_BOUNDS)
}

/// A check of that plan.
static CHECK: Call<'static> = Call {
    words: &["check", "plan"],
    plan: GREATEST,
    ..PLAIN
};

/// Whether these are as many lines as a check of that plan puts, with the right one last: the queries, an offset for
/// 0 and each length, and the nodes of four levels.
fn lists_all(text: &str) -> bool {
    text.lines().count() == 64 + 65 + 64 + 64 + 64 + 1024
        && text.lines().last() == Some("agg 1023 63 sum(c23)")
}

/// Whether such a check puts such lines.
fn is_listed(alloc: Global, check: &Call<'_>) -> Result<bool, Fail> {
    let mut host = host_of(alloc, b"", &[])?;
    let status = status_on(alloc, check, &mut host);
    let is_whole = lists_all(text_behind(&host, 0));
    drop(host);
    Ok(status? == Status::Ok && is_whole)
}

#[test]
fn a_plan_at_all_its_bounds_is_listed(rt: HostRuntime) -> Result<(), Fail> {
    assert!(rt; is_listed(rt.alloc(), &CHECK)?);
    Ok(())
}
