use super::scenario::{EMPTY, Reading, Scenario, assert_all};
use super::setting::{Call, PLAIN, THREE};
use std::test::Fail;

/// A run that commits after each payment, each in a chunk of its own.
const EACH: Call<'static> = Call {
    settings: "chunk = 1\ncommit = 1\nsave = 1000\ncache = 64\n",
    ..PLAIN
};

/// A run of queries whose windows begin and end at payments of different chunks, with a load ahead behind each
/// payment. It puts the same, whatever the cache holds.
const AHEAD: Call<'static> = Call {
    query: "SELECT count(*), sum(amount) FROM payments GROUP BY card OVER SLIDING 5 minutes\", \"SELECT countDistinct(merchant) FROM payments GROUP BY card OVER SLIDING 10 ms\", \"SELECT count(*) FROM payments OVER SLIDING 10 ms DELAYED BY 5 ms",
    settings: "chunk = 1\ncommit = 2\nsave = 4\ncache = 1\n",
    input: b"0,c1,m1,100\n!ahead\n299999,c1,m2,200\n!ahead\n300000,c1,m1,50\n!ahead\n",
    wanted: "open 0 0 0\n0 ok 1 100 1 0\n1 done\n2 ok 2 300 1 0\nstored 3\n3 done\n4 ok 2 250 2 0\n5 done\nstored 5\nsaved 3\ndone 6 3\n",
    ..PLAIN
};

/// The same without a load ahead.
const THREE_CHUNKS: Call<'static> = Call {
    input: THREE,
    wanted: "open 0 0 0\n0 ok 1 100 1 0\n1 ok 2 300 1 0\nstored 2\n2 ok 2 250 2 0\nstored 3\nsaved 3\ndone 3 3\n",
    ..AHEAD
};

/// Settings with a greater cache.
const GREATER: &str = "chunk = 1\ncommit = 2\nsave = 4\ncache = 64\n";

const CACHED: &[Scenario<'static>] = &[
    Scenario {
        says: "a load ahead reads a chunk, as a commit of what is stored doesn't, and puts no mark",
        reads: &[Reading {
            more: Call {
                input: b"0,c1,m1,1\n1,c1,m1,1\n!ahead\n",
                wanted: "open 0 0 0\n0 ok 1 1\nstored 1\n1 ok 2 2\nstored 2\n2 done\nstored 2\nsaved 2\ndone 3 2\n",
                ..EACH
            },
            fewer: Call {
                input: b"0,c1,m1,1\n1,c1,m1,1\n!commit\n",
                wanted: "open 0 0 0\n0 ok 1 1\nstored 1\n1 ok 2 2\nstored 2\n2 done\nstored 2\nstored 2\nsaved 2\ndone 3 2\n",
                ..EACH
            },
        }],
        ..EMPTY
    },
    Scenario {
        says: "with a load ahead behind each payment a smaller cache answers the same and reads more",
        reads: &[Reading {
            more: AHEAD,
            fewer: Call {
                settings: GREATER,
                ..AHEAD
            },
        }],
        ..EMPTY
    },
    Scenario {
        says: "a smaller cache answers the same and reads more",
        reads: &[Reading {
            more: THREE_CHUNKS,
            fewer: Call {
                settings: GREATER,
                ..THREE_CHUNKS
            },
        }],
        ..EMPTY
    },
];

#[test]
fn a_greater_cache_or_no_load_ahead_reads_less(rt: HostRuntime) -> Result<(), Fail> {
    assert_all(&rt, CACHED)
}
