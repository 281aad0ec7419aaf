use super::pieces::Piece;
use super::scenario::{EMPTY, Scenario, assert_all};
use super::setting::{Call, Compared, RUN};
use std::test::Fail;

/// A run over an input with a header.
const HEADED: Call<'static> = Call {
    query: "SELECT count(*), sum(amount) FROM payments GROUP BY card OVER SLIDING 30 days",
    settings: "header = true\n",
    ..RUN
};

const MADE: &[Scenario<'static>] = &[
    Scenario {
        says: "2,000 made lines behind a header are all accepted",
        calls: &[Call {
            input: b"ts,card,merchant,amount\n",
            more_input: &[Piece::Made],
            wanted: "open 0 0 0\n0 head\n",
            more_wanted: &[
                Piece::Each(1, 1025, "# ok\n"),
                Piece::Is("stored 1025\n"),
                Piece::Each(1025, 2001, "# ok\n"),
                Piece::Is("stored 2001\nsaved 2000\ndone 2001 2000\n"),
            ],
            compared: Compared::WithoutAnswers,
            ..HEADED
        }],
        ..EMPTY
    },
    Scenario {
        says: "a file with a header, quotes and crlf is answered",
        calls: &[Call {
            input: b"ts,card,merchant,amount\r\n1617235200000,4111-XXXX-0042,\"Caf\xc3\xa9, Lyon\",1299\r\n1617235260000,4111-XXXX-0042,Kiosk,350\r\n",
            wanted: "open 0 0 0\n0 head\n1 ok 1 1299\n2 ok 2 1649\nstored 3\nsaved 2\ndone 3 2\n",
            ..HEADED
        }],
        ..EMPTY
    },
];

#[test]
fn lines_behind_a_header_are_accepted(rt: HostRuntime) -> Result<(), Fail> {
    assert_all(&rt, MADE)
}
