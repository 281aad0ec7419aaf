use crate::rows::{Checks, Row, assert_each};
use rg_bytes::{Memory, put_bytes};
use rg_metric::{Answer, Answers};
use rg_reply::{Mark, Reply, write_mark, write_reply};
use rg_run::{Due, due_at, write_end, write_turn};
use std::alloc::Global;
use std::test::Fail;

/// What a line is answered.
#[derive(Clone, Copy)]
enum Said {
    Head,
    Answered(&'static [Answer]),
    Moved(&'static [Answer]),
    Done,
    Long,
    Row,
    Value(u32),
    Fields,
    Time,
    Late,
    Full,
}

/// What is written behind a `>`, or in its place.
#[derive(Clone, Copy)]
enum Written {
    /// Behind it the reply to the line with this offset.
    Reply(u64, Said),
    /// Behind it a mark.
    Mark(Mark),
    /// In its place a turn: the reply to the line with this offset, and what was due, where the next offset and the
    /// number of events are these.
    Turn(u64, Said, Due, u64, u64),
    /// In its place the end, where the next line would have this offset, and the next offset of the events and their
    /// number are these.
    End(u64, u64, u64),
}

/// What is written, and what is there then.
#[derive(Clone, Copy)]
struct Line {
    written: Written,
    text: &'static [u8],
}

fn answers_of(alloc: Global, list: &[Answer]) -> Result<Answers, Memory> {
    let mut answers = Answers::new(alloc);
    for answer in list {
        answers.push(*answer)?;
    }
    Ok(answers)
}

fn reply_of(alloc: Global, said: Said) -> Result<Reply, Memory> {
    Ok(match said {
        Said::Head => Reply::Head,
        Said::Answered(list) => Reply::Answered(answers_of(alloc, list)?),
        Said::Moved(list) => Reply::Moved(answers_of(alloc, list)?),
        Said::Done => Reply::Done,
        Said::Long => Reply::Long,
        Said::Row => Reply::Row,
        Said::Value(column) => Reply::Value(column),
        Said::Fields => Reply::Fields,
        Said::Time => Reply::Time,
        Said::Late => Reply::Late,
        Said::Full => Reply::Full,
    })
}

/// Adds the line of a reply.
pub(crate) fn add(out: &mut Vec<u8>, offset: u64, reply: Reply) -> Result<(), Memory> {
    let done = write_reply(out, offset, &reply);
    drop(reply);
    done
}

fn write(alloc: Global, written: Written, out: &mut Vec<u8>) -> Result<(), Memory> {
    match written {
        Written::Reply(offset, said) => add(out, offset, reply_of(alloc, said)?),
        Written::Mark(mark) => write_mark(out, mark),
        Written::Turn(offset, said, due, next, count) => {
            let reply = reply_of(alloc, said)?;
            let done = write_turn(out, offset, &reply, due, next, count);
            drop(reply);
            done
        }
        Written::End(offset, next, count) => write_end(out, offset, next, count),
    }
}

impl Row for Line {
    fn is_so(&self, rt: HostRuntime, checks: &mut Checks) -> Result<bool, Memory> {
        let mut out = Vec::new(rt.alloc());
        let begun = put_bytes(&mut out, b">");
        let written = write(rt.alloc(), self.written, &mut out);
        let is_so = checks.same_bytes("text", &out, self.text);
        drop(out);
        begun?;
        written?;
        Ok(is_so)
    }
}

const LINES: &[Line] = &[
    Line {
        written: Written::Reply(0, Said::Head),
        text: b">0 head\n",
    },
    // replies to payments that were accepted
    Line {
        written: Written::Reply(1, Said::Answered(&[])),
        text: b">1 ok\n",
    },
    Line {
        written: Written::Reply(2, Said::Moved(&[Answer::Number(7)])),
        text: b">2 moved 7\n",
    },
    Line {
        written: Written::Reply(
            3,
            Said::Answered(&[
                Answer::Number(2),
                Answer::Number(-5),
                Answer::Ratio(350, 2),
                Answer::Dash,
            ]),
        ),
        text: b">3 ok 2 -5 350/2 -\n",
    },
    Line {
        written: Written::Reply(4, Said::Done),
        text: b">4 done\n",
    },
    // replies to lines that were refused
    Line {
        written: Written::Reply(5, Said::Long),
        text: b">5 long\n",
    },
    Line {
        written: Written::Reply(6, Said::Row),
        text: b">6 row\n",
    },
    Line {
        written: Written::Reply(7, Said::Value(32)),
        text: b">7 value 32\n",
    },
    Line {
        written: Written::Reply(8, Said::Fields),
        text: b">8 fields\n",
    },
    Line {
        written: Written::Reply(9, Said::Time),
        text: b">9 time\n",
    },
    Line {
        written: Written::Reply(10, Said::Late),
        text: b">10 late\n",
    },
    Line {
        written: Written::Reply(18446744073709551615, Said::Full),
        text: b">18446744073709551615 full\n",
    },
    // one mark of each kind
    Line {
        written: Written::Mark(Mark::Opened(2, 2, 0)),
        text: b">open 2 2 0\n",
    },
    Line {
        written: Written::Mark(Mark::Stored(3)),
        text: b">stored 3\n",
    },
    Line {
        written: Written::Mark(Mark::Saved(2)),
        text: b">saved 2\n",
    },
    Line {
        written: Written::Mark(Mark::Finished(4, 4)),
        text: b">done 4 4\n",
    },
    // the lines of a turn and of the end
    Line {
        written: Written::Turn(7, Said::Late, Due::Nothing, 7, 3),
        text: b">7 late\n",
    },
    Line {
        written: Written::Turn(8, Said::Full, Due::Commit, 9, 4),
        text: b">8 full\nstored 9\n",
    },
    Line {
        written: Written::Turn(9, Said::Done, Due::Save, 10, 5),
        text: b">9 done\nstored 10\nsaved 5\n",
    },
    Line {
        written: Written::End(12, 10, 5),
        text: b"stored 10\nsaved 5\ndone 12 5\n",
    },
];

#[test]
fn writes_replies_and_marks(rt: HostRuntime) -> Result<(), Fail> {
    assert_each(&rt, rt, LINES)
}

/// What is due where a line changed the number of events, and they are stored and saved after so many.
#[derive(Clone, Copy)]
struct Counted {
    commit: u64,
    save: u64,
    before: u64,
    after: u64,
    due: Due,
}

const COUNTED: Counted = Counted {
    commit: 2,
    save: 6,
    before: 1,
    after: 1,
    due: Due::Nothing,
};

impl Row for Counted {
    fn is_so(&self, _rt: HostRuntime, checks: &mut Checks) -> Result<bool, Memory> {
        if self.commit == 0 || self.save == 0 {
            return Ok(checks.fails("commit and save", (self.commit, self.save), "at least 1"));
        }
        let due = due_at(self.commit, self.save, self.before, self.after);
        Ok(checks.same("due", due, self.due))
    }
}

const DUE: &[Counted] = &[
    COUNTED,
    Counted {
        before: 2,
        after: 3,
        ..COUNTED
    },
    Counted {
        before: 3,
        after: 4,
        due: Due::Commit,
        ..COUNTED
    },
    Counted {
        before: 5,
        after: 6,
        due: Due::Save,
        ..COUNTED
    },
    Counted {
        commit: 4,
        before: 5,
        after: 6,
        due: Due::Save,
        ..COUNTED
    },
];

#[test]
fn says_what_is_due(rt: HostRuntime) -> Result<(), Fail> {
    assert_each(&rt, rt, DUE)
}
