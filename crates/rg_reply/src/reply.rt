ghost use Rattle.std.specs.Prelude.{◌≡◌, ◌++◌, ◌∷◌, [], codes, decimal, OnOk, OnErr};
ghost use Rattle.std.specs.Fmt.{signed_decimal};
ghost use Rattle.rg_bytes.specs.Keeps.{Keeps};
ghost use Rattle.rg_reply.specs.Texts.{answer_text, answers_text, reply_text, reply_line};

use crate::part::put_numbered;
use rg_bytes::{Memory, put_bytes, put_u8, write_signed, write_whole};
use rg_metric::{Answer, Answers};

/// What is answered to a line.
#[derive(Debug, Drop)]
pub enum Reply {
    /// The header.
    Head,
    /// A control line was carried out.
    Done,
    /// The line is longer than 65,535 bytes.
    Long,
    /// The line isn't a row.
    Row,
    /// The row has too few or too many fields.
    Fields,
    /// The first field is no time.
    Time,
    /// The value of that column, from 1, isn't of its kind.
    Value(u32),
    /// It is earlier than the last accepted event, by more than the grace.
    Late,
    /// As many events as there may be were accepted before it.
    Full,
    /// The event was accepted.
    Answered(Answers),
    /// The event was accepted with the last time in place of its own.
    Moved(Answers),
}

/// Writes what is answered to the line with this offset, and LF.
pub fn write_reply(out: &mut Vec<u8>, offset: u64, reply: &Reply) -> Result<(), Memory>
    // The reply's line is written to the byte, and a refused write leaves the text as it was.
    ensures ok { OnOk result (out.new.items ≡ out.old.items ++ (reply_line offset reply.now ++ 10 ∷ [])) }
    ensures err { OnErr result (out.new.items ≡ out.old.items) }
{
    let start = out.len();
    match put_reply_line(out, offset, reply) {
        Ok(()) => Ok(()),
        Err(error) => {
            out.truncate(start);
            Err(error)
        }
    }
}

fn put_reply_line(out: &mut Vec<u8>, offset: u64, reply: &Reply) -> Result<(), Memory>
    ensures ok { OnOk result (out.new.items ≡ out.old.items ++ (reply_line offset reply.now ++ 10 ∷ [])) }
    ensures err { OnErr result (Keeps out.old.items out.new.items) }
{
    write_whole(out, offset)?;
    put_u8(out, b' ')?;
    put_reply(out, reply)?;
    put_u8(out, b'\n')
}

fn put_reply(out: &mut Vec<u8>, reply: &Reply) -> Result<(), Memory>
    ensures ok { OnOk result (out.new.items ≡ out.old.items ++ reply_text reply.now) }
    ensures err { OnErr result (Keeps out.old.items out.new.items) }
{
    match reply {
        Reply::Head => put_bytes(out, b"head"),
        Reply::Done => put_bytes(out, b"done"),
        Reply::Long => put_bytes(out, b"long"),
        Reply::Row => put_bytes(out, b"row"),
        Reply::Fields => put_bytes(out, b"fields"),
        Reply::Time => put_bytes(out, b"time"),
        Reply::Value(column) => put_numbered(out, b"value ", u64::from(*column)),
        Reply::Late => put_bytes(out, b"late"),
        Reply::Full => put_bytes(out, b"full"),
        Reply::Answered(answers) => put_answered(out, b"ok", answers),
        Reply::Moved(answers) => put_answered(out, b"moved", answers),
    }
}

/// Writes a word, and the answers behind it.
fn put_answered(out: &mut Vec<u8>, word: &[u8], answers: &Answers) -> Result<(), Memory>
    ensures ok { OnOk result (out.new.items ≡ out.old.items ++ (word.now ++ answers_text answers.now)) }
    ensures err { OnErr result (Keeps out.old.items out.new.items) }
{
    put_bytes(out, word)?;
    for answer in answers.as_slice() {
        put_u8(out, b' ')?;
        put_answer(out, *answer)?;
    }
    Ok(())
}

fn put_answer(out: &mut Vec<u8>, answer: Answer) -> Result<(), Memory>
    ensures ok { OnOk result (out.new.items ≡ out.old.items ++ answer_text answer) }
    ensures err { OnErr result (Keeps out.old.items out.new.items) }
{
    match answer {
        Answer::Number(n) => write_signed(out, n),
        Answer::Ratio(sum, count) => put_ratio(out, sum, count),
        Answer::Dash => put_u8(out, b'-'),
    }
}

fn put_ratio(out: &mut Vec<u8>, sum: i128, count: u64) -> Result<(), Memory>
    ensures ok { OnOk result (out.new.items ≡ out.old.items ++ (signed_decimal sum ++ (codes "/" ++ decimal count))) }
    ensures err { OnErr result (Keeps out.old.items out.new.items) }
{
    write_signed(out, sum)?;
    put_numbered(out, b"/", count)
}
