ghost use Rattle.std.specs.Prelude.{◌≡◌, ◌<◌, ◌≤◌, ◌+◌, ◌∷◌, ◌++◌, [], length, take, drop, false};
ghost use Rattle.std.specs.Int.{w32, w64, to_be_bytes};
ghost use Rattle.rg_pipe.specs.Sent.{has_lf};
ghost use Rattle.rg_pipe.specs.Hand.{size_of, size_from};
ghost use Rattle.rg_pipe.specs.Judging.{Judges, IsFirst, IsFirstSize, begins_length};

use rg_bytes::ByteReader;

/// What a legal request asks for.
#[derive(Clone, Copy, Debug, PartialEq, Eq)]
pub enum Kind {
    /// A line of this offset.
    Line(u64),
    /// A commit.
    Commit,
    /// A save.
    Save,
}

/// What some bytes are that begin where a request has to begin.
#[derive(Clone, Copy, Debug, PartialEq, Eq)]
pub enum Judged {
    /// A proper prefix of a legal request.
    Part,
    /// A whole legal request.
    Whole(Kind),
    /// The beginning of no legal request.
    Never,
}

/// How many bytes a length has.
pub const LENGTH: usize = 4;

/// How many bytes come before the text of a line.
const BEFORE_TEXT: usize = 13;

/// How many bytes the body of a line has at the least and at the most.
const SHORTEST: u32 = 9;

const LONGEST: u32 = 65_544;

/// How many bytes a request has whose body has this length, its length included. No request has a body above
/// 65,544 bytes, and of such a one only the length is taken.
pub fn size_for(said: u32) -> usize
    ensures size { result ≡ size_from said }
    ensures most { result ≤ 65548 }
{
    if said <= LONGEST {
        return LENGTH + said as usize;
    }
    LENGTH
}

/// How many bytes the first request of a piece has, where the piece has so many.
fn first_size(piece: &[u8]) -> Option<usize>
    ensures { IsFirstSize piece.now result }
{
    let mut reader = ByteReader::new(piece);
    let size = match reader.u32() {
        Ok(said) => size_for(said),
        Err(_) => return None,
    };
    if piece.len() < size {
        return None;
    }
    Some(size)
}

/// The bytes behind the first `count`; none where there are fewer.
fn behind(bytes: &[u8], count: usize) -> &[u8]
    ensures { result.now ≡ drop count bytes.now }
{
    bytes.get(count..).unwrap_or(&[])
}

/// The text of a line whose bytes these are.
pub fn text_of(bytes: &[u8]) -> &[u8]
    ensures { result.now ≡ drop 13 bytes.now }
{
    behind(bytes, BEFORE_TEXT)
}

/// Whether the text of a line has an LF, where it is known whether it has one among the first `before` bytes of the line.
pub fn has_lf_behind(bytes: &[u8], before: usize, lf: bool) -> bool
    requires { lf ≡ has_lf (drop 13 (take before bytes.now)) }
    ensures { result ≡ has_lf (drop 13 bytes.now) }
{
    lf || behind(text_of(bytes), before.saturating_sub(BEFORE_TEXT)).contains(&b'\n')
}

/// The whole legal request at the front of a piece, where there is one, and its bytes.
pub fn first_request(piece: &[u8]) -> Option<(Kind, &[u8])>
    ensures { IsFirst piece.now result }
{
    let size = first_size(piece)?;
    let bytes = &piece[..size];
    match judge(bytes, has_lf_behind(bytes, 0, false)) {
        Judged::Whole(kind) => Some((kind, bytes)),
        _ => None,
    }
}

/// What these bytes are, which are at most one request, and of whose text it is known whether it has an LF.
pub fn judge(bytes: &[u8], lf: bool) -> Judged
    requires sized { length bytes.now ≤ size_of bytes.now }
    requires lf_is { lf ≡ has_lf (drop 13 bytes.now) }
    ensures { Judges result bytes.now }
{
    let mut reader = ByteReader::new(bytes);
    match reader.u32() {
        Err(_) => judge_length(bytes),
        Ok(size) => judge_body(size, &bytes[LENGTH..], lf),
    }
}

/// Whether the length of some request begins with these bytes.
fn begins_length(bytes: &[u8]) -> bool
    ensures { result ≡ begins_length bytes.now }
{
    match bytes {
        [] => true,
        [a] => *a == 0,
        [a, b] => *a == 0 && *b <= 1,
        [a, b, c, ..] => *a == 0 && (*b == 0 || *b == 1 && *c == 0),
    }
}

/// What bytes are that are too few for a length.
fn judge_length(bytes: &[u8]) -> Judged
    requires { length bytes.now < 4 }
    ensures { Judges result bytes.now }
{
    if begins_length(bytes) {
        Judged::Part
    } else {
        Judged::Never
    }
}

/// What a length and the bytes behind it are.
fn judge_body(size: u32, body: &[u8], lf: bool) -> Judged
    requires within { length body.now ≤ size }
    requires lf_is { lf ≡ has_lf (drop 9 body.now) }
    ensures { Judges result (to_be_bytes w32 size ++ body.now) }
{
    if lf {
        return Judged::Never;
    }
    match body {
        [] => judge_alone(size),
        [kind, rest @ ..] => judge_kind(size, *kind, rest),
    }
}

/// What a length alone is.
fn judge_alone(size: u32) -> Judged
    ensures { Judges result (to_be_bytes w32 size) }
{
    if size == 1 {
        return Judged::Part;
    }
    if size < SHORTEST {
        return Judged::Never;
    }
    if size > LONGEST {
        return Judged::Never;
    }
    Judged::Part
}

/// What a length, a kind and the bytes behind it are.
fn judge_kind(size: u32, kind: u8, rest: &[u8]) -> Judged
    requires within { length rest.now + 1 ≤ size }
    requires no_lf { has_lf (drop 8 rest.now) ≡ false }
    ensures { Judges result (to_be_bytes w32 size ++ kind ∷ rest.now) }
{
    if size == 1 {
        return judge_word(kind);
    }
    if kind != 1 {
        return Judged::Never;
    }
    if size < SHORTEST {
        return Judged::Never;
    }
    if size > LONGEST {
        return Judged::Never;
    }
    judge_line(size, rest)
}

/// What a body of one byte is.
fn judge_word(kind: u8) -> Judged
    ensures { Judges result (to_be_bytes w32 1 ++ kind ∷ []) }
{
    if kind == 2 {
        return Judged::Whole(Kind::Commit);
    }
    if kind == 3 {
        return Judged::Whole(Kind::Save);
    }
    Judged::Never
}

/// What these bytes are behind the kind of a line of this length.
fn judge_line(size: u32, rest: &[u8]) -> Judged
    requires sized { (9 ≤ size) × (size ≤ 65544) }
    requires within { length rest.now + 1 ≤ size }
    requires no_lf { has_lf (drop 8 rest.now) ≡ false }
    ensures { Judges result (to_be_bytes w32 size ++ 1 ∷ rest.now) }
{
    let mut reader = ByteReader::new(rest);
    match reader.u64() {
        Err(_) => judge_offset(size, rest),
        Ok(offset) => judge_text(size, offset, &rest[8..]),
    }
}

/// What bytes are that are too few for the offset of a line of this length.
fn judge_offset(size: u32, rest: &[u8]) -> Judged
    requires sized { (9 ≤ size) × (size ≤ 65544) }
    requires short { length rest.now < 8 }
    ensures { Judges result (to_be_bytes w32 size ++ 1 ∷ rest.now) }
{
    match rest {
        [] => Judged::Part,
        [first, ..] => {
            if *first >= 64 {
                return Judged::Never;
            }
            Judged::Part
        }
    }
}

/// What a text without an LF is behind the offset of a line of this length.
fn judge_text(size: u32, offset: u64, text: &[u8]) -> Judged
    requires sized { (9 ≤ size) × (size ≤ 65544) }
    requires within { length text.now + 9 ≤ size }
    requires no_lf { has_lf text.now ≡ false }
    ensures { Judges result (to_be_bytes w32 size ++ 1 ∷ (to_be_bytes w64 offset ++ text.now)) }
{
    if offset >= 1 << 62 {
        return Judged::Never;
    }
    if text.len() as u64 + 9 < size as u64 {
        return Judged::Part;
    }
    Judged::Whole(Kind::Line(offset))
}
