ghost use Rattle.std.specs.Prelude.{◌≡◌, ◌+◌, ◌≤◌};
ghost use Rattle.rg_parse.specs.Levels.{open_count};

use crate::level::Level;
use crate::syntax::{Call, Duration, Expr, Raw, Span};
use rg_keywords::{Func, Op};

/// What comes before the condition.
#[derive(Drop)]
pub struct Head {
    pub calls: Vec<Call>,
    pub stream: Span,
}

/// A query up to the place of an operand of its condition.
#[derive(Drop)]
pub struct Before {
    pub head: Head,
    /// Before each open parenthesis, from the outside in.
    pub outer: Vec<Level>,
    pub here: Level,
    /// How many `NOT` and parentheses are open.
    pub depth: u32,
    ghost counted: { depth ≡ open_count outer.items + here.nots },
    ghost shallow: { depth ≤ 32 },
}

/// A query up to an operand of its condition.
#[derive(Drop)]
pub struct After {
    pub head: Head,
    /// Before each open parenthesis, from the outside in.
    pub outer: Vec<Level>,
    /// The condition left of an `OR`.
    pub either: Option<Expr>,
    /// The operand, with what stands before it up to that `OR`.
    pub last: Expr,
    /// How many `NOT` and parentheses are open.
    pub depth: u32,
    ghost counted: { depth ≡ open_count outer.items },
    ghost shallow: { depth ≤ 32 },
}

/// A query up to its condition.
#[derive(Drop)]
pub struct Filtered {
    pub head: Head,
    pub filter: Option<Expr>,
}

/// A query up to the columns of its key.
#[derive(Drop)]
pub struct Grouped {
    pub filtered: Filtered,
    pub group: Vec<Span>,
}

/// A query up to the length of its window.
#[derive(Drop)]
pub struct Windowed {
    pub grouped: Grouped,
    pub length: Option<Duration>,
}

/// How far a query is read: what comes next, or what came last.
#[derive(Drop)]
pub enum State {
    Start,
    Func(Vec<Call>),
    Open(Vec<Call>, Func),
    Field(Vec<Call>, Func),
    Pct(Vec<Call>),
    Percent(Vec<Call>),
    Comma(Vec<Call>, Span),
    PctField(Vec<Call>, Span),
    Close(Vec<Call>, Call),
    AfterCall(Vec<Call>),
    Stream(Vec<Call>),
    AfterStream(Head),
    Operand(Before),
    AfterField(Before, Span),
    AfterOp(Before, Span, Op),
    AfterOperand(After),
    By(Filtered),
    Group(Grouped),
    AfterGroup(Grouped),
    Window(Grouped),
    Length(Grouped),
    LengthUnit(Grouped, Span),
    AfterWindow(Windowed),
    DelayBy(Windowed),
    Delay(Windowed),
    DelayUnit(Windowed, Span),
    End(Raw),
}
