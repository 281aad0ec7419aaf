use rg_keywords::{Func, Op, TimeUnit};

/// A part of the text.
#[derive(Clone, Copy, Debug, PartialEq, Eq)]
pub struct Span {
    /// The place of its first byte.
    pub start: usize,
    /// The place behind its last byte.
    pub end: usize,
}

/// What a field is compared with.
#[derive(Clone, Copy, Debug, PartialEq, Eq)]
pub enum Literal {
    /// An optional `-` and 1 to 20 digits.
    Number(Span),
    /// A string with its quotes, each quote inside twice.
    Text(Span),
    /// The place of `TRUE` or `FALSE`, and which of them it is.
    Truth(usize, bool),
}

/// A condition whose names aren't looked up yet. `NOT` and parentheses enclose each other at most 32
/// deep; a chain of `AND` or of `OR` leans to the left, and is as deep as it is long.
#[derive(Debug, Drop)]
pub enum Expr {
    /// A field, how it is compared, and with what.
    Compare(Span, Op, Literal),
    Not(Box<Expr>),
    And(Box<Expr>, Box<Expr>),
    Or(Box<Expr>, Box<Expr>),
}

/// An aggregator.
#[derive(Clone, Copy, Debug, PartialEq, Eq)]
pub enum Call {
    /// `COUNT(*)`
    CountAll,
    /// Any function but `COUNT`, and its field.
    Field(Func, Span),
    /// The percent of `PCT`, 1 to 20 digits, and its field.
    Pct(Span, Span),
}

/// A span of time.
#[derive(Clone, Copy, Debug, PartialEq, Eq)]
pub struct Duration {
    /// 1 to 20 digits.
    pub number: Span,
    pub unit: TimeUnit,
}

/// A query whose names and numbers aren't looked up yet.
#[derive(Debug, Drop)]
pub struct Raw {
    /// At least one.
    pub calls: Vec<Call>,
    pub stream: Span,
    pub filter: Option<Expr>,
    /// The columns of the key, in order; none where there is no `GROUP BY`.
    pub group: Vec<Span>,
    /// How long the window is; none for `INFINITE`.
    pub length: Option<Duration>,
    /// How late the window ends; none where it isn't delayed.
    pub delay: Option<Duration>,
}
