ghost use Rattle.std.specs.Prelude.{◌≡◌};
ghost use Rattle.rg_keywords.specs.Words.{op_text};

/// How a value is compared with a literal.
#[derive(Clone, Copy, Debug, PartialEq, Eq, Hash)]
pub enum Op {
    Eq,
    Ne,
    Lt,
    Le,
    Gt,
    Ge,
}

impl Op {
    /// Its sign.
    pub fn text(self) -> &'static [u8]
        // The text of the sign.
        ensures { result.now ≡ op_text self }
    {
        match self {
            Op::Eq => b"=",
            Op::Ne => b"!=",
            Op::Lt => b"<",
            Op::Le => b"<=",
            Op::Gt => b">",
            Op::Ge => b">=",
        }
    }
}

/// A sign of the language.
#[derive(Clone, Copy, Debug, PartialEq, Eq, Hash)]
pub enum Symbol {
    /// `(`
    Open,
    /// `)`
    Close,
    /// `,`
    Comma,
    /// `*`
    Star,
    Compare(Op),
}
