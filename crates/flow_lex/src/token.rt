/// What a token is.
#[derive(Clone, Copy)]
pub enum TokenKind {
    /// A reserved word or a name.
    Word,
    /// Decimal digits of a value of 32 bits.
    Number,
    /// One of `*`, `|`, `+`, `(`, `)`, `,`, `;`, `=`, `?` and `!`.
    Mark,
}

/// A token and where it stands: its text is the slice from `start` to `end`.
#[derive(Clone, Copy)]
pub struct Token {
    pub kind: TokenKind,
    pub start: usize,
    pub end: usize,
}
