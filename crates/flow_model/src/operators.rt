/// What makes one goal of several.
#[derive(Clone, Copy)]
pub enum Operator {
    /// One after another.
    Serial,
    /// All of them, beside one another.
    Beside,
    /// One of them.
    Either,
}

/// How the parts of a constraint are joined.
#[derive(Clone, Copy)]
pub enum Connective {
    /// All of them are to be met.
    And,
    /// One of them is.
    Or,
}
