/// A mark of a goal that is written from left to right. Its choices all stay.
#[derive(Clone, Copy)]
pub enum Node {
    Nop,
    /// The next of the leaves.
    Leaf,
    /// The two goals before it, one after the other.
    Serial,
    /// Two goals beside one another begin.
    Fork,
    /// The first of them ends, and the second begins.
    Split,
    /// The second ends.
    Join,
    /// A goal with nothing from outside in between begins.
    Open,
    /// It ends.
    Close,
    /// A choice begins with the first of its sides.
    Choose,
    /// That side ends, and the second begins.
    Or,
    /// The second ends.
    Chosen,
}
