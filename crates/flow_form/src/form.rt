use flow_facts::{Fact, Name};

/// A goal as it is written (Bonner and Kifer 1996). A list has two or more members.
#[derive(Drop)]
pub enum Form {
    Nop,
    /// An event or a sub-workflow.
    Name(Name),
    /// The fact holds.
    Test(Fact),
    /// The fact does not hold.
    Absent(Fact),
    Ins(Fact),
    Del(Fact),
    /// With nothing from outside in between.
    Iso(Box<Form>),
    /// One after another.
    Serial(Vec<Form>),
    /// Beside one another.
    Beside(Vec<Form>),
    /// One of them.
    Either(Vec<Form>),
}
