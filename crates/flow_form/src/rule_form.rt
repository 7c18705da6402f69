use flow_facts::Name;

/// A constraint on events as it is written (Davulcu, Kifer, Ramakrishnan and Ramakrishnan 1998). A list has two or
/// more members.
#[derive(Drop)]
pub enum RuleForm {
    /// The event happens.
    Must(Name),
    /// The event does not happen.
    Never(Name),
    /// The events all happen, each before the next.
    Order(Vec<Name>),
    /// If both happen, then the first before the second.
    Precedes(Name, Name),
    /// If the first happens, then the second happens.
    Needs(Name, Name),
    Not(Box<RuleForm>),
    And(Vec<RuleForm>),
    Or(Vec<RuleForm>),
}
