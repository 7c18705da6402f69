use flow_model::Connective;

/// A rule with its orders split into pairs, and negation carried inward. Events go by their numbers. An
/// event and an order are as they are said where the flag is true, and else the negation.
#[derive(Drop)]
pub enum Nnf {
    /// The event happens.
    Event(bool, u32),
    /// Both happen, the first before the second.
    Order(bool, u32, u32),
    Parts(Connective, Vec<Nnf>),
}
