/// What a run comes to.
#[derive(Clone, Copy)]
pub enum End {
    Committed,
    /// Only tests and absences that are false now are left, and no other choice is free.
    Stuck,
    /// The task of this leaf failed. Every execution needs it, and no other choice is free.
    NoOther(u32),
    /// The history is as long as the limit.
    Spent,
}
