use flow_model::Call;

/// What a caller is to do.
#[derive(Clone, Copy)]
pub enum Move {
    /// The task of this call.
    Perform(Call),
    /// To ask again: the run went on.
    Went,
    /// To ask again later: nothing can be done before this claim, or another, is answered.
    Wait(u32),
    /// Nothing more: the run has come to an end.
    Over,
}
