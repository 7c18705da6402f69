/// Where a run stands at a leaf.
#[derive(Clone, Copy)]
pub enum Mark {
    Plain,
    Done,
    Next,
    Claimed,
    Failed,
    Banned,
}
