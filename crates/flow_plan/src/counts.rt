/// How large a workflow is.
#[derive(Clone, Copy)]
pub struct Counts {
    /// In how many ways its choices can be resolved.
    pub resolutions: u64,
    /// In how many ways the leaves of each resolution meet the rules, in all.
    pub options: u64,
    /// The leaves and pairs of all options.
    pub bulk: u64,
    /// How many options have an execution.
    pub live: u64,
}
