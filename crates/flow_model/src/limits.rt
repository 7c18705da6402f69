/// The most leaves and `nop`s of a workflow's goal, its sub-workflows in place, and the most isolations of it.
pub const MOST_LEAVES: u32 = 4096;

/// The most sub-workflows of a script.
pub const MOST_FLOWS: u64 = 256;

/// The most names in the constraints of a script.
pub const MOST_RULE_NAMES: u64 = 8192;

/// The most resolutions of a goal.
pub const MOST_RESOLUTIONS: u64 = 4096;

/// The most options of a workflow.
pub const MOST_OPTIONS: u64 = 4096;

/// The most leaves and pairs that all options of a workflow have together.
pub const GREATEST_BULK: u64 = 262_144;

/// The most entries of a history.
pub const MOST_ENTRIES: u32 = 1_000_000;

/// The most lines of a session or a journal.
pub const MOST_LINES: u32 = 16_384;

/// The most bytes of an input.
pub const GREATEST_INPUT: usize = 1_048_576;

/// The greatest seed of a generated workflow.
pub const GREATEST_SEED: u32 = 65_536;

/// The greatest size of a generated workflow, in blocks of eight events.
pub const GREATEST_SIZE: u32 = 128;

/// The most workers of a run.
pub const MOST_WORKERS: u32 = 64;

/// How deep parentheses and `not`s of a text may stand in one another.
pub const GREATEST_DEPTH: usize = 200;
