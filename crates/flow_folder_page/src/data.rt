use flow_case_state::CaseState;
use flow_facts::Name;

/// What is shown of a case.
#[derive(Drop)]
pub struct FolderCase {
    /// Its name.
    pub case: Name,
    pub state: CaseState,
    /// The tasks that may be begun now.
    pub begin: Vec<OpenTask>,
    /// The tests and updates that anybody may do now.
    pub steps: Vec<Name>,
    /// The tasks that are out.
    pub out: Vec<TaskHeld>,
    /// The tests that are false now, where nothing else is left.
    pub waiting: Vec<Name>,
    /// When the last entry was made, as it was told. Empty where there is no entry.
    pub last: Name,
}

/// A task that may be begun.
#[derive(Drop)]
pub struct OpenTask {
    pub task: Name,
    /// The users to whom duties leave it. None in a case without a policy: anybody.
    pub users: Option<Vec<Name>>,
}

/// A task that is out.
#[derive(Drop)]
pub struct TaskHeld {
    pub task: Name,
    /// Who took it.
    pub user: Name,
    /// When it was taken, as it was told.
    pub since: Name,
}

/// A case whose files are damaged.
#[derive(Drop)]
pub struct DamagedCase {
    /// Its name.
    pub case: Name,
    pub why: Name,
}
