ghost use Rattle.flow_cli_laws.specs.Single.{OutputsAreSingle, FaultsAreTold, ChecksAreSingle, TracesAreSingle, AuditsAreSingle, SessionsAreSingle, DutySessionsAreSingle};
ghost use Rattle.flow_cli_laws.specs.Done.{DoneRunsAreReported, DoneLargeRunsAreTold, DoneLinesAreSingle};

use flow_duty::law_user_sessions_are_single;
use flow_policy::law_policies_are_single;
use flow_words::law_one_purpose;

/// Where no tasks are performed, what is written and the status are settled by the words and the bytes that are read,
/// but for a chain, circles or an execution that are shown where any would do. Of what workers run nothing is said, since
/// the schedule is free.
pub fn law_outputs_are_single()
    ensures outputs { OutputsAreSingle }
    ensures faults { FaultsAreTold }
    ensures checks { ChecksAreSingle }
    ensures traces { TracesAreSingle }
    ensures audits { AuditsAreSingle }
    ensures sessions { SessionsAreSingle }
    ensures duties { DutySessionsAreSingle }
{
    // words are for one purpose alone, a text is one policy, and a session of users comes to one thing
    law_one_purpose();
    law_policies_are_single();
    law_user_sessions_are_single();
}

/// Where workers run a workflow in which nothing waits and no task fails, with room for two entries a leaf and one more,
/// each schedule commits it. That no task fails follows from the notes of its events where the gate goes by them, see
/// `flow_crew::law_done_runs_commit`.
pub fn law_done_runs_are_committed()
    ensures { DoneRunsAreReported }
{
    // words are for one purpose alone
    law_one_purpose();
}

/// Where workers run a generated workflow and no task fails, with room for two entries a leaf and one more, each schedule
/// commits it, and the line that is written depends on the seed and the size alone. By the notes of its events no task of
/// a generated workflow fails, see `flow_gen::law_generated_leaves_are_events`.
pub fn law_done_large_runs_are_committed()
    ensures told { DoneLargeRunsAreTold }
    ensures single { DoneLinesAreSingle }
{
    // words are for one purpose alone
    law_one_purpose();
}
