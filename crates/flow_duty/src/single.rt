ghost use Rattle.flow_duty.specs.Single.{UserSessionsAreSingle};

use flow_roles::law_desk_answers_are_single;

/// What comes of a session of users is settled by the desk, the lines and who calls at first, where no two users have one name.
pub fn law_user_sessions_are_single()
    ensures { UserSessionsAreSingle }
{
    // each ask at a desk has one answer
    law_desk_answers_are_single();
}
