ghost use Rattle.std.specs.Prelude.{◌≡◌, map};
ghost use Rattle.flow_form.specs.Form.{shape_of};
ghost use Rattle.flow_view.specs.Drawn.{body_of, if_same, joined, left_of, members_in, members_of, right_of};
ghost use Rattle.flow_view.specs.Follow.{written_of};

use flow_form::Form;
use flow_model::Operator;

/// What is written beside a goal.
#[derive(Clone, Copy)]
pub(crate) enum Follow<'a> {
    /// Nothing that goes with it.
    Lost,
    Whole(&'a Form),
    /// The first members of a list, which are two or more.
    First(Operator, &'a [Form]),
}

/// The members, if the operators are the same.
fn if_same<'a>(one: Operator, other: Operator, members: &'a [Form]) -> &'a [Form]
    ensures { map shape_of result.now ≡ if_same one other (map shape_of members.now) }
{
    match (one, other) {
        (Operator::Serial, Operator::Serial)
        | (Operator::Beside, Operator::Beside)
        | (Operator::Either, Operator::Either) => members,
        _ => &[],
    }
}

/// The members of a form that the operator joins.
fn members_in(operator: Operator, form: &Form) -> &[Form]
    ensures { map shape_of result.now ≡ members_in operator (shape_of form.now) }
{
    match form {
        Form::Serial(members) => if_same(operator, Operator::Serial, members),
        Form::Beside(members) => if_same(operator, Operator::Beside, members),
        Form::Either(members) => if_same(operator, Operator::Either, members),
        Form::Nop
        | Form::Name(_)
        | Form::Test(_)
        | Form::Absent(_)
        | Form::Ins(_)
        | Form::Del(_)
        | Form::Iso(_) => &[],
    }
}

impl<'a> Follow<'a> {
    /// The members that the operator joins.
    fn members(self, operator: Operator) -> &'a [Form]
        ensures { map shape_of result.now ≡ members_of operator (written_of self.entry) }
    {
        match self {
            Follow::Lost => &[],
            Follow::Whole(form) => members_in(operator, form),
            Follow::First(other, members) => if_same(operator, other, members),
        }
    }

    /// What is written beside the left one of two goals that the operator joins.
    #[inline(never)]
    pub(crate) fn left(self, operator: Operator) -> Follow<'a>
        ensures { written_of result ≡ left_of operator (written_of self.entry) }
    {
        let members = self.members(operator);
        joined(operator, &members[..members.len().saturating_sub(1)])
    }

    /// What is written beside the right one.
    #[inline(never)]
    pub(crate) fn right(self, operator: Operator) -> Follow<'a>
        ensures { written_of result ≡ right_of operator (written_of self.entry) }
    {
        let members = self.members(operator);
        match members.get(members.len().saturating_sub(1)) {
            None => Follow::Lost,
            Some(member) => Follow::Whole(member),
        }
    }

    /// What is written beside the body of an isolation.
    #[inline(never)]
    pub(crate) fn body(self) -> Follow<'a>
        ensures { written_of result ≡ body_of (written_of self.entry) }
    {
        match self {
            Follow::Whole(Form::Iso(body)) => Follow::Whole(body),
            Follow::Lost | Follow::Whole(_) | Follow::First(..) => Follow::Lost,
        }
    }
}

/// What is written beside the goal that these members make.
fn joined<'a>(operator: Operator, members: &'a [Form]) -> Follow<'a>
    ensures { written_of result ≡ joined operator (map shape_of members.now) }
{
    match members {
        [] => Follow::Lost,
        [member] => Follow::Whole(member),
        _ => Follow::First(operator, members),
    }
}
