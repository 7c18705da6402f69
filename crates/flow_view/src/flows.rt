ghost use Rattle.std.specs.Prelude.{◌≡◌, IfOk, length, map, slice_get};
ghost use Rattle.std.specs.Option.{option_and_then};
ghost use Rattle.std.specs.List.{flat_map};
ghost use Rattle.std.specs.Str.{bytes_eq};
ghost use Rattle.flow_form.specs.Form.{shape_of};
ghost use Rattle.flow_form.specs.Names.{flow_goal};
ghost use Rattle.flow_form.specs.Script.{declared};
ghost use Rattle.flow_view.specs.Drawn.{bodies_of, called, called_in, many_times, named_goal, number_of, opened};
ghost use Rattle.flow_view.specs.Flows.{form_shape, forms_shapes, goals_in, names_in};
ghost use Rattle.flow_view.specs.Follow.{written_of};
ghost use Rattle.flow_view.specs.Texts.{flow_names};

use crate::follow::Follow;
use flow_facts::Name;
use flow_form::{Decl, Form};
use std::alloc::{AllocError, Global};

/// The sub-workflows that are declared, by their numbers.
#[derive(Drop)]
pub(crate) struct Flows<'a> {
    names: Vec<&'a Name>,
    /// What they stand for.
    goals: Vec<&'a Form>,
}

/// Whether they are written in the same bytes.
fn is_same(one: &Name, other: &Name) -> bool
    ensures { result ≡ bytes_eq one.now other.now }
{
    one.bytes() == other.bytes()
}

impl<'a> Flows<'a> {
    /// Those of declarations, each with the goal that is written for it.
    fn declared(alloc: Global, decls: &'a [Decl]) -> Result<Flows<'a>, AllocError>
        ensures names { IfOk result (λ flows. names_in flows ≡ flow_names (map declared decls.now)) }
        ensures goals { IfOk result (λ flows. goals_in flows ≡ flat_map flow_goal (map declared decls.now)) }
    {
        let mut names = Vec::new(alloc);
        let mut goals = Vec::new(alloc);
        for decl in decls {
            if let Decl::Flow(name, goal) = decl {
                names.push(name)?;
                goals.push(goal)?;
            }
        }
        Ok(Flows { names, goals })
    }

    /// Those of declarations. One that is the bare name of another has the other's goal.
    pub(crate) fn new(alloc: Global, decls: &'a [Decl]) -> Result<Flows<'a>, AllocError>
        ensures names { IfOk result (λ flows. names_in flows ≡ flow_names (map declared decls.now)) }
        ensures goals { IfOk result (λ flows. goals_in flows ≡ bodies_of (flow_names (map declared decls.now)) (flat_map flow_goal (map declared decls.now))) }
    {
        let flows = Flows::declared(alloc, decls)?;
        let goals = flows.bodies(alloc)?;
        Ok(Flows {
            names: flows.names,
            goals,
        })
    }

    /// The goals, each followed as far as it is the bare name of a sub-workflow.
    fn bodies(&self, alloc: Global) -> Result<Vec<&'a Form>, AllocError>
        ensures { IfOk result (λ goals. forms_shapes goals.items ≡ bodies_of (names_in self.now) (goals_in self.now)) }
    {
        let mut bodies = Vec::new(alloc);
        for goal in &self.goals {
            bodies.push(self.body(goal))?;
        }
        Ok(bodies)
    }

    /// The number of the sub-workflow of that name.
    pub(crate) fn number_of(&self, name: &Name) -> Option<usize>
        ensures { result ≡ number_of (names_in self.now) name.now }
    {
        for (number, other) in self.names.iter().enumerate() {
            if is_same(other, name) {
                return Some(number);
            }
        }
        None
    }

    /// What the sub-workflow of that name stands for.
    fn named(&self, name: &Name) -> Option<&'a Form>
        ensures { form_shape result ≡ option_and_then (λ k. slice_get (goals_in self.now) k) (number_of (names_in self.now) name.now) }
    {
        match self.goals.get(self.number_of(name)?) {
            Some(goal) => Some(*goal),
            None => None,
        }
    }

    /// What the form stands for: what is written for it, if it is the name of a sub-workflow.
    pub(crate) fn goal(&self, form: &'a Form) -> &'a Form
        ensures { shape_of result.now ≡ named_goal (names_in self.now) (goals_in self.now) (shape_of form.now) }
    {
        match form {
            Form::Name(name) => match self.named(name) {
                Some(goal) => goal,
                None => form,
            },
            Form::Nop
            | Form::Test(_)
            | Form::Absent(_)
            | Form::Ins(_)
            | Form::Del(_)
            | Form::Iso(_)
            | Form::Serial(_)
            | Form::Beside(_)
            | Form::Either(_) => form,
        }
    }

    /// The same, as long as that is the bare name of a sub-workflow.
    fn body(&self, form: &'a Form) -> &'a Form
        ensures { shape_of result.now ≡ many_times (length (names_in self.now)) (named_goal (names_in self.now) (goals_in self.now)) (shape_of form.now) }
    {
        let mut goal = form;
        for _ in 0..self.names.len() {
            goal = self.goal(goal);
        }
        goal
    }

    /// The number of the sub-workflow whose name the form is.
    fn number_in(&self, form: &Form) -> Option<usize>
        ensures { result ≡ called_in (names_in self.now) (shape_of form.now) }
    {
        match form {
            Form::Name(name) => self.number_of(name),
            Form::Nop
            | Form::Test(_)
            | Form::Absent(_)
            | Form::Ins(_)
            | Form::Del(_)
            | Form::Iso(_)
            | Form::Serial(_)
            | Form::Beside(_)
            | Form::Either(_) => None,
        }
    }

    /// The number of the sub-workflow whose name is written.
    #[inline(never)]
    pub(crate) fn called(&self, follow: Follow<'a>) -> Option<usize>
        ensures { result ≡ called (names_in self.now) (written_of follow.entry) }
    {
        match follow {
            Follow::Whole(form) => self.number_in(form),
            Follow::Lost | Follow::First(..) => None,
        }
    }

    /// What is written where it is declared.
    #[inline(never)]
    pub(crate) fn opened(&self, follow: Follow<'a>) -> Follow<'a>
        ensures { written_of result ≡ opened (names_in self.now) (goals_in self.now) (written_of follow.entry) }
    {
        match follow {
            Follow::Whole(form) => Follow::Whole(self.goal(form)),
            Follow::Lost | Follow::First(..) => follow,
        }
    }
}
