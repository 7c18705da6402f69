ghost use Rattle.std.specs.Prelude.{◌≡◌, ◌<◌, ◌∷◌, [], ◌++◌, List, IfOk, length, map, slice_get, slice_index_or, Some};
ghost use Rattle.flow_model.specs.Lists.{Begins, Each};
ghost use Rattle.flow_form.specs.Form.{Shape, shape_of, named};
ghost use Rattle.flow_form.specs.Form as written;
ghost use Rattle.flow_form.specs.Names.{names_in, names_in_each};
ghost use Rattle.flow_form.specs.Script.{Declared};
ghost use Rattle.flow_expand.specs.declared.lay.Stage.TheVariants as stage;
ghost use Rattle.flow_expand.specs.Directory.{decls_of};
ghost use Rattle.flow_expand.specs.Lay.{IsLaid, IsLaidAt, IsSettled, Goes, ListGoes, IsFront, list_shape};

use crate::directory::Directory;
use crate::layout::{Layout, Piece, Root, put_both, put_end, put_isolated};
use flow_facts::Name;
use flow_form::Form;
use flow_model::{Deed, Operator};
use std::alloc::AllocError;

/// How far a sub-workflow has come.
#[derive(Clone, Copy)]
pub(crate) enum Stage {
    Unlaid,
    /// It waits for others.
    Begun,
    /// Its goal is in the layout.
    Laid(Root),
}

/// How far the sub-workflow of that number has come.
pub(crate) fn stage_of(laid: &[Stage], flow: usize) -> Option<Stage>
    ensures { result ≡ slice_get laid.now flow }
{
    laid.get(flow).copied()
}

/// Where a sub-workflow that is laid stands.
fn root_of(laid: &[Stage], flow: usize) -> Root
    requires { IsLaidAt laid.now flow }
    ensures { slice_get laid.now flow ≡ Some (stage.Laid result) }
{
    match stage_of(laid, flow) {
        Some(Stage::Laid(root)) => root,
        Some(Stage::Unlaid | Stage::Begun) | None => unreachable!(),
    }
}

/// Puts in a name: an event, or what a sub-workflow became.
fn lay_name(
    directory: &Directory<'_>,
    laid: &[Stage],
    name: &Name,
    layout: &mut Layout<'_>,
) -> Result<Root, AllocError>
    requires ready { IsSettled directory.now laid.now name.now }
    requires laid { IsLaid directory.now laid.now layout.old.items }
    ensures grown { Begins layout.new.items layout.old.items }
    ensures ok { IfOk result (Goes (decls_of directory.now) layout.new.items (named name.now)) }
{
    if let Some(flow) = directory.flow(name) {
        return Ok(root_of(laid, flow));
    }
    match directory.events.number_of(name) {
        Some(number) => put_end(layout, Piece::Event(number)),
        None => unreachable!(),
    }
}

/// Puts the next member of a list to those before it, if there are any.
fn lay_next(
    layout: &mut Layout<'_>,
    how: Operator,
    before: Option<Root>,
    next: Root,
) -> Result<Root, AllocError>
    ensures grown { Begins layout.new.items layout.old.items }
    ensures ok { IfOk result (λ whole. (decls : List Declared) (ss : List Shape) (s : Shape) → IsFront decls layout.old.items how ss before
        → Goes decls layout.old.items s next → ListGoes decls layout.new.items how (ss ++ s ∷ []) whole) }
{
    match before {
        Some(left) => put_both(layout, how, left, next),
        None => Ok(next),
    }
}

/// The list is at its end: nothing, where it has no member.
fn lay_end(layout: &mut Layout<'_>, how: Operator, before: Option<Root>) -> Result<Root, AllocError>
    ensures grown { Begins layout.new.items layout.old.items }
    ensures ok { IfOk result (λ whole. (decls : List Declared) (ss : List Shape) → IsFront decls layout.old.items how ss before
        → Goes decls layout.new.items (list_shape how (written.shapes ss)) whole) }
{
    match before {
        Some(whole) => Ok(whole),
        None => put_end(layout, Piece::Nop),
    }
}

/// Where the names in all goals of a list are ready, those in each of them are.
fn member_ready(
    directory: &Directory<'_>,
    laid: &[Stage],
    forms: &[Form],
    place: usize,
    form: &Form,
)
    requires ready { Each (IsSettled directory.now laid.now) (names_in_each (written.shapes (map shape_of forms.now))) }
    requires within { place < length forms.now }
    requires is { form.now ≡ slice_index_or forms.now place form.now }
    ensures { Each (IsSettled directory.now laid.now) (names_in (shape_of form.now)) }
{}

/// Puts in the members of a list, joined from the left.
#[cycle(laying)]
fn lay_list<'a>(
    directory: &Directory<'a>,
    laid: &[Stage],
    forms: &'a [Form],
    how: Operator,
    layout: &mut Layout<'a>,
) -> Result<Root, AllocError>
    requires ready { Each (IsSettled directory.now laid.now) (names_in_each (written.shapes (map shape_of forms.now))) }
    requires laid { IsLaid directory.now laid.now layout.old.items }
    ensures grown { Begins layout.new.items layout.old.items }
    ensures ok { IfOk result (Goes (decls_of directory.now) layout.new.items (list_shape how (written.shapes (map shape_of forms.now)))) }
{
    let mut before = None;
    for (place, form) in forms.iter().enumerate() {
        // It says that the names in this member are ready.
        member_ready(directory, laid, forms, place, form);
        let next = lay(directory, laid, form, layout)?;
        before = Some(lay_next(layout, how, before, next)?);
    }
    lay_end(layout, how, before)
}

/// Puts a goal into the layout.
#[cycle(laying)]
pub(crate) fn lay<'a>(
    directory: &Directory<'a>,
    laid: &[Stage],
    form: &'a Form,
    layout: &mut Layout<'a>,
) -> Result<Root, AllocError>
    requires ready { Each (IsSettled directory.now laid.now) (names_in (shape_of form.now)) }
    requires laid { IsLaid directory.now laid.now layout.old.items }
    ensures grown { Begins layout.new.items layout.old.items }
    ensures ok { IfOk result (Goes (decls_of directory.now) layout.new.items (shape_of form.now)) }
{
    match form {
        Form::Nop => put_end(layout, Piece::Nop),
        Form::Name(name) => lay_name(directory, laid, name, layout),
        Form::Test(fact) => put_end(layout, Piece::Fact(Deed::Test, fact)),
        Form::Absent(fact) => put_end(layout, Piece::Fact(Deed::Absent, fact)),
        Form::Ins(fact) => put_end(layout, Piece::Fact(Deed::Ins, fact)),
        Form::Del(fact) => put_end(layout, Piece::Fact(Deed::Del, fact)),
        Form::Iso(part) => {
            let root = lay(directory, laid, part, layout)?;
            put_isolated(layout, root)
        }
        Form::Serial(forms) => lay_list(directory, laid, forms, Operator::Serial, layout),
        Form::Beside(forms) => lay_list(directory, laid, forms, Operator::Beside, layout),
        Form::Either(forms) => lay_list(directory, laid, forms, Operator::Either, layout),
    }
}
