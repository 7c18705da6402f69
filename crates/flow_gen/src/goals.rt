ghost use Rattle.std.specs.Prelude.{◌≡◌, ◌+◌, ◌*◌, ◌≤◌, ◌^◌, ◌<◌, [], ◌∷◌, if◌then◌else◌, IfOk, map, length};
ghost use Rattle.flow_model.specs.declared.limits.TheConstants.{GREATEST_SIZE};
ghost use Rattle.flow_form.specs.Form.{shape_of, shapes, named, beside, iso};
ghost use Rattle.flow_gen.specs.Generated.{event_name, series, block, pairs, in_turn};

use crate::kind::Kind;
use crate::names::name_of;
use flow_form::Form;
use std::alloc::{AllocError, Global};

fn event_of(alloc: Global, event: u32) -> Result<Form, AllocError>
    ensures { IfOk result (λ form. shape_of form ≡ named (event_name event)) }
{
    Ok(Form::Name(name_of(alloc, event)?))
}

fn series_of(alloc: Global, first: u32, count: u32) -> Result<Form, AllocError>
    requires { first + count < 2 ^ 32 }
    ensures { IfOk result (λ form. shape_of form ≡ series first count) }
{
    let mut events = Vec::new(alloc);
    for event in first..first + count {
        events.push(event_of(alloc, event)?)?;
    }
    Ok(Form::Serial(events))
}

/// Four events in series, alone where they are isolated.
fn first_half(alloc: Global, first: u32, isolated: bool) -> Result<Form, AllocError>
    requires { first + 4 < 2 ^ 32 }
    ensures { IfOk result (λ form. shape_of form ≡ if isolated then iso (series first 4) else series first 4) }
{
    let events = series_of(alloc, first, 4)?;
    if isolated {
        return Ok(Form::Iso(Box::new(alloc, events)?));
    }
    Ok(events)
}

/// Eight events as four and four.
fn halves(alloc: Global, first: u32, isolated: bool) -> Result<Vec<Form>, AllocError>
    requires { first + 8 < 2 ^ 32 }
    ensures { IfOk result (λ forms. map shape_of forms.items
        ≡ (if isolated then iso (series first 4) else series first 4) ∷ series (first + 4) 4 ∷ []) }
{
    let mut forms = Vec::new(alloc);
    forms.push(first_half(alloc, first, isolated)?)?;
    forms.push(series_of(alloc, first + 4, 4)?)?;
    Ok(forms)
}

fn block_of(alloc: Global, first: u32, kind: Kind) -> Result<Form, AllocError>
    requires { first + 8 < 2 ^ 32 }
    ensures { IfOk result (λ form. shape_of form ≡ block first kind) }
{
    match kind {
        Kind::Series => series_of(alloc, first, 8),
        Kind::Beside => Ok(Form::Beside(halves(alloc, first, false)?)),
        Kind::IsolatedBeside => Ok(Form::Beside(halves(alloc, first, true)?)),
        Kind::Either => Ok(Form::Either(halves(alloc, first, false)?)),
    }
}

fn pair_of(alloc: Global, first: u32, left: Kind, right: Kind) -> Result<Form, AllocError>
    requires { first + 16 < 2 ^ 32 }
    ensures { IfOk result (λ form. shape_of form ≡ beside (shapes (block first left ∷ block (first + 8) right ∷ []))) }
{
    let mut forms = Vec::new(alloc);
    forms.push(block_of(alloc, first, left)?)?;
    forms.push(block_of(alloc, first + 8, right)?)?;
    Ok(Form::Beside(forms))
}

/// The blocks two by two beside each other.
fn pairs_of(alloc: Global, kinds: &[Kind]) -> Result<Vec<Form>, AllocError>
    requires { length kinds.now ≤ GREATEST_SIZE }
    ensures { IfOk result (λ forms. map shape_of forms.items ≡ pairs 0 kinds.now) }
{
    let mut forms = Vec::new(alloc);
    let mut first = 0;
    let mut rest = kinds;
    while let [left, right, more @ ..] = rest {
        forms.push(pair_of(alloc, first, *left, *right)?)?;
        rest = more;
        first += 16;
    }
    if let [last] = rest {
        forms.push(block_of(alloc, first, *last)?)?;
    }
    Ok(forms)
}

/// The goal of blocks of these kinds.
pub(crate) fn goal_of(alloc: Global, kinds: &[Kind]) -> Result<Form, AllocError>
    requires { length kinds.now ≤ GREATEST_SIZE }
    ensures { IfOk result (λ form. shape_of form ≡ in_turn (pairs 0 kinds.now)) }
{
    let mut forms = pairs_of(alloc, kinds)?;
    if forms.len() == 1
        && let Some(only) = forms.pop()
    {
        return Ok(only);
    }
    Ok(Form::Serial(forms))
}
