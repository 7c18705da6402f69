ghost use Rattle.std.specs.Prelude.{◌≡◌, ◌+◌, ◌*◌, ◌≤◌, ◌<◌, IfOk, map, length};
ghost use Rattle.flow_model.specs.declared.limits.TheConstants.{GREATEST_SEED, GREATEST_SIZE};
ghost use Rattle.flow_form.specs.Form.{shape_of};
ghost use Rattle.flow_form.specs.Script.{said, declared, event};
ghost use Rattle.flow_gen.specs.Generated.{event_name, generated, events, constraints, kinds, pairs, in_turn};

use crate::draws::draw_all;
use crate::goals::goal_of;
use crate::kind::kinds_of;
use crate::names::name_of;
use crate::rules::rules_of;
use flow_form::{Decl, Form, Note, Script};
use std::alloc::{AllocError, Global};

fn declare(alloc: Global, number: u32) -> Result<Decl, AllocError>
    ensures { IfOk result (λ decl. declared decl ≡ event (event_name number) Note.Done) }
{
    Ok(Decl::Event(name_of(alloc, number)?, Note::Done))
}

fn events_of(alloc: Global, count: u32) -> Result<Vec<Decl>, AllocError>
    ensures { IfOk result (λ decls. map declared decls.items ≡ events count) }
{
    let mut decls = Vec::new(alloc);
    for number in 0..count {
        decls.push(declare(alloc, number)?)?;
    }
    Ok(decls)
}

/// The goal of blocks by their draws.
#[tactic(auto, using(crate::proofs::Steps::kinds_length))]
fn goal_by(alloc: Global, draws: &[u32]) -> Result<Form, AllocError>
    requires { length draws.now ≤ GREATEST_SIZE }
    ensures { IfOk result (λ form. shape_of form ≡ in_turn (pairs 0 (kinds 0 draws.now))) }
{
    let kinds = kinds_of(alloc, draws)?;
    goal_of(alloc, &kinds)
}

/// The workflow of so many blocks by the draws for them and for the constraints between them.
fn script_by(
    alloc: Global,
    size: u32,
    of_blocks: &[u32],
    of_rules: &[u32],
) -> Result<Script, AllocError>
    requires blocks { length of_blocks.now ≤ GREATEST_SIZE }
    requires rules { length of_rules.now ≤ 2 * GREATEST_SIZE }
    requires few { size ≤ GREATEST_SIZE }
    ensures decls { IfOk result (λ script. (said script).decls ≡ events (8 * size)) }
    ensures goal { IfOk result (λ script. (said script).goal ≡ in_turn (pairs 0 (kinds 0 of_blocks.now))) }
    ensures rules { IfOk result (λ script. (said script).rules ≡ constraints 0 of_rules.now) }
{
    Ok(Script {
        decls: events_of(alloc, 8 * size)?,
        goal: goal_by(alloc, of_blocks)?,
        rules: rules_of(alloc, of_rules)?,
    })
}

/// The workflow of that seed and size, of eight events a block.
#[tactic(auto, using(crate::proofs::Steps::draws_length))]
pub(crate) fn script_of(alloc: Global, seed: u32, size: u32) -> Result<Script, AllocError>
    requires seed { seed ≤ GREATEST_SEED }
    requires some { 1 ≤ size }
    requires few { size ≤ GREATEST_SIZE }
    ensures { IfOk result (λ script. said script ≡ generated seed size) }
{
    let blocks = size as usize;
    let draws = draw_all(alloc, seed, blocks + 2 * (blocks - 1))?;
    let (of_blocks, of_rules) = draws.split_at(blocks);
    script_by(alloc, size, of_blocks, of_rules)
}
