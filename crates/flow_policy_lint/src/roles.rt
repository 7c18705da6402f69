ghost use Rattle.std.specs.Prelude.{◌≡◌, ◌↔◌, map, length, IsTrue, IfOk};
ghost use Rattle.flow_model.specs.Lists.{◌∈◌};
ghost use Rattle.flow_model.specs.Verdict.{AreJust};
ghost use Rattle.flow_policy_lint.specs.declared.heads.Word.TheVariants.{Allow};
ghost use Rattle.flow_policy_lint.specs.Findings.{IsOneBelow};
ghost use Rattle.flow_policy_lint.specs.Heads.{said, IsIdle, IsIdleRole};

use crate::heads::{Head, Word};
use std::alloc::{AllocError, Global};

/// Whether the statement allows something to the role.
fn allows(head: &Head<'_>, role: &[u8]) -> bool
    ensures { IsTrue result ↔ (said head.now ≡ (Allow, role.now)) }
{
    match head.word {
        Word::Allow => head.name == role,
        Word::Role | Word::Separate | Word::Bind => false,
    }
}

/// Whether a statement allows something to the role.
fn is_allowed(heads: &[Head<'_>], role: &[u8]) -> bool
    ensures { IsTrue result ↔ ((Allow, role.now) ∈ map said heads.now) }
{
    for head in heads {
        if allows(head, role) {
            return true;
        }
    }
    false
}

/// Whether the statement gives a role to which no statement allows something.
fn is_idle_head(heads: &[Head<'_>], head: &Head<'_>) -> bool
    ensures { IsTrue result ↔ IsIdle (map said heads.now) (said head.now) }
{
    match head.word {
        Word::Role => !is_allowed(heads, head.name),
        Word::Allow | Word::Separate | Word::Bind => false,
    }
}

/// Whether the statement of that number gives a role to which no statement allows something.
#[tactic(auto, using(crate::proofs::RoleLemmas::idle_at, crate::proofs::RoleLemmas::none_idle))]
fn is_idle(heads: &[Head<'_>], number: u32) -> bool
    ensures { IsTrue result ↔ IsIdleRole (map said heads.now) number }
{
    match heads.get(number as usize) {
        Some(head) => is_idle_head(heads, head),
        None => false,
    }
}

/// The numbers of the statements that give a role to which no statement allows something. More statements than have numbers are
/// refused as want of memory, which a text cannot hold either.
pub(crate) fn idle_roles(alloc: Global, heads: &[Head<'_>]) -> Result<Vec<u32>, AllocError>
    ensures { IfOk result (λ found. AreJust (IsOneBelow (length heads.now) (IsIdleRole (map said heads.now))) found.items) }
{
    let Ok(count) = u32::try_from(heads.len()) else {
        return Err(AllocError);
    };
    let mut found = Vec::new(alloc);
    for number in 0..count {
        if is_idle(heads, number) {
            found.push(number)?;
        }
    }
    Ok(found)
}
