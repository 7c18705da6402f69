ghost use Rattle.std.specs.Prelude.{◌≡◌, IfOk, OnOk, map};
ghost use Rattle.flow_form.specs.Script.{declared};
ghost use Rattle.flow_expand.specs.Numbers.{with_fact, fact_number, firsts, declared_facts};

use flow_facts::Fact;
use flow_form::{Decl, facts_key};
use flow_workflow::Numbered;
use std::alloc::{AllocError, Global};

/// The number of a fact, which is put in where it is new.
pub(crate) fn number_fact(
    alloc: Global,
    facts: &mut Numbered<Fact>,
    fact: &Fact,
) -> Result<u32, AllocError>
    ensures facts { OnOk result (facts.new ≡ with_fact facts.old fact.now) }
    ensures number { IfOk result (λ number. number ≡ fact_number facts.new fact.now) }
{
    facts.add(alloc, fact)
}

/// The facts that are declared, each where it comes first.
pub(crate) fn declared_fact_set(alloc: Global, decls: &[Decl]) -> Result<Numbered<Fact>, AllocError>
    ensures { IfOk result (λ facts. facts ≡ firsts (declared_facts (map declared decls.now))) }
{
    let mut facts = Numbered::new(alloc, facts_key(decls));
    for decl in decls {
        if let Decl::Fact(fact) = decl {
            number_fact(alloc, &mut facts, fact)?;
        }
    }
    Ok(facts)
}
