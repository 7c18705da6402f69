ghost use Rattle.std.specs.Prelude.{◌≡◌, [], map, IfOk, OnOk};
ghost use Rattle.flow_form.specs.RuleForm.{rule_shape_of, negated};
ghost use Rattle.flow_grammar.specs.Grammar as grammar;
ghost use Rattle.flow_grammar.specs.Machine as machine;
ghost use Rattle.flow_reader.specs.RuleLevels.{rule_list, rule_level_of};

use flow_form::RuleForm;
use flow_model::Connective;
use std::alloc::{AllocError, Global};
use std::mem;

/// The list of the members.
fn list(connective: Connective, members: Vec<RuleForm>) -> RuleForm
    ensures { rule_shape_of result ≡ rule_list connective (map rule_shape_of members.items) }
{
    match connective {
        Connective::And => RuleForm::And(members),
        Connective::Or => RuleForm::Or(members),
    }
}

/// The list of the members; of one member, that member.
fn gathered(connective: Connective, mut members: Vec<RuleForm>) -> RuleForm
    ensures { rule_shape_of result ≡ grammar.gather (rule_list connective) (map rule_shape_of members.items) }
{
    if members.len() == 1 {
        members.swap_remove(0)
    } else {
        list(connective, members)
    }
}

fn not(alloc: Global, rule: RuleForm) -> Result<RuleForm, AllocError>
    ensures { IfOk result (λ form. rule_shape_of form ≡ negated (rule_shape_of rule)) }
{
    Ok(RuleForm::Not(Box::new(alloc, rule)?))
}

/// The rule under so many nots.
fn negated(alloc: Global, nots: usize, rule: RuleForm) -> Result<RuleForm, AllocError>
    ensures { IfOk result (λ form. rule_shape_of form ≡ machine.negate nots (rule_shape_of rule)) }
{
    if nots == 0 {
        return Ok(rule);
    }
    let inner = not(alloc, rule)?;
    negated(alloc, nots - 1, inner)
}

/// The members that are whole, of the two lists that are being read.
#[derive(Drop)]
pub(crate) struct RuleLevel {
    anys: Vec<RuleForm>,
    alls: Vec<RuleForm>,
}

impl RuleLevel {
    pub(crate) fn new(alloc: Global) -> RuleLevel
        ensures { rule_level_of result ≡ machine.rule_level [] [] }
    {
        RuleLevel {
            anys: Vec::new(alloc),
            alls: Vec::new(alloc),
        }
    }

    /// Adds the rule under so many nots.
    pub(crate) fn push(
        &mut self,
        alloc: Global,
        nots: usize,
        rule: RuleForm,
    ) -> Result<(), AllocError>
        ensures { OnOk result (rule_level_of self.new
            ≡ machine.push_rule (rule_level_of self.old) (machine.negate nots (rule_shape_of rule))) }
    {
        self.alls.push(negated(alloc, nots, rule)?)?;
        Ok(())
    }

    pub(crate) fn close_all(&mut self, alloc: Global) -> Result<(), AllocError>
        ensures { OnOk result (rule_level_of self.new ≡ machine.close_all (rule_level_of self.old)) }
    {
        let alls = mem::replace(&mut self.alls, Vec::new(alloc));
        self.anys.push(gathered(Connective::And, alls))?;
        Ok(())
    }

    pub(crate) fn closed(mut self, alloc: Global) -> Result<RuleForm, AllocError>
        ensures { IfOk result (λ rule. rule_shape_of rule ≡ machine.close_rule (rule_level_of self)) }
    {
        self.close_all(alloc)?;
        Ok(gathered(Connective::Or, self.anys))
    }
}

/// An open parenthesis, with what stands outside it and the nots directly before it.
#[derive(Drop)]
pub(crate) struct RuleFrame {
    pub(crate) level: RuleLevel,
    pub(crate) nots: usize,
}
