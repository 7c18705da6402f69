ghost use Rattle.std.specs.Prelude.{IfOk, OnOk, map, ◌≡◌, ◌∷◌, []};
ghost use Rattle.std.specs.List.{flat_map};
ghost use Rattle.flow_form.specs.Form.{shape_of, shapes};
ghost use Rattle.flow_form.specs.RuleForm.{rule_shape_of, rule_shapes};
ghost use Rattle.flow_form.specs.Script.{declared, said, asked};
ghost use Rattle.flow_form.specs.Names.{names_in_rule, names_in_rules};
ghost use Rattle.flow_grammar.specs.Roles.{in_rule, constant_roles, fact_roles, goal_roles, roles_in_each, declared_roles, script_roles, query_roles};
ghost use Rattle.flow_text.specs.Named.{Adds, role_of, roles_of};

use flow_facts::{Const, Fact, Name};
use flow_form::{Decl, Form, Query, RuleForm, Script};
use std::alloc::{AllocError, Global};

/// A name of a text, and what it is there for.
#[derive(Drop)]
pub(crate) enum Named<'a> {
    Declares(&'a Name),
    InGoal(&'a Name),
    InRule(&'a Name),
    InFact(&'a Name),
}

fn list_name<'a>(list: &mut Vec<Named<'a>>, named: Named<'a>) -> Result<(), AllocError>
    ensures { OnOk result (Adds list.old.items list.new.items (role_of named.entry ∷ [])) }
{
    list.push(named)?;
    Ok(())
}

fn list_constants<'a>(list: &mut Vec<Named<'a>>, constants: &'a [Const]) -> Result<(), AllocError>
    ensures { OnOk result (Adds list.old.items list.new.items (constant_roles constants.now)) }
{
    for constant in constants {
        list_constant(list, constant)?;
    }
    Ok(())
}

fn list_constant<'a>(list: &mut Vec<Named<'a>>, constant: &'a Const) -> Result<(), AllocError>
    ensures { OnOk result (Adds list.old.items list.new.items (constant_roles (constant.now ∷ []))) }
{
    match constant {
        Const::Word(name) => list_name(list, Named::InFact(name)),
        Const::Number(_) => Ok(()),
    }
}

fn list_fact<'a>(list: &mut Vec<Named<'a>>, fact: &'a Fact) -> Result<(), AllocError>
    ensures { OnOk result (Adds list.old.items list.new.items (fact_roles fact.now)) }
{
    list_name(list, Named::InFact(fact.relation()))?;
    list_constants(list, fact.args())
}

#[cycle(forms)]
fn list_forms<'a>(list: &mut Vec<Named<'a>>, forms: &'a [Form]) -> Result<(), AllocError>
    ensures { OnOk result (Adds list.old.items list.new.items (roles_in_each (shapes (map shape_of forms.now)))) }
{
    for form in forms {
        list_form(list, form)?;
    }
    Ok(())
}

#[cycle(forms)]
fn list_form<'a>(list: &mut Vec<Named<'a>>, form: &'a Form) -> Result<(), AllocError>
    ensures { OnOk result (Adds list.old.items list.new.items (goal_roles (shape_of form.now))) }
{
    match form {
        Form::Nop => Ok(()),
        Form::Name(name) => list_name(list, Named::InGoal(name)),
        Form::Test(fact) | Form::Absent(fact) | Form::Ins(fact) | Form::Del(fact) => {
            list_fact(list, fact)
        }
        Form::Iso(part) => list_form(list, part),
        Form::Serial(parts) | Form::Beside(parts) | Form::Either(parts) => list_forms(list, parts),
    }
}

fn list_names<'a>(list: &mut Vec<Named<'a>>, names: &'a [Name]) -> Result<(), AllocError>
    ensures { OnOk result (Adds list.old.items list.new.items (map in_rule names.now)) }
{
    for name in names {
        list_name(list, Named::InRule(name))?;
    }
    Ok(())
}

fn list_pair<'a>(
    list: &mut Vec<Named<'a>>,
    first: &'a Name,
    second: &'a Name,
) -> Result<(), AllocError>
    ensures { OnOk result (Adds list.old.items list.new.items (in_rule first.now ∷ in_rule second.now ∷ [])) }
{
    list_name(list, Named::InRule(first))?;
    list_name(list, Named::InRule(second))
}

#[cycle(rules)]
fn list_rules<'a>(list: &mut Vec<Named<'a>>, rules: &'a [RuleForm]) -> Result<(), AllocError>
    ensures { OnOk result (Adds list.old.items list.new.items (map in_rule (names_in_rules (rule_shapes (map rule_shape_of rules.now))))) }
{
    for rule in rules {
        list_rule(list, rule)?;
    }
    Ok(())
}

#[cycle(rules)]
fn list_rule<'a>(list: &mut Vec<Named<'a>>, rule: &'a RuleForm) -> Result<(), AllocError>
    ensures { OnOk result (Adds list.old.items list.new.items (map in_rule (names_in_rule (rule_shape_of rule.now)))) }
{
    match rule {
        RuleForm::Must(name) | RuleForm::Never(name) => list_name(list, Named::InRule(name)),
        RuleForm::Order(names) => list_names(list, names),
        RuleForm::Precedes(first, second) | RuleForm::Needs(first, second) => {
            list_pair(list, first, second)
        }
        RuleForm::Not(part) => list_rule(list, part),
        RuleForm::And(parts) | RuleForm::Or(parts) => list_rules(list, parts),
    }
}

fn list_decl<'a>(list: &mut Vec<Named<'a>>, decl: &'a Decl) -> Result<(), AllocError>
    ensures { OnOk result (Adds list.old.items list.new.items (declared_roles (declared decl.now))) }
{
    match decl {
        Decl::Fact(fact) => list_fact(list, fact),
        Decl::Event(name, _) => list_name(list, Named::Declares(name)),
        Decl::Flow(name, goal) => {
            list_name(list, Named::Declares(name))?;
            list_form(list, goal)
        }
    }
}

fn list_decls<'a>(list: &mut Vec<Named<'a>>, decls: &'a [Decl]) -> Result<(), AllocError>
    ensures { OnOk result (Adds list.old.items list.new.items (flat_map declared_roles (map declared decls.now))) }
{
    for decl in decls {
        list_decl(list, decl)?;
    }
    Ok(())
}

/// The names of a script, in the order of its text.
pub(crate) fn names_of_script(alloc: Global, script: &Script) -> Result<Vec<Named<'_>>, AllocError>
    ensures { IfOk result (λ list. roles_of list.items ≡ script_roles (said script.now)) }
{
    let mut list = Vec::new(alloc);
    list_decls(&mut list, &script.decls)?;
    list_form(&mut list, &script.goal)?;
    list_rules(&mut list, &script.rules)?;
    Ok(list)
}

/// The names of a query, in the order of its text.
pub(crate) fn names_of_query(alloc: Global, query: &Query) -> Result<Vec<Named<'_>>, AllocError>
    ensures { IfOk result (λ list. roles_of list.items ≡ query_roles (asked query.now)) }
{
    let mut list = Vec::new(alloc);
    match query {
        Query::Holds(rule) => list_rule(&mut list, rule)?,
        Query::Redundant(_) => {}
    }
    Ok(list)
}
