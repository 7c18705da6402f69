ghost use Rattle.std.specs.Prelude.{◌≡◌};
ghost use Rattle.flow_model.specs.Lists.{◌∈◌, Each};
ghost use Rattle.flow_form.specs.Script.{said, asked};
ghost use Rattle.flow_form.specs.Names.{IsClosed};
ghost use Rattle.flow_grammar.specs.Roles.{used_in_rules, query_roles};
ghost use Rattle.flow_text.specs.GoodNames.{AsksOfEvents};
ghost use Rattle.flow_workflow.specs.Rule.{rule_of};
ghost use Rattle.flow_cli.specs.Finding.{status_of_verified, status_of_redundancy, Answers};
ghost use Rattle.flow_cli.specs.Verify.{question_stop, VerifiesProperty, VerifiesConstraint, VerifiesWorkflow, VerifiesSaid, VerifiesText};

use flow_excise::CompileRefusal;
use flow_expand::rule_of;
use flow_findings::{print_redundancy, print_verified};
use flow_form::{Query, Script};
use flow_front::{Output, Refused, Status, Stop, expand_script};
use flow_text::parse_query;
use flow_verify::{Redundancy, Verified, VerifyRefusal};
use flow_workflow::{Rule, Workflow};
use std::alloc::Global;

/// The status of what is told of a property.
fn status_of_verified(verified: &Verified) -> Status
    ensures { result ≡ status_of_verified verified.now }
{
    match verified {
        Verified::Holds => Status::Fine,
        Verified::Fails(_) => Status::No,
    }
}

/// The status of what is told of a constraint.
fn status_of_redundancy(redundancy: &Redundancy) -> Status
    ensures { result ≡ status_of_redundancy redundancy.now }
{
    match redundancy {
        Redundancy::Redundant => Status::Fine,
        Redundancy::Needed(_) => Status::No,
    }
}

/// Why nothing is told of a property or a constraint.
fn question_stop(refusal: VerifyRefusal) -> Stop
    ensures { result ≡ question_stop refusal }
{
    let refusal = match refusal {
        VerifyRefusal::TooManyChoices { count } => CompileRefusal::TooManyChoices { count },
        VerifyRefusal::TooManyWays { count } => CompileRefusal::TooManyWays { count },
        VerifyRefusal::TooBulky { count } => CompileRefusal::TooBulky { count },
        VerifyRefusal::NoRule { index } => return Stop::Refused(Refused::NoRule(index)),
        VerifyRefusal::NoMemory => return Stop::NoMemory,
    };
    Stop::Refused(Refused::Compile(refusal))
}

/// Says whether every execution of a workflow meets a property.
fn verify_property(alloc: Global, workflow: &Workflow, property: &Rule) -> Result<Output, Stop>
    ensures { Answers (VerifiesProperty workflow.now (rule_of property.now)) result }
{
    match flow_verify::verify(alloc, workflow, property) {
        Ok(verified) => Ok(Output {
            status: status_of_verified(&verified),
            text: print_verified(alloc, workflow, &verified)?,
        }),
        Err(refusal) => Err(question_stop(refusal)),
    }
}

/// Says whether the constraint of that number follows from the others.
fn verify_constraint(alloc: Global, workflow: &Workflow, index: u32) -> Result<Output, Stop>
    ensures { Answers (VerifiesConstraint workflow.now index) result }
{
    match flow_verify::redundant(alloc, workflow, index) {
        Ok(redundancy) => Ok(Output {
            status: status_of_redundancy(&redundancy),
            text: print_redundancy(alloc, workflow, &redundancy)?,
        }),
        Err(refusal) => Err(question_stop(refusal)),
    }
}

/// Answers a query to a workflow.
fn verify_workflow(alloc: Global, workflow: &Workflow, query: &Query) -> Result<Output, Stop>
    requires { Each (λ n. n ∈ workflow.now.events) (used_in_rules (query_roles (asked query.now))) }
    ensures { Answers (VerifiesWorkflow workflow.now (asked query.now)) result }
{
    match query {
        Query::Holds(property) => {
            let rule = rule_of(alloc, property, workflow)?;
            let output = verify_property(alloc, workflow, &rule);
            drop(rule);
            output
        }
        Query::Redundant(index) => verify_constraint(alloc, workflow, *index),
    }
}

/// Answers a query to what a script says.
fn verify_script(alloc: Global, script: &Script, query: &Query) -> Result<Output, Stop>
    requires closed { IsClosed (said script.now) }
    requires of_events { AsksOfEvents (asked query.now) (said script.now) }
    ensures { Answers (VerifiesSaid (said script.now) (asked query.now)) result }
{
    let workflow = expand_script(alloc, script)?;
    let output = verify_workflow(alloc, &workflow, query);
    drop(workflow);
    output
}

/// Says whether all executions of what a script says meet a property, or whether a constraint follows from the others, as the
/// text asks, which is read first.
pub(crate) fn verify_text(alloc: Global, script: &Script, text: &[u8]) -> Result<Output, Stop>
    requires { IsClosed (said script.now) }
    ensures { Answers (VerifiesText (said script.now) text.now) result }
{
    match parse_query(alloc, text, script) {
        Ok(query) => {
            let output = verify_script(alloc, script, &query);
            drop(query);
            output
        }
        Err(refusal) => Err(Stop::of_query(refusal)),
    }
}
