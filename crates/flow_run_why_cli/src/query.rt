//! What is told of a query.
ghost use Rattle.std.specs.Prelude.{◌≡◌, IfOk};
ghost use Rattle.flow_model.specs.Lists.{◌∈◌, Each};
ghost use Rattle.flow_form.specs.Script.{said, asked};
ghost use Rattle.flow_form.specs.Names.{IsClosed, event_names};
ghost use Rattle.flow_grammar.specs.Roles.{used_in_rules, query_roles};
ghost use Rattle.flow_text.specs.GoodNames.{AsksOfEvents};
ghost use Rattle.flow_workflow.specs.Rule.{rule_of};
ghost use Rattle.flow_why_cli.specs.Explained.{BeginsInWords};
ghost use Rattle.flow_findings.specs.Judging.{verified_text, redundancy_text};
ghost use Rattle.flow_run_why_words.specs.Parts.{part_of};
ghost use Rattle.flow_run_why_cli.specs.Told.{Tells, IsToldOf, IsExplainedWith};
ghost use Rattle.flow_run_why_cli.specs.Query.{status_of_verified, status_of_redundancy, question_stop, VerifiesProperty, VerifiesConstraint, VerifiesWorkflow, VerifiesSaid, VerifiesText};

use crate::stops::tell_stop;
use flow_excise::CompileRefusal;
use flow_expand::rule_of;
use flow_findings::{print_redundancy, print_verified};
use flow_form::{Query, Script};
use flow_front::{Output, Refused, Status, Stop, expand_script};
use flow_record::cut;
use flow_run_why_words::without_divider;
use flow_text::parse_query;
use flow_verify::{Redundancy, Verified, VerifyRefusal};
use flow_why_cli::{Form, explain_stop, script_of};
use flow_workflow::{Rule, Workflow};
use flow_writer::Writer;
use std::alloc::{AllocError, Global};

/// The status of what is told of a property.
fn status_of_verified(verified: &Verified) -> Status
    ensures { result ≡ status_of_verified verified.now }
{
    match verified {
        Verified::Holds => Status::Fine,
        Verified::Fails(_) => Status::No,
    }
}

/// The status of what is told of a constraint.
fn status_of_redundancy(redundancy: &Redundancy) -> Status
    ensures { result ≡ status_of_redundancy redundancy.now }
{
    match redundancy {
        Redundancy::Redundant => Status::Fine,
        Redundancy::Needed(_) => Status::No,
    }
}

/// Why nothing is told of a property or a constraint.
fn question_stop(refusal: VerifyRefusal) -> Stop
    ensures { result ≡ question_stop refusal }
{
    let refusal = match refusal {
        VerifyRefusal::TooManyChoices { count } => CompileRefusal::TooManyChoices { count },
        VerifyRefusal::TooManyWays { count } => CompileRefusal::TooManyWays { count },
        VerifyRefusal::TooBulky { count } => CompileRefusal::TooBulky { count },
        VerifyRefusal::NoRule { index } => return Stop::Refused(Refused::NoRule(index)),
        VerifyRefusal::NoMemory => return Stop::NoMemory,
    };
    Stop::Refused(Refused::Compile(refusal))
}

/// A verdict as an object, with the leaves of an execution that shows it.
fn verdict_object(alloc: Global, verdict: &str, execution: &[u32]) -> Result<Vec<u8>, AllocError> {
    let mut writer = Writer::new(alloc);
    writer.words("{\"verdict\":\"")?;
    writer.words(verdict)?;
    writer.words("\",\"execution\":[")?;
    writer.numbers(execution)?;
    writer.words("]}\n")?;
    Ok(writer.text)
}

/// What is told of a property: flow's own lines, or an object.
fn property_text(
    alloc: Global,
    workflow: &Workflow,
    verified: &Verified,
    form: Form,
) -> Result<Vec<u8>, AllocError>
    ensures { IfOk result (λ words. BeginsInWords form words.items (verified_text workflow.now verified.now)) }
{
    if form != Form::Json {
        return print_verified(alloc, workflow, verified);
    }
    match verified {
        Verified::Holds => Vec::from_slice(alloc, b"{\"verdict\":\"holds\"}\n"),
        Verified::Fails(execution) => verdict_object(alloc, "fails", execution),
    }
}

/// What is told of a constraint: flow's own lines, or an object.
fn constraint_text(
    alloc: Global,
    workflow: &Workflow,
    redundancy: &Redundancy,
    form: Form,
) -> Result<Vec<u8>, AllocError>
    ensures { IfOk result (λ words. BeginsInWords form words.items (redundancy_text workflow.now redundancy.now)) }
{
    if form != Form::Json {
        return print_redundancy(alloc, workflow, redundancy);
    }
    match redundancy {
        Redundancy::Redundant => Vec::from_slice(alloc, b"{\"verdict\":\"redundant\"}\n"),
        Redundancy::Needed(execution) => verdict_object(alloc, "needed", execution),
    }
}

/// Says whether every execution of a workflow meets a property.
fn verify_property(
    alloc: Global,
    workflow: &Workflow,
    property: &Rule,
    form: Form,
) -> Result<Output, Stop>
    ensures { Tells form (VerifiesProperty workflow.now (rule_of property.now)) result }
{
    match flow_verify::verify(alloc, workflow, property) {
        Ok(verified) => Ok(Output {
            status: status_of_verified(&verified),
            text: property_text(alloc, workflow, &verified, form)?,
        }),
        Err(refusal) => Err(question_stop(refusal)),
    }
}

/// Says whether the constraint of that number follows from the others.
fn verify_constraint(
    alloc: Global,
    workflow: &Workflow,
    index: u32,
    form: Form,
) -> Result<Output, Stop>
    ensures { Tells form (VerifiesConstraint workflow.now index) result }
{
    match flow_verify::redundant(alloc, workflow, index) {
        Ok(redundancy) => Ok(Output {
            status: status_of_redundancy(&redundancy),
            text: constraint_text(alloc, workflow, &redundancy, form)?,
        }),
        Err(refusal) => Err(question_stop(refusal)),
    }
}

/// Answers a query to a workflow.
fn verify_workflow(
    alloc: Global,
    workflow: &Workflow,
    query: &Query,
    form: Form,
) -> Result<Output, Stop>
    requires { Each (λ n. n ∈ workflow.now.events) (used_in_rules (query_roles (asked query.now))) }
    ensures { Tells form (VerifiesWorkflow workflow.now (asked query.now)) result }
{
    match query {
        Query::Holds(property) => {
            let rule = rule_of(alloc, property, workflow)?;
            let output = verify_property(alloc, workflow, &rule, form);
            drop(rule);
            output
        }
        Query::Redundant(index) => verify_constraint(alloc, workflow, *index, form),
    }
}

/// Answers a query to what a script says.
fn verify_script(alloc: Global, script: &Script, query: &Query, form: Form) -> Result<Output, Stop>
    requires closed { IsClosed (said script.now) }
    requires of_events { AsksOfEvents (asked query.now) (said script.now) }
    ensures { Tells form (VerifiesSaid (said script.now) (asked query.now)) result }
{
    let workflow = expand_script(alloc, script)?;
    let output = verify_workflow(alloc, &workflow, query, form);
    drop(workflow);
    output
}

/// Answers the query of a text, which is read first.
fn verify_text(alloc: Global, script: &Script, query: &[u8], form: Form) -> Result<Output, Stop>
    requires { IsClosed (said script.now) }
    ensures { Tells form (VerifiesText query.now (said script.now)) result }
{
    match parse_query(alloc, query, script) {
        Ok(read) => {
            let output = verify_script(alloc, script, &read, form);
            drop(read);
            output
        }
        Err(refusal) => Err(Stop::of_query(refusal)),
    }
}

/// What is told of a query to what a script says.
fn explain_asked(
    alloc: Global,
    text: &[u8],
    script: &Script,
    query: &[u8],
    form: Form,
) -> Result<Output, AllocError>
    requires { IsClosed (said script.now) }
    ensures { IfOk result (λ output. IsToldOf (event_names (said script.now).decls) (VerifiesText (part_of query.now) (said script.now)) form output.status output.text.items) }
{
    let part = without_divider(query);
    match verify_text(alloc, script, part, form) {
        Ok(output) => Ok(output),
        Err(stop) => tell_stop(alloc, text, query, script, stop, form),
    }
}

/// What is wrong with a query, or what `flow verify` answers to it. The status is that of `flow verify`.
pub fn explain_query(
    alloc: Global,
    text: &[u8],
    query: &[u8],
    form: Form,
) -> Result<Output, AllocError>
    ensures { IfOk result (λ output. IsExplainedWith (VerifiesText (part_of query.now)) text.now form output.status output.text.items) }
{
    let (end, _) = cut(text);
    let part = &text[..end];
    match script_of(alloc, text) {
        Ok(script) => {
            let output = explain_asked(alloc, part, &script, query, form);
            drop(script);
            output
        }
        Err(stop) => explain_stop(alloc, part, stop, None, form),
    }
}
