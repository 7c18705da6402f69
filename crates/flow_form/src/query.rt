use crate::rule_form::RuleForm;

/// A question about a workflow.
#[derive(Drop)]
pub enum Query {
    /// Whether every execution meets the constraint.
    Holds(RuleForm),
    /// Whether the others make the constraint of that number redundant.
    Redundant(u32),
}
