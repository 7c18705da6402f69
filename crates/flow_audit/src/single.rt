ghost use Rattle.flow_audit.specs.Single.{FindingIsSingle, FindingsAreSingle};

/// A journal has one finding. So the findings of an audit are the same whoever looks, and by how many workers.
pub fn law_findings_are_single()
    ensures each { FindingIsSingle }
    ensures all { FindingsAreSingle }
{}
