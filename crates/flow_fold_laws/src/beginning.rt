ghost use Rattle.flow_fold_laws.specs.Beginning.{MayBeginByOnePass};

/// Which leaves may be begun next is found for all of them by going through the choices once.
pub fn law_may_begin_by_one_pass()
    ensures { MayBeginByOnePass }
{}
