ghost use Rattle.std.specs.Prelude.{◌≡◌};
ghost use Rattle.flow_rules.specs.Normal.{joining};
ghost use Rattle.flow_rules.specs.WayLists.{decider};

use flow_model::Connective;

/// How parts are joined of which all are wanted, or of whose negations one is.
pub(crate) fn joining(wanted: bool) -> Connective
    ensures { result ≡ joining wanted }
{
    if wanted {
        Connective::And
    } else {
        Connective::Or
    }
}

/// What one part decides of the whole: that it is met in any order (`true`), or in none.
pub(crate) fn decides(connective: Connective) -> bool
    ensures { result ≡ decider connective }
{
    match connective {
        Connective::And => false,
        Connective::Or => true,
    }
}
