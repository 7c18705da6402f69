ghost use Rattle.flow_grammar.specs.Cases.{CrowdedIsRead, ItIsPrinted, NothingThere, OpenParenthesis, NumberAfterEvent, NothingAfterStar, OrderOfOne, TooManyParentheses, IsoTooDeep, IsoWithNothing, NoParenthesis, ManyNots, TooManyNots, UnfinishedQuery, MoreAfterQuery};

/// A text with more parentheses than it needs, and its print.
pub fn worked_text()
    ensures is_read { CrowdedIsRead }
    ensures is_printed { ItIsPrinted }
{}

/// Texts and queries with which no text goes on.
pub fn worked_refusals()
    ensures nothing_there { NothingThere }
    ensures open_parenthesis { OpenParenthesis }
    ensures number_after_event { NumberAfterEvent }
    ensures nothing_after_star { NothingAfterStar }
    ensures order_of_one { OrderOfOne }
    ensures unfinished_query { UnfinishedQuery }
    ensures more_after_query { MoreAfterQuery }
{}

/// Texts and queries at the edge of what is too deep.
pub fn worked_depths()
    ensures parentheses { TooManyParentheses }
    ensures isolation { IsoTooDeep }
    ensures isolation_of_nothing { IsoWithNothing }
    ensures no_parenthesis { NoParenthesis }
    ensures many_nots { ManyNots }
    ensures too_many_nots { TooManyNots }
{}
