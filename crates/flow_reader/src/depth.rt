ghost use Rattle.std.specs.Prelude.{◌≡◌};
ghost use Rattle.flow_grammar.specs.Machine as machine;
ghost use Rattle.flow_reader.specs.Symbols.{meant};

use crate::symbol::Symbol;
use flow_model::GREATEST_DEPTH;

/// Whether the symbol stands too deep where so many parentheses and nots are open.
pub(crate) fn is_too_deep(symbol: Symbol<'_>, depth: usize) -> bool
    ensures { result ≡ machine.is_too_deep (meant symbol.entry) depth }
{
    match symbol {
        Symbol::Opening | Symbol::Not => depth >= GREATEST_DEPTH,
        _ => false,
    }
}
