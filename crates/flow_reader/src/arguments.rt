ghost use Rattle.std.specs.Prelude.{◌≡◌, IfOk};
ghost use Rattle.flow_grammar.specs.Machine as machine;
ghost use Rattle.flow_reader.specs.Symbols.{meant};
ghost use Rattle.flow_reader.specs.Readers.{arg_state, arg_step};

use crate::symbol::Symbol;
use flow_form::{Const, Fact, Name, Wanted};
use std::alloc::{AllocError, Global};

/// Where the reading of a fact's arguments stands: the relation, and the arguments so far.
#[derive(Drop)]
pub(crate) enum ArgReader {
    ConstantNeeded(Name, Vec<Const>),
    AfterConstant(Name, Vec<Const>),
}

/// What a symbol makes of it.
#[derive(Drop)]
pub(crate) enum ArgStep {
    Reading(ArgReader),
    Whole(Fact),
    Stuck,
}

fn read_constant(
    alloc: Global,
    relation: Name,
    mut args: Vec<Const>,
    symbol: Symbol<'_>,
) -> Result<ArgStep, AllocError>
    ensures { IfOk result (λ step. arg_step step ≡ machine.read_constant relation args.items (meant symbol.entry)) }
{
    let constant = match symbol {
        Symbol::Name(name) => Const::Word(Name::new(alloc, name)?),
        Symbol::Number(number) => Const::Number(number),
        _ => return Ok(ArgStep::Stuck),
    };
    // most facts have one
    if args.is_empty() {
        args.reserve_exact(1)?;
    }
    args.push(constant)?;
    Ok(ArgStep::Reading(ArgReader::AfterConstant(relation, args)))
}

fn end_constant(relation: Name, args: Vec<Const>, symbol: Symbol<'_>) -> ArgStep
    ensures { arg_step result ≡ machine.end_constant relation args.items (meant symbol.entry) }
{
    match symbol {
        Symbol::Comma => ArgStep::Reading(ArgReader::ConstantNeeded(relation, args)),
        Symbol::Closing => ArgStep::Whole(Fact::new(relation, args)),
        _ => ArgStep::Stuck,
    }
}

impl ArgReader {
    pub(crate) fn step(self, alloc: Global, symbol: Symbol<'_>) -> Result<ArgStep, AllocError>
        ensures { IfOk result (λ step. arg_step step ≡ machine.step_arg (arg_state self) (meant symbol.entry)) }
    {
        match self {
            ArgReader::ConstantNeeded(relation, args) => {
                read_constant(alloc, relation, args, symbol)
            }
            ArgReader::AfterConstant(relation, args) => Ok(end_constant(relation, args, symbol)),
        }
    }

    /// What could come next.
    pub(crate) fn wanted(&self) -> Wanted
        ensures { result ≡ machine.wanted_arg (arg_state self.now) }
    {
        match self {
            ArgReader::ConstantNeeded(..) => Wanted::Constant,
            ArgReader::AfterConstant(..) => Wanted::Closing,
        }
    }
}
