use flow_lex::{Token, lex};
use flow_reader::Symbol;
use flow_why_cli::symbol_at;
use std::alloc::{AllocError, Global};

/// Where the reading of the tokens stands.
#[derive(Clone, Copy)]
enum Stage {
    /// Where a name is not that of a declaration.
    Outside,
    /// Where a name is that of the next declaration.
    Naming,
    /// Behind the name of a fact or an event, where a comma leads to the next one.
    Named,
    /// In the arguments of a fact.
    Arguments,
}

/// Where things stand in a text, each list in the order of the text.
#[derive(Drop)]
pub(crate) struct Places {
    /// The names of declarations.
    pub(crate) declarations: Vec<usize>,
    /// The words `constraint`.
    pub(crate) rules: Vec<usize>,
    /// The words `nop`.
    pub(crate) nops: Vec<usize>,
    /// The words `iso`.
    pub(crate) isos: Vec<usize>,
    stage: Stage,
}

impl Places {
    /// The places in a text. Of a text that says nothing there may be none.
    pub(crate) fn in_text(alloc: Global, text: &[u8]) -> Result<Places, AllocError> {
        let mut places = Places {
            declarations: Vec::new(alloc),
            rules: Vec::new(alloc),
            nops: Vec::new(alloc),
            isos: Vec::new(alloc),
            stage: Stage::Outside,
        };
        if let Ok(tokens) = lex(alloc, text) {
            places.note_all(text, &tokens)?;
        }
        Ok(places)
    }

    /// Takes in the tokens of a text.
    fn note_all(&mut self, text: &[u8], tokens: &[Token]) -> Result<(), AllocError> {
        for token in tokens {
            if let Some(symbol) = symbol_at(text, *token) {
                self.note(symbol, token.start)?;
                self.note_name(symbol, token.start)?;
            }
        }
        Ok(())
    }

    /// Takes in a word of a goal or a constraint.
    fn note(&mut self, symbol: Symbol<'_>, place: usize) -> Result<(), AllocError> {
        match symbol {
            Symbol::Constraint => self.rules.push(place)?,
            Symbol::Nop => self.nops.push(place)?,
            Symbol::Iso => self.isos.push(place)?,
            _ => {}
        }
        Ok(())
    }

    /// Takes in what may be a part of a declaration.
    fn note_name(&mut self, symbol: Symbol<'_>, place: usize) -> Result<(), AllocError> {
        self.stage = match (self.stage, symbol) {
            (_, Symbol::Fact | Symbol::Event | Symbol::Flow) => Stage::Naming,
            (Stage::Naming, _) => {
                self.declarations.push(place)?;
                Stage::Named
            }
            (Stage::Named, Symbol::Opening) => Stage::Arguments,
            (Stage::Named, Symbol::Comma) => Stage::Naming,
            (Stage::Named, Symbol::Semicolon | Symbol::Equals) => Stage::Outside,
            (Stage::Arguments, Symbol::Closing) => Stage::Named,
            (stage, _) => stage,
        };
        Ok(())
    }
}
