//! Where a leaf stands in a text, by its tokens.
ghost use Rattle.std.specs.Prelude.{◌≡◌, ◌<◌, length, IfOk, IfSome};
ghost use Rattle.flow_why_cli.specs.Places.{AreIn, AtomsAreIn};

use crate::tokens::symbol_at;
use flow_lex::{Token, lex};
use flow_reader::Symbol;
use std::alloc::{AllocError, Global};

/// A part of a goal as it is written: an event or a fact, or the name of a sub-workflow.
#[derive(Clone, Copy)]
struct Atom<'a> {
    place: usize,
    /// The name, unless it is that of a fact.
    name: Option<&'a [u8]>,
}

/// A goal that is written: that of a sub-workflow, by its name, or the goal itself.
#[derive(Clone, Copy)]
struct Written<'a> {
    name: Option<&'a [u8]>,
    /// How many atoms stand in the goals before it.
    first: usize,
}

/// Where the reading of the tokens stands.
#[derive(Clone, Copy)]
enum Stage {
    Outside,
    /// Behind `flow`.
    Named,
    /// In a goal.
    Inside,
    /// Behind what a fact begins with.
    Fact,
    /// Behind the name of a fact.
    Related,
    /// In the arguments of a fact.
    Arguments,
}

/// No text has more sub-workflows in one another.
const DEPTH: u32 = 256;

/// The goals that are written in a text.
#[derive(Drop)]
struct Goals<'a> {
    goals: Vec<Written<'a>>,
    /// The atoms of all goals, in order.
    atoms: Vec<Atom<'a>>,
}

impl<'a> Goals<'a> {
    /// Begins a goal of that name.
    fn begin(&mut self, name: Option<&'a [u8]>) -> Result<Stage, AllocError>
        ensures { self.new.atoms.items ≡ self.old.atoms.items }
    {
        let first = self.atoms.len();
        self.goals.push(Written { name, first })?;
        Ok(Stage::Inside)
    }

    /// Adds an atom to the last goal of a text.
    fn add(&mut self, text: &[u8], place: usize, name: Option<&'a [u8]>) -> Result<(), AllocError>
        requires place { place < length text.now }
        requires atoms { AtomsAreIn text.now self.old.atoms.items }
        ensures { AtomsAreIn text.now self.new.atoms.items }
    {
        Ok(self.atoms.push(Atom { place, name })?)
    }

    /// Takes in what stands outside goals.
    fn outside(&mut self, stage: Stage, symbol: Symbol<'a>) -> Result<Stage, AllocError>
        ensures { self.new.atoms.items ≡ self.old.atoms.items }
    {
        match (stage, symbol) {
            (Stage::Named, Symbol::Name(name)) => self.begin(Some(name)),
            (_, Symbol::Flow) => Ok(Stage::Named),
            (_, Symbol::Goal) => self.begin(None),
            _ => Ok(Stage::Outside),
        }
    }

    /// Takes in what stands inside a goal.
    fn inside(&mut self, text: &[u8], symbol: Symbol<'a>, place: usize) -> Result<Stage, AllocError>
        requires place { place < length text.now }
        requires atoms { AtomsAreIn text.now self.old.atoms.items }
        ensures { AtomsAreIn text.now self.new.atoms.items }
    {
        match symbol {
            Symbol::Semicolon => Ok(Stage::Outside),
            Symbol::Name(name) => {
                self.add(text, place, Some(name))?;
                Ok(Stage::Inside)
            }
            Symbol::Question | Symbol::Exclamation | Symbol::Ins | Symbol::Del => {
                self.add(text, place, None)?;
                Ok(Stage::Fact)
            }
            _ => Ok(Stage::Inside),
        }
    }

    /// Takes in a symbol, and tells where the reading stands behind it.
    fn step(
        &mut self,
        text: &[u8],
        stage: Stage,
        symbol: Symbol<'a>,
        place: usize,
    ) -> Result<Stage, AllocError>
        requires place { place < length text.now }
        requires atoms { AtomsAreIn text.now self.old.atoms.items }
        ensures { AtomsAreIn text.now self.new.atoms.items }
    {
        match (stage, symbol) {
            (Stage::Outside | Stage::Named, _) => self.outside(stage, symbol),
            (Stage::Fact, _) => Ok(Stage::Related),
            (Stage::Related, Symbol::Opening) => Ok(Stage::Arguments),
            (Stage::Arguments, Symbol::Closing) => Ok(Stage::Inside),
            (Stage::Arguments, _) => Ok(Stage::Arguments),
            (Stage::Inside | Stage::Related, _) => self.inside(text, symbol, place),
        }
    }

    /// Takes in the tokens of a text.
    fn read(&mut self, text: &'a [u8], tokens: &[Token]) -> Result<(), AllocError>
        requires { AtomsAreIn text.now self.old.atoms.items }
        ensures { AtomsAreIn text.now self.new.atoms.items }
    {
        let mut stage = Stage::Outside;
        for token in tokens {
            if let Some(symbol) = symbol_at(text, *token) {
                stage = self.step(text, stage, symbol, token.start)?;
            }
        }
        Ok(())
    }

    /// The number of the goal of that name.
    fn called(&self, name: &[u8]) -> Option<usize> {
        for (number, goal) in self.goals.iter().enumerate() {
            if let Some(own) = goal.name {
                if own == name {
                    return Some(number);
                }
            }
        }
        None
    }

    /// How many atoms stand in the goals before that one.
    fn first(&self, goal: usize) -> usize {
        match self.goals.get(goal) {
            Some(goal) => goal.first,
            None => self.atoms.len(),
        }
    }

    /// The number of the goal that is put in for the name, if it is that of a sub-workflow.
    fn inner(&self, name: Option<&[u8]>) -> Option<usize> {
        match name {
            Some(name) => self.called(name),
            None => None,
        }
    }
}

/// The atom of that number, of all goals of a text.
#[tactic(auto, using(flow_residual::proofs::Outstanding::each_at))]
fn atom_at<'a>(text: &[u8], goals: &Goals<'a>, number: usize) -> Option<Atom<'a>>
    requires { AtomsAreIn text.now goals.now.atoms.items }
    ensures { IfSome result (λ atom. atom.place < length text.now) }
{
    match goals.atoms.get(number) {
        Some(atom) => Some(*atom),
        None => None,
    }
}

/// Adds a place of a text.
fn push_place(text: &[u8], places: &mut Vec<usize>, place: usize) -> Result<(), AllocError>
    requires place { place < length text.now }
    requires places { AreIn text.now places.old.items }
    ensures { AreIn text.now places.new.items }
{
    Ok(places.push(place)?)
}

/// Takes the last place of a text away.
#[tactic(auto, using(flow_model::proofs::Lists::each_parts))]
fn pop_place(text: &[u8], places: &mut Vec<usize>)
    requires { AreIn text.now places.old.items }
    ensures { AreIn text.now places.new.items }
{
    let _ = places.pop();
}

/// Looks for the leaf with so many before it in a goal of a text. The places are those of the sub-workflows in which it is found, and at
/// last its own. Else so many leaves are left.
fn find(
    text: &[u8],
    goals: &Goals<'_>,
    goal: usize,
    left: &mut u32,
    places: &mut Vec<usize>,
    depth: u32,
) -> Result<bool, AllocError>
    requires atoms { AtomsAreIn text.now goals.now.atoms.items }
    requires places { AreIn text.now places.old.items }
    ensures { AreIn text.now places.new.items }
{
    for number in goals.first(goal)..goals.first(goal.saturating_add(1)) {
        let Some(atom) = atom_at(text, goals, number) else {
            return Ok(false);
        };
        push_place(text, places, atom.place)?;
        match goals.inner(atom.name) {
            Some(inner) if depth > 0 => {
                if find(text, goals, inner, left, places, depth - 1)? {
                    return Ok(true);
                }
            }
            _ if *left == 0 => return Ok(true),
            _ => *left -= 1,
        }
        pop_place(text, places);
    }
    Ok(false)
}

/// Adds where a leaf stands in a text that has the tokens.
fn push_places(
    places: &mut Vec<usize>,
    alloc: Global,
    text: &[u8],
    tokens: &[Token],
    leaf: u32,
) -> Result<(), AllocError>
    requires { AreIn text.now places.old.items }
    ensures { AreIn text.now places.new.items }
{
    let mut goals = Goals {
        goals: Vec::new(alloc),
        atoms: Vec::new(alloc),
    };
    goals.read(text, tokens)?;
    if let Some(last) = goals.goals.len().checked_sub(1) {
        let mut left = leaf;
        find(text, &goals, last, &mut left, places, DEPTH)?;
    }
    Ok(())
}

/// Where a leaf stands in a text: in the goal, then in each sub-workflow by which it comes. Of a text that says no workflow it
/// may be nowhere.
pub fn places_of_leaf(alloc: Global, text: &[u8], leaf: u32) -> Result<Vec<usize>, AllocError>
    ensures { IfOk result (λ places. AreIn text.now places.items) }
{
    let mut places = Vec::new(alloc);
    if let Ok(tokens) = lex(alloc, text) {
        push_places(&mut places, alloc, text, &tokens, leaf)?;
    }
    Ok(places)
}
