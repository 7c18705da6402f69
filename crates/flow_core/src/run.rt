ghost use Rattle.std.specs.Prelude.{◌≡◌, ◌<◌, ◌≤◌, ◌↔◌, ◌==◌, [], ◌∷◌, ◌++◌, length, false, IsTrue, IfOk, vec_len};
ghost use Rattle.std.specs.Vec.{vec_capacity};
ghost use Rattle.flow_plan.specs.Compilation.{IsCompiled};
ghost use Rattle.flow_model.specs.declared.limits.TheConstants.{MOST_ENTRIES};
ghost use Rattle.flow_model.specs.Run.{database};
ghost use Rattle.flow_workflow.specs.Definition.{schema_of};

use flow_facts::World;
use flow_model::{Entry, Step};
use flow_plan::Compiled;
use flow_residual::{Claims, Residual};
use flow_workflow::Workflow;
use leaf_rows::{LEAF_WORDS, LeafSet};
use std::alloc::{AllocError, Global};
use std::marker::Model;

/// What a run has when it is started, beside its workflow. In a function that owned the workflow too, each failure would free
/// that field by field, which takes minutes to prove.
#[derive(Drop)]
struct Parts {
    residual: Residual,
    claims: Claims,
    world: World,
    history: Vec<Entry>,
}

impl Parts {
    ghost use Rattle.flow_core.specs.Invariant.{IsKept};

    /// The parts of a run with no entry yet, of at most so many.
    fn new(
        alloc: Global,
        workflow: &Workflow,
        compiled: Compiled,
        limit: u32,
    ) -> Result<Parts, AllocError>
        requires compiled { IsCompiled (schema_of workflow.now) compiled }
        requires few { limit ≤ MOST_ENTRIES }
        ensures kept { IfOk result (λ p. IsKept workflow.now limit [] p.residual p.claims p.world false) }
        ensures none { IfOk result (λ p. p.history.items ≡ []) }
        ensures room { IfOk result (λ p. limit ≤ vec_capacity p.history) }
    {
        // brings what the workflow keeps of its notes: each event has one
        let _ = workflow.notes();
        let kinds = workflow.events().len() as u32;
        let leaves = workflow.tree().leaves();
        let history = Vec::with_capacity(alloc, limit as usize)?;
        let claims = Claims::new(alloc, kinds, limit)?;
        let world = World::new(alloc, workflow.facts().count(), workflow.held(), leaves)?;
        let residual = Residual::new(alloc, compiled)?;
        Ok(Parts {
            residual,
            claims,
            world,
            history,
        })
    }
}

/// One run of a workflow. It keeps that its history is legal. All memory is taken when it is started.
#[derive(Drop)]
pub struct Core {
    pub(crate) workflow: Workflow,
    pub(crate) residual: Residual,
    pub(crate) claims: Claims,
    pub(crate) world: World,
    pub(crate) limit: u32,
    pub(crate) history: Vec<Entry>,
    pub(crate) committed: bool,
    /// Where `looked`, the leaves that may follow with the claims in every order, and those that may come first.
    pub(crate) beside: LeafSet<LEAF_WORDS>,
    pub(crate) first: LeafSet<LEAF_WORDS>,
    pub(crate) looked: bool,
}

impl Model for Core {
    ghost use Rattle.flow_core.specs.Run.{Run, run_code};

    ghost Value = { Run };

    ghost coded = { run_code };

    ghost use Rattle.flow_core.specs.Invariant.{run_by, IsRunning};

    ghost view = { run_by };

    ghost invariant = { IsRunning };
}

impl Core {
    ghost use Rattle.flow_core.specs.Run.{schema, now, HasEntryLeft};
    ghost use Rattle.flow_core.specs.Callers.{count_made};
    ghost use Rattle.flow_core.specs.Lawful.{IsLawful};

    /// Starts a run with no entry yet, of at most so many.
    pub fn start(
        alloc: Global,
        workflow: Workflow,
        compiled: Compiled,
        limit: u32,
    ) -> Result<Core, AllocError>
        requires compiled { IsCompiled (schema_of workflow) compiled }
        requires some { 1 ≤ limit }
        requires few { limit ≤ MOST_ENTRIES }
        ensures { IfOk result (λ core. core ≡ record { definition = workflow; limit = limit; history = [] }) }
    {
        match Parts::new(alloc, &workflow, compiled, limit) {
            Ok(
                Parts {
                    residual,
                    claims,
                    world,
                    history,
                },
            ) => Ok(Core {
                workflow,
                residual,
                claims,
                world,
                limit,
                history,
                committed: false,
                beside: LeafSet::new(),
                first: LeafSet::new(),
                looked: false,
            }),
            Err(error) => {
                drop(workflow);
                Err(error)
            }
        }
    }

    /// The workflow that is run.
    pub fn workflow(&self) -> &Workflow
        ensures { result.now ≡ self.now.definition }
    {
        &self.workflow
    }

    /// The greatest length of the history.
    pub fn limit(&self) -> u32
        ensures { result ≡ self.now.limit }
    {
        self.limit
    }

    /// The entries so far.
    pub fn history(&self) -> &[Entry]
        ensures entries { result.now ≡ self.now.history }
        ensures lawful { IsLawful (schema self.now) self.now.limit self.now.history }
    {
        &self.history
    }

    /// The leaves that count, in order.
    pub fn journal(&self) -> &[u32]
        ensures { result.now ≡ (now self.now).journal }
    {
        self.residual.journal()
    }

    /// The present epoch.
    pub fn epoch(&self) -> u32
        ensures { result ≡ (now self.now).epoch }
    {
        self.claims.epoch()
    }

    /// Whether the fact holds now; a number past the count is no fact.
    pub fn holds(&self, fact: u32) -> bool
        ensures now { result ≡ database (schema self.now) (now self.now) fact }
        ensures past { length self.now.definition.facts ≤ fact → result ≡ false }
    {
        self.world.has(fact)
    }

    /// Whether the run is over.
    pub fn committed(&self) -> bool
        ensures { result ≡ (now self.now).committed }
    {
        self.committed
    }

    /// How many entries the caller made.
    pub fn made(&self, by: u32) -> u64
        ensures { result ≡ count_made self.now.history by }
    {
        self.history.iter().filter(|entry| entry.by == by).count() as u64
    }

    /// Whether there is room for one entry more.
    pub(crate) fn has_steps(&self) -> bool
        ensures { IsTrue result ↔ HasEntryLeft self.now }
    {
        self.history.len() < self.limit as usize
    }
}

/// Puts the entry at the end of the history. What may follow was looked at before it, so that is out of date.
pub(crate) fn enter(history: &mut Vec<Entry>, looked: &mut bool, by: u32, step: Step)
    requires { vec_len history.old < vec_capacity history.old }
    ensures items { history.new.items ≡ history.old.items ++ record { by = by; step = step } ∷ [] }
    ensures capacity { vec_capacity history.new ≡ vec_capacity history.old }
    ensures unlooked { looked.new ≡ false }
{
    *looked = false;
    history.push_reserved(Entry { by, step });
}
