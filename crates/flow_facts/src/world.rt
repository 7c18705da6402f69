ghost use Rattle.std.specs.Prelude.{◌≡◌, ◌<◌, ◌≤◌, ◌-◌, ◌↔◌, ◌∷◌, ◌++◌, [], length, take, false, IsTrue, IfOk};
ghost use Rattle.flow_model.specs.Facts.{Holds};
ghost use Rattle.flow_model.specs.Lists.{Each};

use crate::Database;
use crate::update::Update;
use flow_model::Label;
use std::alloc::{AllocError, Global};
use std::marker::Model;

/// A set of facts, and the labels that were performed on it since the start. Each can be taken back.
/// Nothing but `new` takes memory.
#[derive(Drop)]
pub struct World {
    held: Vec<u32>,
    database: Database,
    trail: Vec<Update>,
    room: u32,
}

impl Model for World {
    ghost use Rattle.flow_facts.specs.Course.{Course, course_code};

    ghost Value = { Course };

    ghost coded = { course_code };

    ghost use Rattle.flow_facts.specs.Fields.{course_of, IsWorld};

    ghost view = { course_of };

    ghost invariant = { IsWorld };
}

impl World {
    ghost use Rattle.flow_facts.specs.Course.{state_of_world, course_from};
    ghost use Rattle.flow_facts.specs.Changes.{HasFactBelow};

    /// The listed facts hold, of so many that there may be. There is room for so many labels.
    pub fn new(alloc: Global, count: u32, held: &[u32], room: u32) -> Result<World, AllocError>
        requires { Each (λ fact. fact < count) held.now }
        ensures { IfOk result (λ world. world ≡ course_from held.now count room) }
    {
        Ok(World {
            held: Vec::from_slice(alloc, held)?,
            database: Database::new(alloc, count, held)?,
            trail: Vec::with_capacity(alloc, room as usize)?,
            room,
        })
    }

    /// The facts that held at the start.
    pub fn held(&self) -> &[u32]
        ensures { result.now ≡ self.now.held }
    {
        &self.held
    }

    /// Whether the fact holds now.
    pub fn has(&self, fact: u32) -> bool
        ensures now { result ≡ state_of_world self.now fact }
        ensures past { self.now.count ≤ fact → result ≡ false }
    {
        fact < self.database.count() && self.database.has(fact)
    }

    /// Whether the label may be performed now.
    pub fn holds(&self, label: Label) -> bool
        ensures { IsTrue result ↔ Holds (state_of_world self.now) label }
    {
        match label {
            Label::Event(_) | Label::Ins(_) | Label::Del(_) => true,
            Label::Test(fact) => self.has(fact),
            Label::Absent(fact) => !self.has(fact),
        }
    }

    /// Performs the label.
    pub fn perform(&mut self, label: Label)
        requires room { length self.old.labels < self.old.room }
        requires known { HasFactBelow self.old.count label }
        ensures { self.new ≡ record self.old { labels = self.old.labels ++ label ∷ [] } }
    {
        let update = Update::make(&mut self.database, label);
        // The memory for all of the trail was taken at the start.
        self.trail.push(update).unwrap();
    }

    /// Takes back all labels but so many of the first ones.
    pub fn back_to(&mut self, kept: usize)
        requires { kept ≤ length self.old.labels }
        ensures { self.new ≡ record self.old { labels = take kept self.old.labels } }
    {
        while self.trail.len() > kept {
            self.take_back_last();
        }
    }

    fn take_back_last(&mut self)
        requires { 0 < length self.old.labels }
        ensures { self.new ≡ record self.old { labels = take (length self.old.labels - 1) self.old.labels } }
    {
        if let Some(update) = self.trail.pop() {
            update.take_back(&mut self.database);
        }
    }
}
