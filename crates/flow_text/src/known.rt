ghost use Rattle.std.specs.Prelude.{◌≡◌, ◌++◌, ◌∷◌, [], IfOk, OnOk, List, map};
ghost use Rattle.flow_form.specs.Script.{Declared, declared};
ghost use Rattle.flow_text.specs.Named.{role_of};
ghost use Rattle.flow_text.specs.KnownNames.{has, has_as_event, is_unknown, KnowsThose};

use crate::named::Named;
use flow_facts::{Name, TextKey};
use flow_form::{Decl, names_key};
use indexmap::IndexMap;
use std::alloc::{AllocError, Global};

/// What a name is declared as.
#[derive(Clone, Copy)]
pub(crate) enum DeclaredAs {
    Event,
    Flow,
}

/// The names that declarations make known, lent by them.
#[derive(Drop)]
pub(crate) struct Known<'a> {
    /// What each is declared as: an event, if it is declared as both.
    pub(crate) names: IndexMap<&'a Name, DeclaredAs, TextKey>,
    /// Whether one is declared a second time.
    pub(crate) is_again: bool,
}

impl<'a> Known<'a> {
    pub(crate) fn of(alloc: Global, decls: &'a [Decl]) -> Result<Known<'a>, AllocError>
        ensures { IfOk result (λ known. KnowsThose (map declared decls.now) known) }
    {
        let mut known = Known {
            names: IndexMap::with_hasher(alloc, names_key(decls)),
            is_again: false,
        };
        for decl in decls {
            known.add(decl)?;
        }
        Ok(known)
    }

    fn add(&mut self, decl: &'a Decl) -> Result<(), AllocError>
        ensures { (ds : List Declared) → KnowsThose ds self.old → OnOk result (KnowsThose (ds ++ declared decl.now ∷ []) self.new) }
    {
        match decl {
            Decl::Fact(_) => {}
            Decl::Event(name, _) => {
                let earlier = self.names.insert(name, DeclaredAs::Event)?;
                self.is_again |= earlier.is_some();
            }
            Decl::Flow(name, _) => {
                if self.names.contains_key(&name) {
                    self.is_again = true;
                } else {
                    self.names.insert(name, DeclaredAs::Flow)?;
                }
            }
        }
        Ok(())
    }

    fn has_as_event(&self, name: &'a Name) -> bool
        ensures { result ≡ has_as_event self.now.names name.now }
    {
        matches!(self.names.get(&name), Some(DeclaredAs::Event))
    }

    /// The name is not declared as it must be where it stands.
    pub(crate) fn lacks(&self, named: &Named<'a>) -> bool
        ensures { result ≡ is_unknown (has self.now.names) (has_as_event self.now.names) (role_of named.now) }
    {
        match named {
            Named::InGoal(name) => !self.names.contains_key(name),
            Named::InRule(name) => !self.has_as_event(*name),
            Named::Declares(_) | Named::InFact(_) => false,
        }
    }
}
