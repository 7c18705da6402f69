//! The roles that a policy allows an event, by name.
ghost use Rattle.std.specs.Prelude.{◌≡◌, ◌++◌, List, length, IfOk, OnOk};
ghost use Rattle.std.specs.List.{flat_map};
ghost use Rattle.flow_model.specs.Lists.{Each};
ghost use Rattle.flow_lex.specs.Tokens.{AreSpans, IsSmall};
ghost use Rattle.flow_reader.specs.Symbols.{meant, symbols_of};
ghost use Rattle.flow_policy.specs.Statement.{Statement};
ghost use Rattle.flow_policy.specs.Texts.{SaysPolicy};
ghost use Rattle.flow_policy.specs.Policy.{allowances};
ghost use Rattle.flow_staff.specs.Roles as roles;

use flow_facts::Name;
use flow_lex::{Token, lex};
use flow_reader::{Symbol, symbol_of};
use std::alloc::{AllocError, Global};

/// Where the reading of a policy stands.
#[derive(Clone, Copy)]
enum Reading {
    /// A statement begins, or the text ends.
    Begins,
    /// Behind `allow`.
    Allow,
    /// Behind the name of the role that is allowed events.
    Events,
    /// In another statement.
    Other,
}

impl Reading {
    fn after(self, symbol: Symbol<'_>) -> Reading
        ensures { result ≡ roles.reading_after self (meant symbol.entry) }
    {
        match (self, symbol) {
            (_, Symbol::Semicolon) => Reading::Begins,
            (Reading::Begins, Symbol::Name(word)) => {
                if word == "allow".as_bytes() {
                    Reading::Allow
                } else {
                    Reading::Other
                }
            }
            (Reading::Allow, Symbol::Name(_)) => Reading::Events,
            (Reading::Events, _) => Reading::Events,
            _ => Reading::Other,
        }
    }

    /// The role that is allowed events behind the symbol. None is where a statement ends.
    fn role_after<'a>(self, role: &'a [u8], symbol: Symbol<'a>) -> &'a [u8]
        ensures { result.now ≡ roles.role_after self role.now (meant symbol.entry) }
    {
        match (self, symbol) {
            (_, Symbol::Semicolon) => &[],
            (Reading::Allow, Symbol::Name(name)) => name,
            _ => role,
        }
    }
}

/// Adds the role, if the symbol is the event and the role is allowed it there.
fn add(
    alloc: Global,
    found: &mut Vec<Name>,
    event: &[u8],
    reading: Reading,
    role: &[u8],
    symbol: Symbol<'_>,
) -> Result<(), AllocError>
    ensures { OnOk result (found.new.items ≡ found.old.items ++ roles.role_at event.now reading role.now (meant symbol.entry)) }
{
    if let Reading::Events = reading {
        if let Symbol::Name(name) = symbol {
            if name == event {
                found.push(Name::new(alloc, role)?)?;
            }
        }
    }
    Ok(())
}

/// The roles that are allowed the event, in the order in which they stand among the tokens.
#[tactic(auto, using(crate::proofs::RoleSteps::left_first, crate::proofs::RoleSteps::left_next, crate::proofs::RoleSteps::left_token, crate::proofs::RoleSteps::roles_next))]
fn roles_in(
    alloc: Global,
    text: &[u8],
    tokens: &[Token],
    event: &[u8],
) -> Result<Vec<Name>, AllocError>
    requires spans { AreSpans 0 (length text.now) tokens.now }
    requires small { Each (IsSmall text.now) tokens.now }
    ensures { IfOk result (λ found. found.items ≡ roles.roles_said event.now (symbols_of text.now tokens.now)) }
{
    let mut found = Vec::new(alloc);
    let mut reading = Reading::Begins;
    let mut role: &[u8] = &[];
    let mut rest = tokens;
    while let Some((token, more)) = rest.split_first() {
        let symbol = symbol_of(text, *token);
        add(alloc, &mut found, event, reading, role, symbol)?;
        role = reading.role_after(role, symbol);
        reading = reading.after(symbol);
        rest = more;
    }
    Ok(found)
}

/// The roles that the text of a policy allows the event, in the order in which they stand. Statements of other kinds are passed over.
pub fn roles_allowed(alloc: Global, policy: &[u8], event: &[u8]) -> Result<Vec<Name>, AllocError>
    ensures { (statements : List Statement) → SaysPolicy policy.now statements →
        IfOk result (λ found. found.items ≡ flat_map (roles.role_for event.now) (flat_map allowances statements)) }
{
    // a policy has tokens
    let Ok(tokens) = lex(alloc, policy) else {
        return Err(AllocError);
    };
    roles_in(alloc, policy, &tokens, event)
}
