ghost use Rattle.std.specs.Prelude.{◌≡◌, ◌++◌, [], length, map, IfOk, OnOk};
ghost use Rattle.flow_model.specs.Lists.{Each};
ghost use Rattle.flow_lex.specs.Tokens.{AreSpans, IsSmall};
ghost use Rattle.flow_reader.specs.Symbols.{meant, symbols_of};
ghost use Rattle.flow_case.specs.declared.members.Reading.TheVariants.{Begins};
ghost use Rattle.flow_case.specs.Members as members;

use flow_lex::Token;
use flow_reader::{Symbol, symbol_of};
use std::alloc::{AllocError, Global};

/// Where the reading of users and roles stands.
#[derive(Clone, Copy)]
pub(crate) enum Reading {
    /// A statement begins, or the text ends.
    Begins,
    /// Behind `role`.
    Role,
    /// Behind the name of the role.
    Users,
    /// In another statement.
    Other,
}

impl Reading {
    fn after(self, symbol: Symbol<'_>) -> Reading
        ensures { result ≡ members.reading_after self (meant symbol.entry) }
    {
        match (self, symbol) {
            (_, Symbol::Semicolon) => Reading::Begins,
            (Reading::Begins, Symbol::Name(word)) => {
                if word == "role".as_bytes() {
                    Reading::Role
                } else {
                    Reading::Other
                }
            }
            (Reading::Role, Symbol::Name(_)) => Reading::Users,
            (Reading::Users, _) => Reading::Users,
            _ => Reading::Other,
        }
    }

    /// The role that is given behind the symbol. None is where a statement ends.
    fn role_after<'a>(self, role: &'a [u8], symbol: Symbol<'a>) -> &'a [u8]
        ensures { result.now ≡ members.role_after self role.now (meant symbol.entry) }
    {
        match (self, symbol) {
            (_, Symbol::Semicolon) => &[],
            (Reading::Role, Symbol::Name(name)) => name,
            _ => role,
        }
    }
}

/// A user and a role that the policy gives to it, lent by the text.
#[derive(Clone, Copy)]
pub(crate) struct Member<'a> {
    pub(crate) user: &'a [u8],
    pub(crate) role: &'a [u8],
}

/// Adds the user that the symbol is, if it is one.
fn add<'a>(
    found: &mut Vec<Member<'a>>,
    reading: Reading,
    role: &'a [u8],
    symbol: Symbol<'a>,
) -> Result<(), AllocError>
    ensures { OnOk result (map members.said found.new.items ≡ map members.said found.old.items ++ members.member_at reading role.now (meant symbol.entry)) }
{
    if let Reading::Users = reading {
        if let Symbol::Name(user) = symbol {
            found.push(Member { user, role })?;
        }
    }
    Ok(())
}

#[tactic(auto, using(crate::proofs::TokenSteps::left_first, crate::proofs::TokenSteps::left_next, crate::proofs::TokenSteps::left_token, crate::proofs::TokenSteps::members_next))]
/// The users with their roles, in the order in which they stand.
pub(crate) fn members_of<'a>(
    alloc: Global,
    text: &'a [u8],
    tokens: &[Token],
) -> Result<Vec<Member<'a>>, AllocError>
    requires spans { AreSpans 0 (length text.now) tokens.now }
    requires small { Each (IsSmall text.now) tokens.now }
    ensures { IfOk result (λ found. map members.said found.items ≡ members.members_from Begins [] (symbols_of text.now tokens.now)) }
{
    let mut found = Vec::new(alloc);
    let mut reading = Reading::Begins;
    let mut role: &[u8] = &[];
    let mut rest = tokens;
    while let Some((token, more)) = rest.split_first() {
        let symbol = symbol_of(text, *token);
        add(&mut found, reading, role, symbol)?;
        role = reading.role_after(role, symbol);
        reading = reading.after(symbol);
        rest = more;
    }
    Ok(found)
}
