ghost use Rattle.std.specs.Prelude.{◌≡◌, ℕ, IfOk, OnOk, IsErrOf, cond, None};
ghost use Rattle.std.specs.List.{position_from};
ghost use Rattle.flow_form.specs.Script.{said, asked};
ghost use Rattle.flow_form.specs.Names.{HasGoodNames};
ghost use Rattle.flow_text.specs.declared.name_refusal.NameRefusal.TheVariants.{Repeated, Unknown};
ghost use Rattle.flow_text.specs.GoodNames.{IsFirstRepeated, IsFirstUnknown, AsksOfEvents, AsksFirstOfOther};
ghost use Rattle.flow_text.specs.KnownNames.{has, has_as_event, no_names, is_again, with_role, repeated_from, is_unknown};
ghost use Rattle.flow_text.specs.Named.{role_of, roles_of};

use crate::known::Known;
use crate::name_refusal::NameRefusal;
use crate::named::{Named, names_of_query, names_of_script};
use flow_facts::{Name, TextKey};
use flow_form::{Query, Script};
use indexmap::IndexMap;
use std::alloc::{AllocError, Global};

/// Puts a name that is declared among the others, and says whether it is there already.
fn is_again<'a>(
    names: &mut IndexMap<&'a Name, (), TextKey>,
    named: &Named<'a>,
) -> Result<bool, AllocError>
    ensures again { IfOk result (λ again. again ≡ is_again (has names.old) (role_of named.now)) }
    ensures names { OnOk result (has names.new ≡ with_role (has names.old) (role_of named.now)) }
{
    match named {
        Named::Declares(name) => Ok(names.insert(*name, ())?.is_some()),
        Named::InGoal(_) | Named::InRule(_) | Named::InFact(_) => Ok(false),
    }
}

/// The place of the first name that is declared a second time. It is looked for only where what is known tells of one.
fn first_repeated<'a>(
    alloc: Global,
    list: &[Named<'a>],
    known: &Known<'a>,
) -> Result<Option<usize>, AllocError>
    ensures { IfOk result (λ place. place ≡ cond known.now.is_again (repeated_from no_names 0 (roles_of list.now)) None) }
{
    if !known.is_again {
        return Ok(None);
    }
    let mut names = IndexMap::with_hasher(alloc, *known.names.hasher());
    for (place, named) in list.iter().enumerate() {
        if is_again(&mut names, named)? {
            return Ok(Some(place));
        }
    }
    Ok(None)
}

/// The place of the first name that is not declared as it must be.
fn first_unknown<'a>(list: &[Named<'a>], known: &Known<'a>) -> Option<usize>
    ensures { result ≡ position_from (is_unknown (has known.now.names) (has_as_event known.now.names)) 0 (roles_of list.now) }
{
    for (place, named) in list.iter().enumerate() {
        if known.lacks(named) {
            return Some(place);
        }
    }
    None
}

/// Whether each name is declared, once and as it must be. A name that is declared twice comes before an unknown one.
pub(crate) fn check_script(alloc: Global, script: &Script) -> Result<(), NameRefusal>
    ensures ok { OnOk result (HasGoodNames (said script.now)) }
    ensures repeated { (k : ℕ) → IsErrOf result (Repeated k) → IsFirstRepeated (said script.now) k }
    ensures unknown { (k : ℕ) → IsErrOf result (Unknown k) → IsFirstUnknown (said script.now) k }
{
    let list = names_of_script(alloc, script)?;
    let known = Known::of(alloc, &script.decls)?;
    if let Some(index) = first_repeated(alloc, &list, &known)? {
        return Err(NameRefusal::Repeated { index });
    }
    if let Some(index) = first_unknown(&list, &known) {
        return Err(NameRefusal::Unknown { index });
    }
    Ok(())
}

/// Whether each name of the query is that of an event of the script, whose names need not be good.
pub(crate) fn check_query<'a>(
    alloc: Global,
    query: &'a Query,
    script: &'a Script,
) -> Result<(), NameRefusal>
    ensures ok { OnOk result (AsksOfEvents (asked query.now) (said script.now)) }
    ensures unknown { (k : ℕ) → IsErrOf result (Unknown k) → AsksFirstOfOther (asked query.now) (said script.now) k }
    ensures never_repeated { (k : ℕ) → ¬ IsErrOf result (Repeated k) }
{
    let list = names_of_query(alloc, query)?;
    let known = Known::of(alloc, &script.decls)?;
    match first_unknown(&list, &known) {
        Some(index) => Err(NameRefusal::Unknown { index }),
        None => Ok(()),
    }
}
