ghost use Rattle.std.specs.Prelude.{◌≡◌, ◌++◌, ◌<◌, [], length, map, slice_get, codes, IfOk};
ghost use Rattle.std.specs.Option.{option_copied, unwrap_or};
ghost use Rattle.std.specs.Fmt.{decimal};
ghost use Rattle.flow_form.specs.Script.{declared};
ghost use Rattle.flow_form.specs.Names.{event_names};
ghost use Rattle.flow_findings.specs.Refusing.{named_by, spaced, expand_refusal, IsOfWorkflow};

use crate::refusal_line::print_numbered;
use flow_facts::Name;
use flow_form::{Decl, Script};
use flow_goal::Twice;
use flow_record::print_pieces;
use flow_workflow::{ExpandRefusal, Part};
use itoa::Buffer;
use std::alloc::{AllocError, Global};

/// Prints the line that says why a workflow is not expanded. An event goes by the name that the script declares.
pub(crate) fn print_expand_refusal(
    alloc: Global,
    refusal: &ExpandRefusal,
    script: Option<&Script>,
) -> Result<Vec<u8>, AllocError>
    requires { IsOfWorkflow (named_by script) refusal.now }
    ensures { IfOk result (λ line. line.items ≡ codes "refused: " ++ expand_refusal (named_by script.entry) refusal.now ++ codes "\n") }
{
    match refusal {
        ExpandRefusal::TooLarge {
            part: Part::Flows,
            count,
        } => print_numbered(alloc, "flows", *count),
        ExpandRefusal::TooLarge {
            part: Part::Goal,
            count,
        } => print_numbered(alloc, "size", *count),
        ExpandRefusal::TooLarge {
            part: Part::Rules,
            count,
        } => print_numbered(alloc, "rules", *count),
        ExpandRefusal::Recursive { chain } => print_recursive(alloc, chain),
        ExpandRefusal::Twice(found) => print_twice(alloc, event_name(script, found.event), found),
        ExpandRefusal::NoMemory => unreachable!(),
    }
}

/// Prints the line of sub-workflows that name each other in a ring.
fn print_recursive(alloc: Global, chain: &[Name]) -> Result<Vec<u8>, AllocError>
    ensures { IfOk result (λ line. line.items ≡ codes "refused: " ++ (codes "recursive" ++ spaced chain.now) ++ codes "\n") }
{
    let mut line = Vec::from_slice(alloc, b"refused: recursive")?;
    for name in chain {
        line.extend_from_slice(b" ")?;
        line.extend_from_slice(name.bytes())?;
    }
    line.extend_from_slice(b"\n")?;
    Ok(line)
}

/// Prints the line of two leaves of the event of that name.
fn print_twice(alloc: Global, name: &[u8], found: &Twice) -> Result<Vec<u8>, AllocError>
    ensures { IfOk result (λ line. line.items ≡ codes "refused: " ++ (codes "twice " ++ name.now ++ codes " "
        ++ decimal found.now.first ++ codes " " ++ decimal found.now.second) ++ codes "\n") }
{
    let mut first = Buffer::new();
    let mut second = Buffer::new();
    print_pieces(
        alloc,
        &[
            b"refused: twice ",
            name,
            b" ",
            first.format(found.first).as_bytes(),
            b" ",
            second.format(found.second).as_bytes(),
            b"\n",
        ],
    )
}

/// The name of the event of that number.
fn event_name(script: Option<&Script>, number: u32) -> &[u8]
    requires { number < length (named_by script) }
    ensures { result.now ≡ unwrap_or (slice_get (named_by script.entry) number) [] }
{
    let Some(script) = script else { unreachable!() };
    match find_event(&script.decls, number) {
        Some(name) => name.bytes(),
        None => unreachable!(),
    }
}

/// The name of the event of that number among those that are declared.
fn find_event(decls: &[Decl], number: u32) -> Option<&Name>
    ensures { option_copied result ≡ slice_get (event_names (map declared decls.now)) number }
{
    let mut before = number;
    for decl in decls {
        if let Decl::Event(name, _) = decl {
            if before == 0 {
                return Some(name);
            }
            before -= 1;
        }
    }
    None
}
