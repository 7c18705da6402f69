ghost use Rattle.std.specs.Prelude.{◌≡◌, ◌++◌, OnOk, OnErr};
ghost use Rattle.flow_model.specs.Lists.{Begins};
ghost use Rattle.flow_facts.specs.Text.{constant_text, more_constants, arguments_text, fact_text};

use crate::constant::Const;
use crate::fact::Fact;
use itoa::Buffer;
use std::alloc::AllocError;

fn push_constant(text: &mut Vec<u8>, constant: &Const) -> Result<(), AllocError>
    ensures grown { Begins text.new.items text.old.items }
    ensures ok { OnOk result (text.new.items ≡ text.old.items ++ constant_text constant.now) }
{
    match constant {
        Const::Word(name) => text.extend_from_slice(name.bytes()),
        Const::Number(number) => {
            let mut digits = Buffer::new();
            text.extend_from_slice(digits.format(*number).as_bytes())
        }
    }
}

/// Each of them after a comma.
fn push_more_constants(text: &mut Vec<u8>, constants: &[Const]) -> Result<(), AllocError>
    ensures grown { Begins text.new.items text.old.items }
    ensures ok { OnOk result (text.new.items ≡ text.old.items ++ more_constants constants.now) }
{
    for constant in constants {
        text.extend_from_slice(b",")?;
        push_constant(text, constant)?;
    }
    Ok(())
}

fn push_arguments(text: &mut Vec<u8>, constants: &[Const]) -> Result<(), AllocError>
    ensures grown { Begins text.new.items text.old.items }
    ensures ok { OnOk result (text.new.items ≡ text.old.items ++ arguments_text constants.now) }
{
    match constants {
        [] => Ok(()),
        [first, rest @ ..] => {
            text.extend_from_slice(b"(")?;
            push_constant(text, first)?;
            push_more_constants(text, rest)?;
            text.extend_from_slice(b")")
        }
    }
}

fn push_parts(text: &mut Vec<u8>, fact: &Fact) -> Result<(), AllocError>
    ensures grown { Begins text.new.items text.old.items }
    ensures ok { OnOk result (text.new.items ≡ text.old.items ++ fact_text fact.now) }
{
    text.extend_from_slice(fact.relation().bytes())?;
    push_arguments(text, fact.args())
}

/// Adds the fact to a text, as a workflow text writes it: a relation, and its arguments in parentheses.
/// Where there is no memory, the text is as it was.
pub fn push_fact(text: &mut Vec<u8>, fact: &Fact) -> Result<(), AllocError>
    ensures ok { OnOk result (text.new.items ≡ text.old.items ++ fact_text fact.now) }
    ensures err { OnErr result (text.new.items ≡ text.old.items) }
{
    let before = text.len();
    let pushed = push_parts(text, fact);
    if pushed.is_err() {
        text.truncate(before);
    }
    pushed
}
