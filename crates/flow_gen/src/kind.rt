ghost use Rattle.std.specs.Prelude.{◌≡◌, ◌+◌, ◌≤◌, ◌^◌, ◌<◌, IfOk, length};
ghost use Rattle.flow_model.specs.declared.limits.TheConstants.{GREATEST_SIZE};
ghost use Rattle.flow_gen.specs.Generated.{kind, kinds, choices_in};

use std::alloc::{AllocError, Global};

/// No more blocks than these are choices.
const MOST_CHOICES: u32 = 6;

/// How a block of eight events is made.
#[derive(Clone, Copy)]
pub(crate) enum Kind {
    /// One after another.
    Series,
    /// Four in series beside four in series.
    Beside,
    /// The same, and the first four isolated.
    IsolatedBeside,
    /// Four in series, or the four others.
    Either,
}

fn kind_of(choices: u32, draw: u32) -> Kind
    ensures { result ≡ kind choices draw }
{
    match draw % 4 {
        0 => Kind::Series,
        1 => Kind::Beside,
        2 => Kind::IsolatedBeside,
        _ if choices < MOST_CHOICES => Kind::Either,
        _ => Kind::Beside,
    }
}

fn choices_after(choices: u32, kind: Kind) -> u32
    requires { choices + 1 < 2 ^ 32 }
    ensures { result ≡ choices + choices_in kind }
{
    match kind {
        Kind::Either => choices + 1,
        Kind::Series | Kind::Beside | Kind::IsolatedBeside => choices,
    }
}

/// The kind of each block by its draw.
pub(crate) fn kinds_of(alloc: Global, draws: &[u32]) -> Result<Vec<Kind>, AllocError>
    requires { length draws.now ≤ GREATEST_SIZE }
    ensures { IfOk result (λ list. list.items ≡ kinds 0 draws.now) }
{
    let mut list = Vec::new(alloc);
    let mut choices = 0;
    for draw in draws {
        let kind = kind_of(choices, *draw);
        choices = choices_after(choices, kind);
        list.push(kind)?;
    }
    Ok(list)
}
