ghost use Rattle.std.specs.Prelude.{◌≡◌, ◌∷◌, [], ◌++◌, List, length, IfOk, ℕ};
ghost use Rattle.flow_model.specs.Lists.{Begins};
ghost use Rattle.flow_expand.specs.Expansion.{Expansion, alone};
ghost use Rattle.flow_expand.specs.Layout.{IsRoot, IsPlain, paired, label_of};

use crate::size::Size;
use flow_facts::Fact;
use flow_model::{Deed, Label, Operator};
use std::alloc::AllocError;

/// The label of a leaf that does it with the fact of that number.
pub(crate) fn label_of(deed: Deed, fact: u32) -> Label
    ensures { result ≡ label_of deed fact }
{
    match deed {
        Deed::Test => Label::Test(fact),
        Deed::Absent => Label::Absent(fact),
        Deed::Ins => Label::Ins(fact),
        Deed::Del => Label::Del(fact),
    }
}

/// A piece of a layout. Pieces inside it go by their places in the layout, which are lower.
#[derive(Clone, Copy)]
pub(crate) enum Piece<'a> {
    Nop,
    Event(u32),
    Fact(Deed, &'a Fact),
    Pair(Operator, usize, usize),
    Iso(usize),
}

/// Goals with sub-workflows in place: what two goals share stands there once.
pub(crate) type Layout<'a> = Vec<Piece<'a>>;

/// A goal of a layout.
#[derive(Clone, Copy)]
pub(crate) struct Root {
    /// The place of its piece in the layout.
    pub(crate) place: usize,
    pub(crate) size: Size,
}

/// Puts one more piece into the layout, the root of a goal of that size.
fn put<'a>(layout: &mut Layout<'a>, piece: Piece<'a>, size: Size) -> Result<Root, AllocError>
    ensures grown { Begins layout.new.items layout.old.items }
    ensures ok { IfOk result (λ root. (layout.new.items ≡ layout.old.items ++ piece.entry ∷ []) × (root.place ≡ length layout.old.items) × (root.size ≡ size)) }
{
    let place = layout.len();
    layout.push(piece)?;
    Ok(Root { place, size })
}

/// Puts in a leaf or nothing.
pub(crate) fn put_end<'a>(layout: &mut Layout<'a>, piece: Piece<'a>) -> Result<Root, AllocError>
    ensures grown { Begins layout.new.items layout.old.items }
    ensures ok { IfOk result (λ root. (events : List (List ℕ)) (e : Expansion) → IsPlain events piece.entry e → IsRoot layout.new.items events e root) }
{
    put(layout, piece, Size::END)
}

/// Puts in a goal isolated.
pub(crate) fn put_isolated(layout: &mut Layout<'_>, root: Root) -> Result<Root, AllocError>
    ensures grown { Begins layout.new.items layout.old.items }
    ensures ok { IfOk result (λ whole. (events : List (List ℕ)) (e : Expansion) → IsRoot layout.old.items events e root → IsRoot layout.new.items events (alone e) whole) }
{
    put(layout, Piece::Iso(root.place), root.size.isolated())
}

/// Puts in two goals together.
pub(crate) fn put_both(
    layout: &mut Layout<'_>,
    how: Operator,
    left: Root,
    right: Root,
) -> Result<Root, AllocError>
    ensures grown { Begins layout.new.items layout.old.items }
    ensures ok { IfOk result (λ whole. (events : List (List ℕ)) (a b : Expansion) → IsRoot layout.old.items events a left
        → IsRoot layout.old.items events b right → IsRoot layout.new.items events (paired how a b) whole) }
{
    put(
        layout,
        Piece::Pair(how, left.place, right.place),
        left.size.with(right.size),
    )
}
