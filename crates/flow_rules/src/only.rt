ghost use Rattle.std.specs.Prelude.{◌≡◌, ◌∷◌, [], IfNone, IfSome, length};

/// Takes the one item of a list that has no other. Any other list stays as it is.
pub(crate) fn only<T>(list: &mut Vec<T>) -> Option<T>
    ensures one { IfSome result (λ item. list.old.items ≡ item ∷ []) }
    ensures other { IfNone result (¬ (length list.old.items ≡ 1)) }
    ensures same { IfNone result (list.new.items ≡ list.old.items) }
{
    if list.len() == 1 { list.pop() } else { None }
}
