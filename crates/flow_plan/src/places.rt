ghost use Rattle.std.specs.Prelude.{◌≡◌, ◌<◌, length, IfNone, IfSome, slice_get};
ghost use Rattle.std.specs.List.Sorted.{IsStrictlyIncreasing};
ghost use Rattle.flow_model.specs.Lists.{◌∈◌};

/// The place of a leaf in a rising list.
pub(crate) fn place_of(leaves: &[u32], leaf: u32) -> Option<usize>
    requires { IsStrictlyIncreasing leaves.now }
    ensures found { IfSome result (λ k. slice_get leaves.now k ≡ Some leaf) }
    ensures within { IfSome result (λ k. k < length leaves.now) }
    ensures missing { IfNone result (¬ (leaf ∈ leaves.now)) }
{
    match leaves.binary_search(&leaf) {
        Ok(place) => Some(place),
        Err(_) => None,
    }
}
