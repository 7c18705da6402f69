ghost use Rattle.flow_laws.specs.Folding.{EmptinessIsSeen, FoldedResolutionsAreCounted, FoldedResolutionsAreNumbered, FoldedResolutionsAreFolded};

/// The goals in which the choices stay that a test lets stay are numbered in order; no choice in one stands in an isolated
/// part or may be executed with no block, which is seen in a goal.
pub fn law_folded_resolutions()
    ensures emptiness { EmptinessIsSeen }
    ensures counted { FoldedResolutionsAreCounted }
    ensures numbered { FoldedResolutionsAreNumbered }
    ensures folded { FoldedResolutionsAreFolded }
{}
