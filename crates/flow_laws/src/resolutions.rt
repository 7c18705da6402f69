ghost use Rattle.std.specs.Prelude.{ℕ, List, ◌↔◌};
ghost use Rattle.flow_model.specs.Lists.{◌∈◌, AreDistinct};
ghost use Rattle.flow_model.specs.Process.{Process, leaves};
ghost use Rattle.flow_model.specs.Trace.{Blocks, Trace};
ghost use Rattle.flow_model.specs.Schema.{Schema};
ghost use Rattle.flow_model.specs.Resolution.{ChoiceOption, options, resolutions};
ghost use Rattle.flow_laws.specs.WellFormed.{IsWellFormed, IsOrdered};
ghost use Rattle.flow_laws.specs.Resolutions.{Resolves, ResolutionsAreNumbered};

/// The executions of a goal are those of its resolutions, which are numbered in order; those of one are the goal's that
/// hold just its leaves. Every option has what the laws of ready runs and circles ask.
pub fn law_traces_are_of_resolutions()
    ensures blocks { (g : Process) (blocks : List (List ℕ)) → Blocks g blocks
        ↔ ((q : Process) × (q ∈ resolutions g) × Blocks q blocks) }
    ensures just_these { (g q : Process) → (q ∈ resolutions g) ↔ Resolves g q }
    ensures numbered { ResolutionsAreNumbered }
    ensures ordered { (w : Schema) → IsWellFormed w → (o : ChoiceOption) → o ∈ options w → IsOrdered o.resolution o.order }
    ensures by_leaves { (g q : Process) → AreDistinct (leaves g) → q ∈ resolutions g → (t : List ℕ) → Trace q t
        ↔ (Trace g t × ((n : ℕ) → (n ∈ t) ↔ (n ∈ leaves q))) }
{}
