use flow_standing::Out;

/// Why a leaf of a run is not taken or done now. Places of entries are counted from 0.
#[derive(Drop)]
pub enum Reason {
    /// The goal has no such leaf.
    NoLeaf,
    /// It can be taken or done now.
    Free,
    /// The run is over.
    Over,
    /// It is done, since the entry at that place.
    Done {
        entry: usize,
    },
    /// The claim on it is out, since the entry at that place, by which the user took it.
    Out {
        claim: u32,
        entry: usize,
        user: u32,
    },
    /// It asks that the fact holds, or, where that is not wanted, that it does not hold. It is not so now. These leaves would make it so.
    False {
        fact: u32,
        wanted: bool,
        leaves: Vec<u32>,
    },
    /// It is on the other side of a choice than this leaf, which is done: no trace of the goal has both.
    OtherSide {
        leaf: u32,
    },
    /// It was given up, or needs what was: something failed, or the run stepped back over it. No execution has it that is still free, and some
    /// would that goes on from the journal.
    GivenUp,
    /// The goal alone does not let it come next: in each trace of the goal that goes on from the journal and has it, these leaves, which
    /// are not done, stand before it. Others may, too.
    Waits {
        leaves: Vec<u32>,
    },
    /// The goal alone does not let it come next. An isolated part is begun that does not have it: these leaves of the part are not done.
    Isolated {
        leaves: Vec<u32>,
    },
    /// These constraints do not let it come next. Each is needed for that, but for the undecided ones: to see it would pass the limits.
    WaitsByConstraints {
        constraints: Vec<u32>,
        undecided: Vec<u32>,
    },
    /// These claims, which are out, are in the way: with all but one of them out the leaf could be taken, or done whatever facts hold, if
    /// nothing had been given up.
    Claims {
        claims: Vec<Out>,
    },
    /// What was given up is in the way now, though the leaf may still come: if nothing had been, it could be taken, or done whatever facts hold.
    Barred,
    /// No more is told, since the workflow is past the limits.
    Other,
}
