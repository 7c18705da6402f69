//! What a line of a trail says, and where a trail ends.
ghost use Rattle.std.specs.Prelude.{◌≡◌, ◌↔◌, false, IsTrue};

/// A line of a trail.
#[derive(Drop)]
pub enum TrailLine {
    /// It tells an entry of the history.
    Told(Telling),
    /// The line before it has no entry.
    Void { at: String },
    /// It tells no entry.
    Remark(Remark),
}

/// Who made an entry, when, and what it is.
#[derive(Drop)]
pub struct Telling {
    /// When, as it was told: no clock is asked here.
    pub at: String,
    pub by: String,
    /// The step in words, as a history has it.
    pub entry: String,
    /// The name of the task, or the label of the leaf.
    pub task: String,
    /// Left out of the line where it is empty.
    pub note: String,
}

/// What a remark is about.
#[derive(Clone, Copy, PartialEq, Eq)]
pub enum About {
    /// What a step back took away is undone outside. The text is the name of the task, and the entry the one by which it was done.
    Undone,
    /// The case goes on under other texts. The text is the last seal of the trail before, and there are so many entries.
    Moved,
}

/// A line that tells no entry, and who made it when.
#[derive(Drop)]
pub struct Remark {
    pub about: About,
    pub text: String,
    /// The number of an entry, from 1.
    pub entry: u32,
    pub by: String,
    pub at: String,
}

impl About {
    ghost use Rattle.flow_trail.specs.Lines.{word_of};

    /// The name of the first member of such a line.
    pub(crate) fn word(self) -> &'static [u8]
        ensures { result.now ≡ word_of self }
    {
        match self {
            About::Undone => b"undone",
            About::Moved => b"moved",
        }
    }
}

/// Where a trail ends: what its next line is sealed by, and how it is numbered.
#[derive(Clone, Copy)]
pub struct TrailEnd {
    pub seal: [u8; 32],
    /// How many entries are told.
    pub count: u32,
    /// Whether the last line tells an entry.
    pub last_told: bool,
}

impl TrailEnd {
    ghost use Rattle.flow_trail.specs.Lines.{CanFollow, said_of, next_end};

    /// Where a trail begins that is sealed by this.
    pub fn start(seal: [u8; 32]) -> TrailEnd
        ensures { result ≡ record { seal = seal; count = 0; last_told = false } }
    {
        TrailEnd {
            seal,
            count: 0,
            last_told: false,
        }
    }

    /// Whether the line may stand next: one that is void stands behind a line that tells an entry.
    pub fn allows(&self, line: &TrailLine) -> bool
        ensures { IsTrue result ↔ CanFollow self.now (said_of line.now) }
    {
        match line {
            TrailLine::Told(_) => self.count < u32::MAX,
            TrailLine::Void { .. } => self.last_told && self.count > 0,
            TrailLine::Remark(_) => true,
        }
    }

    /// Where the trail ends behind the line, which has that seal.
    pub(crate) fn behind(&self, line: &TrailLine, seal: [u8; 32]) -> TrailEnd
        requires { CanFollow self.now (said_of line.now) }
        ensures { result ≡ next_end self.now seal (said_of line.now) }
    {
        match line {
            TrailLine::Told(_) => TrailEnd {
                seal,
                count: self.count + 1,
                last_told: true,
            },
            TrailLine::Void { .. } => TrailEnd {
                seal,
                count: self.count - 1,
                last_told: false,
            },
            TrailLine::Remark(_) => TrailEnd {
                seal,
                count: self.count,
                last_told: false,
            },
        }
    }
}
