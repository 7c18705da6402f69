ghost use Rattle.std.specs.Prelude.{◌≡◌, IfOk};
ghost use Rattle.flow_record.specs.Words.{words_of};

use std::alloc::{AllocError, Global};

/// What one line of a text is.
#[derive(Drop)]
pub enum Line<C> {
    /// It has no word.
    Blank,
    Holds(C),
    Bad,
}

/// What a line of a session may say. Besides the commands of a run there may be others, as those of its users.
pub trait Sentence: Drop {
    ghost use Rattle.std.specs.Prelude.{ℕ, List};
    ghost use Rattle.flow_record.specs.declared.line.Line.{Line};

    /// What a line says by its words.
    ghost said: { List (List ℕ) → Line Self };

    /// Reads what a line says.
    fn read(alloc: Global, line: &[u8]) -> Result<Line<Self>, AllocError>
        ensures { IfOk result (λ found. found ≡ said (words_of line.now)) };
}
