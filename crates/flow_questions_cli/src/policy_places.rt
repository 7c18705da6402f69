//! Where the things of a policy stand in its text.

use crate::subject::Subject;
use flow_fault::spot_of;
use flow_policy_lint::{Head, Word};

/// The text of a policy, and what its statements begin with.
#[derive(Clone, Copy)]
pub(crate) struct Places<'a> {
    pub(crate) text: &'a [u8],
    /// How many lines of its file stand before the text.
    pub(crate) before: usize,
    pub(crate) heads: &'a [Head<'a>],
}

/// Whether a statement begins with that word.
fn is_with(head: &Head<'_>, word: Word) -> bool {
    matches!(
        (head.word, word),
        (Word::Role, Word::Role)
            | (Word::Allow, Word::Allow)
            | (Word::Separate, Word::Separate)
            | (Word::Bind, Word::Bind)
    )
}

impl<'a> Places<'a> {
    /// The line and the column of that place in the file.
    fn spot(&self, place: usize) -> (usize, usize) {
        let spot = spot_of(self.text, self.text.len().min(place));
        (spot.line.saturating_add(self.before), spot.column)
    }

    /// A statement's first name, with its line and column. The statement has that number among all.
    pub(crate) fn first_name(&self, number: u32) -> (&'a [u8], (usize, usize)) {
        match self.heads.get(number as usize) {
            Some(head) => (head.name, self.spot(head.place)),
            None => {
                let none: &[u8] = &[];
                (none, self.spot(0))
            }
        }
    }

    /// The line and the column of the first name in the statement with that word, of that number among those with the word.
    fn spot_with(&self, word: Word, number: u32) -> (usize, usize) {
        let mut left = number;
        for head in self.heads {
            if is_with(head, word) {
                if left == 0 {
                    return self.spot(head.place);
                }
                left -= 1;
            }
        }
        self.spot(0)
    }

    /// The line and the column of the first `bind` of the two events.
    pub(crate) fn bind(&self, subject: &Subject, one: u32, two: u32) -> (usize, usize) {
        for tie in subject.run.policy().bindings(one) {
            if tie.other == two {
                return self.spot_with(Word::Bind, tie.index);
            }
        }
        self.spot(0)
    }

    /// The line and the column of the first `separate` of the two events.
    pub(crate) fn separate(&self, subject: &Subject, one: u32, two: u32) -> (usize, usize) {
        for tie in subject.run.policy().separations(one) {
            if tie.other == two {
                return self.spot_with(Word::Separate, tie.index);
            }
        }
        self.spot(0)
    }
}

/// Whether the two events are separate.
pub(crate) fn are_separate(subject: &Subject, one: u32, two: u32) -> bool {
    let ties = subject.run.policy().separations(one);
    ties.iter().any(|tie| tie.other == two)
}

/// The name of the event.
pub(crate) fn event_name(subject: &Subject, event: u32) -> &[u8] {
    subject.run.core().workflow().event_name(event)
}
