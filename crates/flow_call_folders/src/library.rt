//! The texts of cases. Those that cases share are read once.

use crate::unseen::{Unseen, why_stopped};
use flow_case_files::CaseTexts;
use flow_case_seen::{SharedTexts, read_texts};
use std::alloc::{AllocError, Global};

/// How many different texts are kept. Those of one batch of cases more may come to them.
const MOST_TEXTS: usize = 256;

/// The texts of cases, by their places.
#[derive(Drop)]
pub(crate) struct Library {
    texts: Vec<SharedTexts>,
}

/// Whether two policies are the same.
fn is_same_policy(one: Option<&[u8]>, other: &Option<Vec<u8>>) -> bool {
    match (one, other) {
        (Some(one), Some(other)) => one == other.as_slice(),
        (None, None) => true,
        _ => false,
    }
}

impl Library {
    pub(crate) fn new(alloc: Global) -> Library {
        Library {
            texts: Vec::new(alloc),
        }
    }

    /// The texts at a place.
    pub(crate) fn get(&self, place: usize) -> Option<&SharedTexts> {
        self.texts.get(place)
    }

    /// Forgets all texts, where there are many. Their places are then of other texts.
    pub(crate) fn make_room(&mut self) {
        if self.texts.len() > MOST_TEXTS {
            self.texts.clear();
        }
    }

    /// The place of these texts, where they were read before.
    fn place_of(&self, texts: &CaseTexts) -> Option<usize> {
        self.texts.iter().position(|known| {
            known.workflow() == texts.workflow.as_slice()
                && is_same_policy(known.policy(), &texts.policy)
        })
    }

    /// The place that the texts get.
    fn keep(&mut self, texts: SharedTexts) -> Result<usize, AllocError> {
        let place = self.texts.len();
        self.texts.push(texts)?;
        Ok(place)
    }

    /// The place of these texts. They are read where they are new.
    pub(crate) fn place(&mut self, alloc: Global, texts: CaseTexts) -> Result<usize, Unseen> {
        if let Some(place) = self.place_of(&texts) {
            drop(texts);
            return Ok(place);
        }
        match read_texts(alloc, texts.workflow, texts.policy) {
            Ok(read) => Ok(self.keep(read)?),
            Err(stop) => Err(why_stopped(alloc, &stop)),
        }
    }
}
