ghost use Rattle.std.specs.Prelude.{◌≡◌, ◌≤◌};
ghost use Rattle.flow_core.specs.Ask.{told_of, IsPlayed};

use crate::run::Core;
use flow_ask::{Answer, Ask, Made, Refusal};
use flow_model::{Call, FailEffect};

impl Core {
    ghost use Rattle.flow_core.specs.Ask.{Answers};

    /// Asks the run one thing. The other calls that make entries are this one, each with refusals of its own.
    pub fn answer(&mut self, ask: Ask, by: u32) -> Answer
        ensures { Answers self.old ask by result self.new }
    {
        Ok(match ask {
            Ask::Take(leaf) => Made::Claim(self.take(leaf, by)?),
            Ask::Do(leaf) => {
                self.perform(leaf, by)?;
                Made::Did
            }
            Ask::Done(claim) => {
                self.done(claim, by)?;
                Made::Done
            }
            Ask::Fail(claim) => Made::Failed(self.fail(claim, by)?),
            Ask::Rewind => Made::Rewound(self.rewind(by)?),
            Ask::Commit => {
                self.commit(by)?;
                Made::Committed
            }
        })
    }
}

/// What a run answers, with the number of a refusal.
#[derive(Clone, Copy)]
pub enum Told {
    Call(Call),
    Did,
    Posted,
    Failed(FailEffect),
    Rewound(u32),
    Committed,
    Late { of: u32, now: u32 },
    /// `Refusal::number`, and never that of a late result.
    Refused(u8),
}

impl From<Answer> for Told {
    ghost from_gives = { λ answer told. told ≡ told_of answer };

    fn from(answer: Answer) -> Told {
        match answer {
            Ok(Made::Claim(call)) => Told::Call(call),
            Ok(Made::Did) => Told::Did,
            Ok(Made::Done) => Told::Posted,
            Ok(Made::Failed(effect)) => Told::Failed(effect),
            Ok(Made::Rewound(index)) => Told::Rewound(index),
            Ok(Made::Committed) => Told::Committed,
            Err(Refusal::Late { of, now }) => Told::Late { of, now },
            Err(refusal) => Told::Refused(refusal.number()),
        }
    }
}

/// Asks the run one thing after another, and tells its answers. Takes no memory.
pub fn play<const N: usize>(core: &mut Core, asks: &[Ask; N], by: u32) -> [Told; N]
    requires { N ≤ 64 }
    ensures { IsPlayed core.old by asks.now result core.new }
{
    let mut told = [Told::Did; N];
    for index in 0..N {
        told[index] = Told::from(core.answer(asks[index], by));
    }
    told
}
