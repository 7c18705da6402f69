ghost use Rattle.std.specs.Prelude.{◌≡◌};
ghost use Rattle.flow_case.specs.Bar.{of_bar};

use flow_ask::Refusal;

/// Which rule of a case keeps an ask from its entry.
#[derive(Clone, Copy)]
pub enum Bar {
    /// The user may not step back.
    Back,
    /// A step back would cut this leaf, which is the first one of a final event.
    Final { leaf: u32 },
    /// The user may not end the run.
    Close,
}

impl From<Bar> for Refusal {
    ghost from_gives = { λ bar refusal. refusal ≡ of_bar bar };

    fn from(bar: Bar) -> Refusal {
        match bar {
            Bar::Back => Refusal::Back,
            Bar::Final { leaf } => Refusal::Final { leaf },
            Bar::Close => Refusal::Close,
        }
    }
}
