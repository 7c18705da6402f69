//! A case of the back office over disks that stop at each of their calls in turn. After each crash the case is opened again and goes on.
#![tactic(auto)]

mod cases;
mod disks;
mod lines;
mod trials;

use crate::cases::Texts;
use crate::trials::{Stops, Trial};
use anyhow::Result;
use std::fs::{self, File, Files};

/// Writes whether it went right.
fn tell<R: Print>(rt: &R, what: &str, holds: bool) -> Result<()> {
    let how = if holds { "yes" } else { "no" };
    println!(rt; "{what}: {how}")?;
    Ok(())
}

fn texts<R: Files<File = File> + AllocGlobal>(rt: &R) -> Result<Texts> {
    Ok(Texts {
        workflow: fs::read(rt, "back_office.flow")?,
        policy: fs::read(rt, "back_office.policy")?,
    })
}

fn main(rt: HostRuntime) -> Result<()> {
    let alloc = rt.alloc();
    let texts = texts(&rt)?;
    let mut trial = Trial::of_whole_session(alloc, &texts)?;
    let count = trial.history.len();
    println!(rt; "the session has {count} entries")?;
    for stops in [Stops::Entries, Stops::Trail] {
        let what = match stops {
            Stops::Entries => "the disk of the entries stops at each call",
            Stops::Trail => "the disk of the trail stops at each call",
        };
        tell(&rt, what, trial.stop_at_each_call(alloc, &texts, stops)?)?;
    }
    tell(
        &rt,
        "each entry came to nothing in a crash, and in another was kept",
        trial.saw_both_ends_of_each_entry(),
    )
}
