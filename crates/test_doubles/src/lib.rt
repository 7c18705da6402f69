//! Doubles for tests of what the program stands on: sources and sinks in memory, cut in pieces or with faults on
//! purpose, a gate and a checker at which two tasks and two checks meet, and a gate and a checker that count what they are asked.
#![tactic(auto)]

mod copying;
mod counting_checker;
mod counting_gate;
mod cut_source;
mod faulty_sink;
mod faulty_source;
mod listing;
mod meet;
mod meet_checker;
mod mem_sink;
mod mem_source;

pub use counting_checker::CountingChecker;
pub use counting_gate::CountingGate;
pub use cut_source::CutSource;
pub use faulty_sink::FaultySink;
pub use faulty_source::FaultySource;
pub use meet::MeetGate;
pub use meet_checker::MeetChecker;
pub use mem_sink::MemSink;
pub use mem_source::MemSource;
