//! The engine for programs in C, and for whatever calls C: bytes in, bytes out, and nothing kept.
#![tactic(auto)]

mod answer;
mod hand;
mod request;
mod source;
mod stepping;

ghost use Rattle.flow_c.specs.Calls.{AnswersCall, StepsCall};

use crate::answer::answer_bytes;
use crate::hand::{hand_nothing, hand_over};
use crate::request::request_of;
use crate::stepping::step_object;
use std::alloc::Global;

/// No call of `flow` has that mode, or so many steps.
const WORDS: u32 = 2;

/// There was not enough memory.
const MEMORY: u32 = 6;

/// What `flow` writes to an input in a mode, and the status with which it ends.
#[unsafe(no_mangle)]
pub extern "C" fn flow_answer(
    alloc: Global,
    mode: u32,
    steps: u32,
    input: &[u8],
    room: &mut [u8],
    length: &mut usize,
) -> u32
    ensures { AnswersCall mode steps input.now room.old room.new length.new result }
{
    let Some(request) = request_of(mode, steps) else {
        return hand_nothing(WORDS, length);
    };
    match answer_bytes(alloc, request, input) {
        Ok(output) => hand_over(&output.text, u32::from(output.status.code()), room, length),
        Err(_) => hand_nothing(MEMORY, length),
    }
}

/// One step of a case: what comes of it, as an object of JSON.
#[unsafe(no_mangle)]
pub extern "C" fn flow_step(
    alloc: Global,
    text: &[u8],
    policy: &[u8],
    history: &[u8],
    by: u32,
    line: &[u8],
    room: &mut [u8],
    length: &mut usize,
) -> u32
    ensures { StepsCall text.now policy.now history.now by line.now room.old room.new length.new result }
{
    match step_object(alloc, text, policy, history, by, line) {
        Ok((object, code)) => hand_over(&object, u32::from(code), room, length),
        Err(_) => hand_nothing(MEMORY, length),
    }
}
