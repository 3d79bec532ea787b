//! Requests that are answered by a step, given as a value or over a reader and a writer.

use crate::api_silences::request;
use crate::samples::{at, holds, instance};
use am_api_silences::{Answered, Request, ResponseBytes, ServeFault, Served, answer, serve};
use am_gossip::Frame;
use am_instance::{Place, Unsent};
use std::alloc::Global;

/// Calls the public functions of am_api_silences that make a step.
pub fn calls(alloc: Global) -> Option<()> {
    answers(alloc)?;
    serves(alloc)?;
    holds(count_in(ServeFault::Read { at: 7 }) == count_in(ServeFault::Write { written: 7 }))
}

fn answers(alloc: Global) -> Option<()> {
    let request: Request = request(alloc)?;
    let mut instance = instance(alloc)?;
    let answered: Answered = answer(alloc, &mut instance, &request, 0u128, at(11));
    let Answered {
        reply,
        frames,
        unsent,
    } = answered;
    let frames: Vec<(Place, Frame)> = frames;
    let unsent: Unsent = unsent;
    holds(frames.is_empty() && unsent.memory == 0 && unsent.limit == 0)?;
    holds(is_own(&reply))
}

fn is_own(reply: &ResponseBytes) -> bool {
    match reply {
        ResponseBytes::Own(bytes) => bytes.starts_with(b"HTTP/1.1 200 OK"),
        ResponseBytes::Fixed(_) => false,
    }
}

fn serves(alloc: Global) -> Option<()> {
    let mut input: &[u8] = b"DELETE /api/v2/silence/b HTTP/1.1\r\n\r\n";
    let mut reply: Vec<u8> = Vec::new(alloc);
    let mut instance = instance(alloc)?;
    let served: Served = serve(alloc, &mut instance, &mut input, &mut reply, 0u128, at(11));
    let Served {
        status,
        frames,
        unsent,
        fault,
    } = served;
    let status: Option<u16> = status;
    let frames: Vec<(Place, Frame)> = frames;
    let unsent: Unsent = unsent;
    let fault: Option<ServeFault> = fault;
    holds(status == Some(404) && frames.is_empty() && unsent.memory == 0 && fault.is_none())?;
    holds(reply.starts_with(b"HTTP/1.1 404 Not Found"))
}

/// Returns the number of bytes that a fault has.
fn count_in(fault: ServeFault) -> u64 {
    match fault {
        ServeFault::Read { at } => at,
        ServeFault::Write { written } => written,
    }
}
