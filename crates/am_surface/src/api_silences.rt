//! The silences of API v2.

use crate::samples::holds;
use am_api_silences::{Read, Refusal, Request, read_request, to_bytes, to_event};
use am_instance::{Event, Reply};
use std::alloc::{AllocError, Global};

/// Calls the public functions of am_api_silences that make no step.
pub fn calls(alloc: Global) -> Option<()> {
    holds(means_an_event(alloc)?)?;
    replies(alloc)?;
    refusals(alloc)
}

fn means_an_event(alloc: Global) -> Option<bool> {
    let request = request(alloc)?;
    let event: Result<Event, Refusal> = to_event(alloc, &request, 0u128);
    Some(event.is_ok())
}

/// Returns a request for the list of all silences.
pub fn request(alloc: Global) -> Option<Request> {
    let read: Read = read_request(alloc, b"GET /api/v2/silences HTTP/1.1\r\n\r\n", true);
    match read {
        Read::Whole(request) => Some(request),
        Read::More | Read::Refused(_) => None,
    }
}

fn replies(alloc: Global) -> Option<()> {
    let bytes: Result<Vec<u8>, AllocError> = to_bytes(alloc, Ok(&Reply::Deleted));
    holds(bytes.ok()?.starts_with(b"HTTP/1.1 200 OK"))
}

fn refusals(alloc: Global) -> Option<()> {
    let read: Read = read_request(alloc, b"GET ", true);
    let refusal = refusal_in(read)?;
    let (status, text, allow): (u16, &'static str, Option<&'static str>) = (
        refusal.status,
        refusal.text,
        refusal.allow,
    );
    let bytes: Result<Vec<u8>, AllocError> = to_bytes(alloc, Err(&refusal));
    holds(bytes.is_ok() && status == 400 && text == "request ended early" && allow.is_none())
}

fn refusal_in(read: Read) -> Option<Refusal> {
    match read {
        Read::Refused(refusal) => Some(refusal),
        Read::More => None,
        Read::Whole(
            Request {
                method: _,
                target: _,
                body: _,
            },
        ) => None,
    }
}
