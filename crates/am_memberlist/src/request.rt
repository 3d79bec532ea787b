//! Requests of a push/pull.

ghost use Rattle.std.specs.Prelude.{◌≡◌, ◌++◌, length, IfOk, OnOk};
ghost use Rattle.am_memberlist.specs.Requests.{number_text, request_encoding, told_encoding};

use std::alloc::{AllocError, Global};

/// The beginning of a request: its type, and all of its header but the last number. It joins no cluster, and names no node.
const HEAD: [u8; 28] = *b"\x06\x83\xa4Join\xc2\xa5Nodes\x00\xacUserStateLen";

/// The beginning of a message that tells of a state: its type, and all of its header but the number.
const TOLD_HEAD: [u8; 13] = *b"\x08\x81\xaaUserMsgLen";

/// Adds a number in its shortest form.
fn add_number(out: &mut Vec<u8>, number: u64) -> Result<(), AllocError>
    ensures { OnOk result (out.new.items ≡ out.old.items ++ number_text number) }
{
    if number < 128 {
        out.push(number as u8)?;
        return Ok(());
    }
    if number < 256 {
        return out.extend_from_slice(&[0xcc, number as u8]);
    }
    if number < 65_536 {
        out.push(0xcd)?;
        return out.extend_from_slice(&(number as u16).to_be_bytes());
    }
    if number < 4_294_967_296 {
        out.push(0xce)?;
        return out.extend_from_slice(&(number as u32).to_be_bytes());
    }
    out.push(0xcf)?;
    out.extend_from_slice(&number.to_be_bytes())
}

/// Returns a push/pull that asks for all states, and gives these, which may be none. Its header claims exactly the bytes that
/// follow, and no nodes, and nothing is compressed.
///
/// # Errors
///
/// Returns [`AllocError`] if memory runs out.
pub fn request_encoding(alloc: Global, states: &[u8]) -> Result<Vec<u8>, AllocError>
    // PROMISE: A request claims exactly the bytes that follow, no nodes, and nothing compressed.
    ensures { IfOk result (λ text. text.items ≡ request_encoding states.now) }
{
    let mut text = Vec::new(alloc);
    text.extend_from_slice(HEAD.as_slice())?;
    add_number(&mut text, states.len() as u64)?;
    text.extend_from_slice(states)?;
    Ok(text)
}

/// Returns a message that gives a part of a state and asks for nothing: no reply comes. Its header claims exactly the bytes
/// that follow, and nothing is compressed.
///
/// # Errors
///
/// Returns [`AllocError`] if memory runs out.
pub fn told_encoding(alloc: Global, part: &[u8]) -> Result<Vec<u8>, AllocError>
    // PROMISE: What a replica is told claims exactly the bytes that follow, and nothing compressed.
    ensures { IfOk result (λ text. text.items ≡ told_encoding part.now) }
{
    let mut text = Vec::new(alloc);
    text.extend_from_slice(TOLD_HEAD.as_slice())?;
    add_number(&mut text, part.len() as u64)?;
    text.extend_from_slice(part)?;
    Ok(text)
}
