//! The sum of a frame whose encoding comes in pieces: each piece is summed as it comes.

ghost use Rattle.std.specs.Prelude.{◌≡◌, ℕ, List, IfOk, IfSome, IsTrue};
ghost use Rattle.am_peer_auth.specs.Seals.{message_front, seal_sum};
ghost use Rattle.am_peer_auth.specs.Summings.{Covers, IsBegun, IsSumOf};

use crate::mac::{Mac, SUM};
use crate::seal::{Origin, sum_of};
use crate::sequence::Sequence;
use std::alloc::{AllocError, Global};

/// The sum of the beginning of a frame's encoding, with the secret and the front of the message that it belongs to.
#[derive(Drop)]
pub struct Summing {
    secret: Vec<u8>,
    front: Vec<u8>,
    mac: Mac,
    /// The number of bytes of the encoding that the sum covers.
    count: usize,
}

/// Returns the front of the message that a sum covers: all of it before the frame's encoding.
fn front_of_message(
    alloc: Global,
    place: Sequence,
    sender: &str,
    addressee: &str,
) -> Result<Vec<u8>, AllocError>
    ensures { IfOk result (λ front. front.items ≡ message_front place sender.now addressee.now) }
{
    let mut front = place.challenge.as_slice().to_vec(alloc)?;
    front.extend_from_slice(&place.number.to_be_bytes())?;
    front.extend_from_slice(&(sender.len() as u64).to_be_bytes())?;
    front.extend_from_slice(sender.as_bytes())?;
    front.extend_from_slice(&(addressee.len() as u64).to_be_bytes())?;
    front.extend_from_slice(addressee.as_bytes())?;
    Ok(front)
}

impl Summing {
    /// Begins a sum of which no encoding has come.
    fn begin(alloc: Global, secret: &[u8], front: Vec<u8>) -> Result<Summing, AllocError>
        ensures { IfOk result (IsBegun secret.now front.items) }
    {
        let mut mac = Mac::new(secret);
        mac.update(&front);
        Ok(Summing {
            secret: secret.to_vec(alloc)?,
            front,
            mac,
            count: 0,
        })
    }

    /// Returns the number of bytes of the encoding that the sum covers.
    pub fn count(&self) -> usize
        ensures { result ≡ self.now.count }
    {
        self.count
    }

    /// Returns whether the sum belongs to a message with this front, under this secret.
    fn is_of(&self, secret: &[u8], front: &[u8]) -> bool
        ensures secret { IsTrue result → self.now.secret.items ≡ secret.now }
        ensures front { IsTrue result → self.now.front.items ≡ front.now }
    {
        self.secret.as_slice() == secret && self.front.as_slice() == front
    }

    /// Takes in the rest of an encoding.
    fn sum_rest(&mut self, encoding: &[u8])
        requires covers { Covers self.old encoding.now }
        ensures sum { IsSumOf self.new self.old.secret.items self.old.front.items encoding.now }
    {
        self.mac.update(&encoding[self.count..]);
        self.count = encoding.len();
    }
}

/// Returns the sum of an encoding of this origin so far. It goes on with `summing` if that is a sum of the same message, and
/// otherwise begins anew.
///
/// # Errors
///
/// Returns [`AllocError`] if memory runs out.
pub fn sum_so_far(
    alloc: Global,
    summing: Option<Summing>,
    origin: Origin<'_>,
    encoding: &[u8],
) -> Result<Summing, AllocError>
    requires covers { IfSome summing (λ s. Covers s encoding.now) }
    ensures sum { IfOk result (λ s. IsSumOf s origin.entry.lock.secret.now (message_front origin.entry.place origin.entry.sender.now origin.entry.lock.name.now) encoding.now) }
{
    let Origin {
        lock,
        sender,
        place,
    } = origin;
    let front = front_of_message(alloc, place, sender, lock.name)?;
    let mut summing = begun_for(alloc, summing, lock.secret, front)?;
    summing.sum_rest(encoding);
    Ok(summing)
}

/// Returns `summing` if it belongs to a message with this front, under this secret, and otherwise one of which no encoding has
/// come.
fn begun_for(
    alloc: Global,
    summing: Option<Summing>,
    secret: &[u8],
    front: Vec<u8>,
) -> Result<Summing, AllocError>
    ensures secret { IfOk result (λ s. s.secret.items ≡ secret.now) }
    ensures front { IfOk result (λ s. s.front.items ≡ front.items) }
    ensures covers { (encoding : List ℕ) → IfSome summing (λ s. Covers s encoding) → IfOk result (λ s. Covers s encoding) }
{
    match summing {
        Some(summing) if summing.is_of(secret, &front) => Ok(summing),
        _ => Summing::begin(alloc, secret, front),
    }
}

/// Returns the correct sum of a frame's whole encoding of this origin. What `summing` covers of the encoding isn't summed
/// again.
///
/// # Errors
///
/// Returns [`AllocError`] if memory runs out.
#[tactic(auto, unfolding(crate::specs::Seals::seal_sum))]
pub fn whole_sum(
    alloc: Global,
    summing: Option<Summing>,
    origin: Origin<'_>,
    encoding: &[u8],
) -> Result<[u8; SUM], AllocError>
    requires covers { IfSome summing (λ s. Covers s encoding.now) }
    ensures sum { IfOk result (λ sum. sum ≡ seal_sum origin.entry.lock.secret.now origin.entry.place origin.entry.sender.now origin.entry.lock.name.now encoding.now) }
{
    if summing.is_none() {
        let Origin {
            lock,
            sender,
            place,
        } = origin;
        return Ok(sum_of(lock.secret, place, sender, lock.name, encoding));
    }
    let summing = sum_so_far(alloc, summing, origin, encoding)?;
    Ok(summing.mac.finalize())
}
