//! HMAC-SHA256 (RFC 2104 over FIPS 180-4).

ghost use Rattle.std.specs.Prelude.{◌≡◌, ◌-◌, ◌≤◌, ◌++◌, ◌↔◌, [], ℕ, List, IsTrue, length, replicate};
ghost use Rattle.am_peer_auth.specs.Macs.{Holds, hmac, key_block, marked};

use sha2::{Digest, Sha256};

/// The number of bytes in a block of SHA-256.
const BLOCK: usize = 64;

/// The number of bytes in a sum.
pub const SUM: usize = 32;

/// The mark of the inner hash (RFC 2104, section 2).
const INNER: u8 = 0x36;

/// The mark of the outer hash (RFC 2104, section 2).
const OUTER: u8 = 0x5c;

/// Returns bytes of at most a block, padded with zeros.
fn padded(bytes: &[u8]) -> [u8; BLOCK]
    requires { length bytes.now ≤ 64 }
    ensures { result ≡ bytes.now ++ replicate (64 - length bytes.now) 0 }
{
    let mut block = [0u8; BLOCK];
    block[..bytes.len()].copy_from_slice(bytes);
    block
}

/// Returns the block of a key.
#[tactic(auto, unfolding(crate::specs::Macs::key_block))]
fn key_block(key: &[u8]) -> [u8; BLOCK]
    ensures { result ≡ key_block key.now }
{
    if key.len() > BLOCK {
        padded(&Sha256::digest(key))
    } else {
        padded(key)
    }
}

/// Returns a block with each byte XORed with a mark.
fn marked(mark: u8, block: &[u8; BLOCK]) -> [u8; BLOCK]
    ensures { result ≡ marked mark block.now }
{
    let mut out = [0u8; BLOCK];
    'bytes: for place in 0..BLOCK {
        out[place] = block[place] ^ mark;
    }
    out
}

/// A sum, under a key, of a message that comes in parts.
#[derive(Drop)]
pub struct Mac {
    /// The inner hash so far.
    hasher: Sha256,
    /// The key's block, marked for the outer hash.
    outer: [u8; BLOCK],
}

impl Mac {
    /// Starts the sum of an empty message under a key of any length.
    pub fn new(key: &[u8]) -> Mac
        ensures { Holds result key.now [] }
    {
        let block = key_block(key);
        let mut hasher = Sha256::new();
        hasher.update(&marked(INNER, &block));
        Mac {
            hasher,
            outer: marked(OUTER, &block),
        }
    }

    /// Appends a part to the message.
    pub fn update(&mut self, part: &[u8])
        ensures { (key message : List ℕ) → Holds self.old key message → Holds self.new key (message ++ part.now) }
    {
        self.hasher.update(part);
    }

    /// Returns the sum of the message (RFC 2104, section 2).
    #[tactic(auto, unfolding(crate::specs::Macs::hmac))]
    pub fn finalize(self) -> [u8; SUM]
        ensures { (key message : List ℕ) → Holds self key message → result ≡ hmac key message }
    {
        let Mac { hasher, outer } = self;
        let inner = hasher.finalize();
        let mut hasher = Sha256::new();
        hasher.update(&outer);
        hasher.update(&inner);
        hasher.finalize()
    }
}

/// Returns the sum of a message under a key of any length.
pub fn hmac_sha256(key: &[u8], message: &[u8]) -> [u8; SUM]
    // PROMISE: The sum is HMAC-SHA256 of RFC 2104.
    ensures { result ≡ hmac key.now message.now }
{
    let mut mac = Mac::new(key);
    mac.update(message);
    mac.finalize()
}

/// Returns whether two sums are equal. All bytes are compared, wherever the first difference is.
pub fn are_same(sum: &[u8; SUM], other: &[u8; SUM]) -> bool
    ensures { IsTrue result ↔ (sum.now ≡ other.now) }
{
    let mut same = true;
    'bytes: for place in 0..SUM {
        same &= sum[place] == other[place];
    }
    same
}
