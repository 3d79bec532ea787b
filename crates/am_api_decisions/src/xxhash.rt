//! XXH64 with seed 0, step by step as in the xxHash specification ("XXH64 algorithm description").

ghost use Rattle.std.specs.Prelude.{◌≡◌, ◌+◌, ◌/◌, ◌<◌, ◌≤◌, length};
ghost use Rattle.am_api_decisions.specs.Xxh64.{add_byte, add_half, add_lane, add_lanes, add_stripe, avalanche, begun, behind_whole, consumed};
ghost use Rattle.am_api_decisions.specs.Xxh64.{converged, lane_at, merge, round, stripes, xor_shift, xxh64};

const PRIME_1: u64 = 0x9E37_79B1_85EB_CA87;

const PRIME_2: u64 = 0xC2B2_AE3D_27D4_EB4F;

const PRIME_3: u64 = 0x1656_67B1_9E37_79F9;

const PRIME_4: u64 = 0x85EB_CA77_C2B2_AE63;

const PRIME_5: u64 = 0x27D4_EB2F_1656_67C5;

const FIRST_ACCUMULATORS: [u64; 4] = [
    u64::wrapping_add(PRIME_1, PRIME_2),
    PRIME_2,
    0,
    u64::wrapping_sub(0, PRIME_1),
];

/// Returns the eight bytes at a place as a number, low byte first.
#[tactic(auto, unfolding(crate::specs::Xxh64::lane_at))]
fn lane_at(bytes: &[u8], place: usize) -> u64
    requires { place + 8 ≤ length bytes.now }
    ensures { result ≡ lane_at bytes.now place }
{
    u64::from_le_bytes([
        bytes[place],
        bytes[place + 1],
        bytes[place + 2],
        bytes[place + 3],
        bytes[place + 4],
        bytes[place + 5],
        bytes[place + 6],
        bytes[place + 7],
    ])
}

/// Returns an accumulator that has taken in a lane.
#[tactic(auto, unfolding(crate::specs::Xxh64::round))]
fn round(accumulator: u64, lane: u64) -> u64
    ensures { result ≡ round accumulator lane }
{
    accumulator
        .wrapping_add(lane.wrapping_mul(PRIME_2))
        .rotate_left(31)
        .wrapping_mul(PRIME_1)
}

/// Takes in the stripe at a place, a lane for each accumulator.
#[tactic(auto, unfolding(crate::specs::Xxh64::add_stripe))]
fn add_stripe(accumulators: &mut [u64; 4], bytes: &[u8], place: usize)
    requires { place + 32 ≤ length bytes.now }
    ensures { accumulators.new ≡ add_stripe accumulators.old bytes.now place }
{
    let [first, second, third, fourth] = *accumulators;
    *accumulators = [
        round(first, lane_at(bytes, place)),
        round(second, lane_at(bytes, place + 8)),
        round(third, lane_at(bytes, place + 16)),
        round(fourth, lane_at(bytes, place + 24)),
    ];
}

/// Returns the accumulators after all whole stripes.
fn stripes(bytes: &[u8]) -> [u64; 4]
    ensures { result ≡ stripes bytes.now (length bytes.now / 32) }
{
    let mut accumulators = FIRST_ACCUMULATORS;
    for number in 0..bytes.len() / 32 {
        add_stripe(&mut accumulators, bytes, 32 * number);
    }
    accumulators
}

/// Returns a hash that has taken in an accumulator.
#[tactic(auto, unfolding(crate::specs::Xxh64::merge))]
fn merge(hash: u64, accumulator: u64) -> u64
    ensures { result ≡ merge hash accumulator }
{
    (hash ^ round(0, accumulator))
        .wrapping_mul(PRIME_1)
        .wrapping_add(PRIME_4)
}

/// Returns the hash that the accumulators make.
#[tactic(auto, unfolding(crate::specs::Xxh64::converged))]
fn converged(accumulators: [u64; 4]) -> u64
    ensures { result ≡ converged accumulators }
{
    let [first, second, third, fourth] = accumulators;
    let sum = first
        .rotate_left(1)
        .wrapping_add(second.rotate_left(7))
        .wrapping_add(third.rotate_left(12))
        .wrapping_add(fourth.rotate_left(18));
    merge(merge(merge(merge(sum, first), second), third), fourth)
}

/// Returns the hash after the stripes, if there are any.
#[tactic(auto, unfolding(crate::specs::Xxh64::begun))]
fn begun(bytes: &[u8]) -> u64
    ensures { result ≡ begun bytes.now }
{
    if bytes.len() < 32 {
        return PRIME_5;
    }
    converged(stripes(bytes))
}

/// Returns the bytes behind all whole pieces of a size.
fn behind_whole(bytes: &[u8], size: usize) -> &[u8]
    requires { 0 < size }
    ensures { result.now ≡ behind_whole size bytes.now }
{
    let (_, rest) = bytes.split_at(bytes.len() / size * size);
    rest
}

/// Returns a hash that has taken in a lane.
#[tactic(auto, unfolding(crate::specs::Xxh64::add_lane))]
fn add_lane(hash: u64, lane: u64) -> u64
    ensures { result ≡ add_lane hash lane }
{
    (hash ^ round(0, lane))
        .rotate_left(27)
        .wrapping_mul(PRIME_1)
        .wrapping_add(PRIME_4)
}

/// Returns a hash that has taken in all whole lanes.
fn add_lanes(start: u64, bytes: &[u8]) -> u64
    ensures { result ≡ add_lanes start bytes.now (length bytes.now / 8) }
{
    let mut hash = start;
    for number in 0..bytes.len() / 8 {
        hash = add_lane(hash, lane_at(bytes, 8 * number));
    }
    hash
}

/// Returns a hash that has taken in the first four bytes, if there are four.
#[tactic(auto, unfolding(crate::specs::Xxh64::add_half))]
fn add_half(hash: u64, bytes: &[u8]) -> u64
    ensures { result ≡ add_half hash bytes.now }
{
    if bytes.len() < 4 {
        return hash;
    }
    let half = u32::from_le_bytes([bytes[0], bytes[1], bytes[2], bytes[3]]);
    (hash ^ u64::from(half).wrapping_mul(PRIME_1))
        .rotate_left(23)
        .wrapping_mul(PRIME_2)
        .wrapping_add(PRIME_3)
}

/// Returns a hash that has taken in a byte.
#[tactic(auto, unfolding(crate::specs::Xxh64::add_byte))]
fn add_byte(hash: u64, byte: u8) -> u64
    ensures { result ≡ add_byte hash byte }
{
    (hash ^ u64::from(byte).wrapping_mul(PRIME_5))
        .rotate_left(11)
        .wrapping_mul(PRIME_1)
}

/// Returns a hash that has taken in fewer than 32 bytes: lanes, then half a lane, then bytes.
#[tactic(auto, unfolding(crate::specs::Xxh64::consumed))]
fn consumed(hash: u64, rest: &[u8]) -> u64
    ensures { result ≡ consumed hash rest.now }
{
    let fewer = behind_whole(rest, 8);
    let hash = add_half(add_lanes(hash, rest), fewer);
    behind_whole(fewer, 4)
        .iter()
        .fold(hash, |hash, byte| add_byte(hash, *byte))
}

/// Returns a hash whose higher bits are combined into the lower ones.
fn xor_shift(hash: u64, by: u32) -> u64
    requires { by < 64 }
    ensures { result ≡ xor_shift hash by }
{
    hash ^ (hash >> by)
}

/// Returns a hash with its bits mixed.
#[tactic(auto, unfolding(crate::specs::Xxh64::avalanche))]
fn avalanche(hash: u64) -> u64
    ensures { result ≡ avalanche hash }
{
    let hash = xor_shift(hash, 33).wrapping_mul(PRIME_2);
    let hash = xor_shift(hash, 29).wrapping_mul(PRIME_3);
    xor_shift(hash, 32)
}

/// Returns the XXH64 of bytes, with seed 0. It takes time linear in their number, and no memory.
#[tactic(auto, unfolding(crate::specs::Xxh64::xxh64))]
pub fn xxh64(bytes: &[u8]) -> u64
    ensures { result ≡ xxh64 bytes.now }
{
    let hash = begun(bytes).wrapping_add(bytes.len() as u64);
    avalanche(consumed(hash, behind_whole(bytes, 32)))
}
