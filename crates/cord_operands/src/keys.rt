// Keys of names: numbers that tell short names apart.
ghost use Rattle.std.specs.Prelude.{◌≡◌, ◌*◌, ◌+◌, ◌%◌, ◌^◌, ◌<◌, length};
ghost use Rattle.std.specs.Str.{bytes_eq};
ghost use Rattle.cord_operands.specs.Keys.{exact_from, hash_from, key_of, slot_at};

/// Keys from this one on are hashes, of names of eight bytes and more. A smaller one is of one name alone.
const FIRST_HASH: u64 = 1 << 63;

/// What spreads keys over slots: the odd number next to 2^64 over the golden ratio.
const SPREAD: u64 = 0x9E37_79B9_7F4A_7C15;

// The number whose digits are the bytes of a name of at most seven bytes.
#[inline(always)]
fn digits_of(name: &[u8]) -> u64
    requires { length name.now < 8 }
    ensures digits { result ≡ exact_from 0 name.now }
    ensures within { result < 2 ^ 56 }
{
    let mut digits: u64 = 0;
    for byte in name {
        digits = digits * 256 + *byte as u64;
    }
    digits
}

// The hash of a name of any length.
fn hash_of(name: &[u8]) -> u64
    ensures hash { result ≡ hash_from 0 name.now }
    ensures within { result < 2 ^ 56 }
{
    let mut hash: u64 = 0;
    for byte in name {
        hash = (hash * 31 + *byte as u64) % (1 << 56);
    }
    hash
}

/// The key of a name of these bytes. Names of at most seven bytes, as most are, have keys of their own. O(length).
#[inline(always)]
pub fn key_of(name: &[u8]) -> u64
    ensures { result ≡ key_of name.now }
{
    if name.len() < 8 {
        digits_of(name) * 8 + name.len() as u64
    } else {
        FIRST_HASH + hash_of(name)
    }
}

/// The slot of a key, of 4,096, where a table guesses the place of its name.
#[inline(always)]
pub fn bucket_of(key: u64) -> usize
    ensures slot { result ≡ slot_at key }
    ensures within { result < 4096 }
{
    (key.wrapping_mul(SPREAD) >> 52) as usize
}

// Whether two names have the same bytes, where their keys are one hash.
#[cold]
#[inline(never)]
fn have_same_bytes(left: &[u8], right: &[u8]) -> bool
    ensures { result ≡ bytes_eq left.now right.now }
{
    left == right
}

/// Whether names of these bytes are one, by their keys. The bytes of short names aren't looked at.
#[inline(always)]
#[tactic(auto, using(crate::proofs::DistinctKeys::is_distinct, crate::proofs::DistinctKeys::other_key))]
pub(crate) fn is_one(left: &[u8], left_key: u64, right: &[u8], right_key: u64) -> bool
    requires left { left_key ≡ key_of left.now }
    requires right { right_key ≡ key_of right.now }
    ensures { result ≡ bytes_eq left.now right.now }
{
    left_key == right_key && (right_key < FIRST_HASH || have_same_bytes(left, right))
}
