// Cords put one after another.
ghost use Rattle.std.specs.Prelude.{◌<◌, IfOk, length};
ghost use Rattle.cord_core.specs.Equations.{IsAllOf};
ghost use Rattle.cord_run.specs.inner.{all_parts, parts_of, IsCord, PartsFrom, ArePreceding, IsJoinOfFirst};

use crate::expressions::slices::leaf_slice;
use arrayvec::ArrayVec;
use cord_core::Cord;
use cord_io::CordError;
use cord_node::SMALL_LEN;
use std::alloc::Global;

// The first of some cords, as one cord.
#[derive(Drop)]
struct Prefix {
    count: usize,
    cord: Cord,
}

// Short leaves beside one another: how many they are, and their bytes.
#[derive(Drop)]
struct ShortLeaves {
    count: usize,
    bytes: ArrayVec<u8, SMALL_LEN>,
}

/// The texts of all these cords in order. Leaves beside one another become one where they have at most `SMALL_LEN`
/// bytes together: so the rope gets deeper by that one alone. Refused with `TooLong` or `NoMemory`.
pub(crate) fn join_all(alloc: Global, cords: &[Cord]) -> Result<Cord, CordError>
    ensures over { IfOk result (IsAllOf cords.now) }
    ensures sound { IfOk result IsCord }
    ensures parts { IfOk result (λ c. PartsFrom (all_parts cords.now) (parts_of c)) }
{
    let mut all = Cord::empty();
    let mut place = 0;
    while place < cords.len() {
        let prefix = prefix_of(alloc, &cords[place..])?;
        all = Cord::cat(alloc, &all, &prefix.cord)?;
        place += prefix.count;
    }
    Ok(all)
}

// The first cord, or one leaf of the first ones.
fn prefix_of(alloc: Global, cords: &[Cord]) -> Result<Prefix, CordError>
    requires { 0 < length cords.now }
    ensures { IfOk result (λ prefix. IsJoinOfFirst cords.now prefix.count prefix.cord) }
{
    let short = short_leaves(cords);
    if short.count > 1 {
        let cord = Cord::from_bytes(alloc, &short.bytes)?;
        return Ok(Prefix {
            count: short.count,
            cord,
        });
    }
    let cord = cords[0].share(alloc)?;
    Ok(Prefix { count: 1, cord })
}

// The first of these cords, as far as they are leaves of at most `SMALL_LEN` bytes together.
fn short_leaves(cords: &[Cord]) -> ShortLeaves
    ensures { ArePreceding cords.now result.count result.bytes.items }
{
    let mut count = 0;
    let mut bytes = ArrayVec::new();
    for cord in cords {
        let slice = match leaf_slice(cord) {
            Some(slice) => slice,
            None => return ShortLeaves { count, bytes },
        };
        match bytes.try_extend_from_slice(slice) {
            Ok(()) => {}
            Err(_) => return ShortLeaves { count, bytes },
        }
        count += 1;
    }
    ShortLeaves { count, bytes }
}
