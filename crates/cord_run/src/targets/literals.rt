// Cords of literals and of functions.
ghost use Rattle.std.specs.Prelude.{◌≡◌, ◌<◌, ◌≤◌, ℕ, Err, IfErr, IfOk, Ok, length};
ghost use Rattle.cord_run.specs.inner.{IsRefusal, IsStopBy, IsStartOf, IsCordOfText, function_source};
ghost use Rattle.cord_run.specs.inner.{start_extent};

use crate::checks::{as_index, as_length};
use crate::stops::Stop;
use cord_core::Cord;
use cord_ec::ExtCord;
use cord_io::{CordError, MAX_LEN, SourceId};
use cord_meaning::FaultKind;
use cord_script::Function;
use std::alloc::{AllocError, Global};

/// A literal text of at most so many bytes is one leaf; of a longer one each leaf has so many.
const LEAF: usize = 4_096;

/// The cord of a literal text. `TooLong` where it is longer than `MAX_LEN`.
pub(crate) fn literal(alloc: Global, text: &[u8]) -> Result<Cord, CordError>
    ensures made { IfOk result (IsCordOfText text.now) }
    ensures too_long { result ≡ Err CordError.TooLong → MAX_LEN < length text.now }
    ensures refused { IfErr result IsRefusal }
{
    if text.len() <= LEAF {
        return Cord::from_bytes(alloc, text);
    }
    gathered(alloc, text)
}

// The same of a longer one, whose leaves an extensible cord gathers.
#[cold]
#[inline(never)]
fn gathered(alloc: Global, text: &[u8]) -> Result<Cord, CordError>
    ensures made { IfOk result (IsCordOfText text.now) }
    ensures too_long { result ≡ Err CordError.TooLong → MAX_LEN < length text.now }
    ensures refused { IfErr result IsRefusal }
{
    let mut gathered = ExtCord::new(alloc)?;
    gathered.append_bytes(alloc, text)?;
    let cord = gathered.to_cord(alloc)?;
    Ok(cord)
}

/// The cord of as many first bytes of a function as a number asks for. Refused with its fault, or with `NoMemory`.
pub(crate) fn start(alloc: Global, function: Function, count: i64) -> Result<Cord, Stop>
    ensures made { IfOk result (λ cord. (n : ℕ) × (start_extent count ≡ Ok n) × IsStartOf function n cord) }
    ensures refused { IfErr result (IsStopBy (λ kind. start_extent count ≡ Err kind)) }
{
    match start_length(count) {
        Err(kind) => Err(Stop::Fault(kind)),
        Ok(len) => Ok(start_of(alloc, function, len)?),
    }
}

// The cord of so many first bytes of a function.
fn start_of(alloc: Global, function: Function, count: u64) -> Result<Cord, AllocError>
    requires { count ≤ MAX_LEN }
    ensures made { IfOk result (IsStartOf function count) }
{
    match Cord::from_fn(alloc, source_of(function), 0, count) {
        Ok(cord) => Ok(cord),
        Err(_) => Err(AllocError),
    }
}

// The source of a function.
fn source_of(function: Function) -> SourceId
    ensures { result.0 ≡ function_source function }
{
    match function {
        Function::Digits => SourceId(0),
        Function::Bytes => SourceId(1),
    }
}

/// How many bytes of a function a number asks for, or its fault.
pub(crate) fn start_length(count: i64) -> Result<u64, FaultKind>
    ensures { result ≡ start_extent count }
{
    as_length(as_index(count)?)
}
