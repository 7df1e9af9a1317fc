// What is wanted of an expression, as cords: one for each name and each run that has some of it. What is wanted is
// handed on from member to member, so each length is asked for once. A `sub` hands on less, and makes no cord of what
// it is cut from.
ghost use Rattle.std.specs.Prelude.{◌≡◌, ◌+◌, ◌-◌, ◌<◌, ◌≤◌, ◌^◌, ℤ, min, replicate, true, IfOk, Ok};
ghost use Rattle.cord_meaning.specs.State as meant;
ghost use Rattle.cord_run.specs.inner.{text_len, measured_copies, expr_view, members_view, IsCordOfText};
ghost use Rattle.cord_run.specs.inner.{members_seen, content_in, cord_in, length_in, operand_in};
ghost use Rattle.cord_run.specs.inner.{Adds, AddsCopies, AddsExpression, AddsMembers, AddsCordRange, AddsRun, IsPast};

use crate::checks::as_index;
use crate::expressions::lengths::copies_asked;
use crate::store::Store;
use cord_core::Cord;
use cord_io::MAX_LEN;
use cord_plan::{Expr, Members};
use cord_script::{Name, Number};
use std::alloc::{AllocError, Global};
use std::rc::Rc;

/// So many copies of a byte are a leaf: a join makes one leaf of two that are no longer together.
const FEW: u64 = 64;

/// What is wanted of bytes that are still to come: so many are passed over, and at most so many after them are taken.
#[derive(Clone, Copy)]
pub(crate) struct Wanted {
    pub(crate) skip: u64,
    pub(crate) count: u64,
}

impl Wanted {
    // Whether nothing is.
    fn is_nothing(self) -> bool
        ensures { result ≡ true → (self.skip ≡ 0) × (self.count ≡ 0) }
    {
        self.skip == 0 && self.count == 0
    }

    // How many of so many bytes are taken.
    fn of(self, len: u64) -> u64
        ensures { result ≡ min self.count (len - self.skip) }
    {
        self.count.min(len.saturating_sub(self.skip))
    }

    // What is wanted after so many bytes.
    fn after(self, len: u64) -> Wanted
        ensures { IsPast len self result }
    {
        Wanted {
            skip: self.skip.saturating_sub(len),
            count: self.count.saturating_sub(len.saturating_sub(self.skip)),
        }
    }

    // What is wanted of a text, where this is wanted of at most so many bytes of it from a place on.
    fn inside(self, start: u64, most: u64) -> Wanted
        requires { start + most < 2 ^ 64 }
        ensures { result ≡ record {
          skip = start + min self.skip most;
          count = min self.count (most - self.skip);
        } }
    {
        Wanted {
            skip: start + self.skip.min(most),
            count: self.count.min(most.saturating_sub(self.skip)),
        }
    }

    // What is wanted after those bytes, where the rest is wanted after the text.
    fn outside(self, most: u64, inner: Wanted, rest: Wanted) -> Wanted
        ensures { result ≡ record {
          skip = self.skip - (min self.skip most - rest.skip);
          count = self.count - (inner.count - rest.count);
        } }
    {
        let passed = self.skip.min(most).saturating_sub(rest.skip);
        let taken = inner.count.saturating_sub(rest.count);
        Wanted {
            skip: self.skip.saturating_sub(passed),
            count: self.count.saturating_sub(taken),
        }
    }
}

/// Adds cords of what is wanted of an expression, and answers what is wanted after it.
#[cycle(add_range)]
pub(crate) fn add_range(
    alloc: Global,
    expression: &Expr,
    store: &Store,
    wanted: Wanted,
    pieces: &mut Vec<Cord>,
) -> Result<Wanted, AllocError>
    ensures { IfOk result (λ after. AddsExpression store.now.entries.items (expr_view expression.now) wanted after
        pieces.old.items pieces.new.items) }
{
    match expression {
        Expr::Name(name) => add_name(alloc, name, store, wanted, pieces),
        Expr::Run { byte, count } => add_run(alloc, byte, count, store, wanted, pieces),
        Expr::Cat(members) => add_members(alloc, members, store, wanted, pieces),
        Expr::Sub {
            expression,
            start,
            count,
        } => {
            let most = index_of(count, store);
            let inner = wanted.inside(index_of(start, store), most);
            let rest = add_range(alloc, expression.as_ref(), store, inner, pieces)?;
            Ok(wanted.outside(most, inner, rest))
        }
    }
}

// The same of members, joined.
#[cycle(add_range)]
fn add_members(
    alloc: Global,
    members: &Members,
    store: &Store,
    wanted: Wanted,
    pieces: &mut Vec<Cord>,
) -> Result<Wanted, AllocError>
    ensures { IfOk result (λ after. AddsMembers store.now.entries.items (members_view members.now) wanted after
        pieces.old.items pieces.new.items) }
{
    let (prefix, rest) = members.halves();
    match prefix {
        None => add_all(alloc, rest, store, wanted, pieces),
        Some(prefix) => {
            let left = add_members(alloc, prefix, store, wanted, pieces)?;
            add_all(alloc, rest, store, left, pieces)
        }
    }
}

// The same of all these expressions, joined.
#[cycle(add_range)]
fn add_all(
    alloc: Global,
    members: &[Rc<Expr>],
    store: &Store,
    wanted: Wanted,
    pieces: &mut Vec<Cord>,
) -> Result<Wanted, AllocError>
    ensures { IfOk result (λ after. AddsMembers store.now.entries.items (members_seen members.now) wanted after
        pieces.old.items pieces.new.items) }
{
    let mut left = wanted;
    for member in members {
        if left.is_nothing() {
            return Ok(left);
        }
        let expression = member.as_ref();
        left = add_range(alloc, expression, store, left, pieces)?;
    }
    Ok(left)
}

// A number operand as an index; 0 where it is none.
fn index_of(operand: &Number, store: &Store) -> u64
    ensures is { IfOk (meant.as_index (operand_in store.now.entries.items operand.now)) (λ i. result ≡ i) }
    ensures small { result < 2 ^ 63 }
{
    match as_index(store.value_of(operand)) {
        Ok(index) => index,
        Err(_) => 0,
    }
}

// Adds what is wanted of the cord of a name.
fn add_name(
    alloc: Global,
    name: &Name,
    store: &Store,
    wanted: Wanted,
    pieces: &mut Vec<Cord>,
) -> Result<Wanted, AllocError>
    ensures { IfOk result (λ after. Adds
        (AddsCordRange (cord_in (content_in store.now.entries.items name.now)) wanted pieces.old.items pieces.new.items)
        (Ok (length_in store.now.entries.items name.now)) wanted after pieces.old.items pieces.new.items) }
{
    match store.cord_of(name) {
        None => Ok(wanted.after(store.length_of(name))),
        Some(cord) => add_cord_range(alloc, cord, wanted, pieces),
    }
}

// Adds what is wanted of a cord.
fn add_cord_range(
    alloc: Global,
    cord: &Cord,
    wanted: Wanted,
    pieces: &mut Vec<Cord>,
) -> Result<Wanted, AllocError>
    ensures { IfOk result (λ after. Adds (AddsCordRange cord.now wanted pieces.old.items pieces.new.items)
        (Ok (text_len cord.now)) wanted after pieces.old.items pieces.new.items) }
{
    let len = cord.len();
    let after = wanted.after(len);
    if wanted.of(len) == 0 {
        return Ok(after);
    }
    let Ok(range) = cord.substr(alloc, wanted.skip, wanted.count) else {
        return Err(AllocError);
    };
    pieces.push(range)?;
    Ok(after)
}

// Adds what is wanted of copies of a byte.
fn add_run(
    alloc: Global,
    byte: &Number,
    count: &Number,
    store: &Store,
    wanted: Wanted,
    pieces: &mut Vec<Cord>,
) -> Result<Wanted, AllocError>
    ensures { IfOk result (λ after. Adds (AddsRun (operand_in store.now.entries.items byte.now)
        (operand_in store.now.entries.items count.now) wanted pieces.old.items pieces.new.items)
        (measured_copies MAX_LEN (operand_in store.now.entries.items byte.now)
        (operand_in store.now.entries.items count.now)) wanted after pieces.old.items pieces.new.items) }
{
    let copies = match copies_asked(store.value_of(byte), store.value_of(count)) {
        Ok(copies) => copies,
        Err(_) => return Ok(wanted),
    };
    let after = wanted.after(copies.count);
    let taken = wanted.of(copies.count);
    if taken == 0 {
        return Ok(after);
    }
    add_copies(alloc, copies.byte, taken, pieces)?;
    Ok(after)
}

// Adds copies of a byte.
fn add_copies(alloc: Global, byte: u8, count: u64, pieces: &mut Vec<Cord>) -> Result<(), AllocError>
    requires short { count ≤ MAX_LEN }
    ensures { IfOk result (λ _. (asked : ℤ) → meant.as_byte asked ≡ Ok byte →
        AddsCopies asked count pieces.old.items pieces.new.items) }
{
    let copies = copies_of(alloc, byte, count)?;
    pieces.push(copies)?;
    Ok(())
}

/// So many copies of a byte: one leaf of a few, which joins a short leaf beside it, and one run of more.
pub(crate) fn copies_of(alloc: Global, byte: u8, count: u64) -> Result<Cord, AllocError>
    requires short { count ≤ MAX_LEN }
    ensures made { IfOk result (IsCordOfText (replicate count byte)) }
    ensures len { IfOk result (λ cord. text_len cord ≡ count) }
{
    if count > FEW {
        return Cord::chars(alloc, byte, count).map_err(|_| AllocError);
    }
    let few = [byte; FEW as usize];
    match Cord::from_bytes(alloc, &few[..count as usize]) {
        Ok(cord) => Ok(cord),
        Err(_) => Err(AllocError),
    }
}
