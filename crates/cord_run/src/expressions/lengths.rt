// The lengths of expressions, by the lengths of their names.
ghost use Rattle.std.specs.Prelude.{◌≡◌, ◌≤◌, ◌+◌, Err, IfErr, IfOk, IfSome, Ok};
ghost use Rattle.cord_meaning.specs.State as meant;
ghost use Rattle.cord_plan.specs.Values.{measured_copies, measured_part};
ghost use Rattle.cord_run.specs.inner.{expr_view, members_view, length_in, counted, extent_in, members_extent};
ghost use Rattle.cord_run.specs.inner.{members_seen};

use crate::checks::{as_byte, as_index, as_length};
use crate::expressions::parts::{pair_of, range_parts};
use crate::store::Store;
use cord_io::MAX_LEN;
use cord_meaning::FaultKind;
use cord_plan::{Expr, Members};
use cord_script::Name;
use std::rc::Rc;

/// The same as `length_of`, which costs less where the expression is one part, or two.
#[inline(always)]
pub(crate) fn measured(expression: &Expr, store: &Store) -> Result<u64, FaultKind>
    ensures { result ≡ extent_in store.now.entries.items (expr_view expression.now) }
{
    match length_of_few(expression, store) {
        Some(length) => length,
        None => length_of(expression, store),
    }
}

// The length of one part or of two, or their fault.
#[inline(always)]
fn length_of_few(expression: &Expr, store: &Store) -> Option<Result<u64, FaultKind>>
    ensures { IfSome result (λ length. length ≡ extent_in store.now.entries.items (expr_view expression.now)) }
{
    match expression {
        Expr::Cat(members) => {
            let (first, last) = pair_of(members)?;
            let first = length_of_part(first, store)?;
            let last = length_of_part(last, store)?;
            Some(length_together(first, last))
        }
        _ => length_of_part(expression, store),
    }
}

// A length and another one, or the first fault.
#[inline(always)]
fn length_together(
    first: Result<u64, FaultKind>,
    last: Result<u64, FaultKind>,
) -> Result<u64, FaultKind>
    ensures { result ≡ meant.and_then first (λ n. meant.and_then last (λ m. meant.as_length MAX_LEN (n + m))) }
{
    let first = first?;
    let last = last?;
    as_length(first.saturating_add(last))
}

// The length of one part.
#[inline(always)]
fn length_of_part(expression: &Expr, store: &Store) -> Option<Result<u64, FaultKind>>
    ensures { IfSome result (λ length. length ≡ extent_in store.now.entries.items (expr_view expression.now)) }
{
    match expression {
        Expr::Name(name) => Some(Ok(store.length_of(name))),
        Expr::Run { byte, count } => Some(length_of_run(
            store.value_of(byte),
            store.value_of(count),
        )),
        _ => {
            let (name, start, count) = range_parts(expression)?;
            let len = store.length_of(name);
            Some(length_of_range(len, store.value_of(start), store.value_of(count)))
        }
    }
}

/// The length of an expression, or its fault. No byte is read.
#[cycle(length_of)]
pub(crate) fn length_of(expression: &Expr, store: &Store) -> Result<u64, FaultKind>
    ensures { result ≡ extent_in store.now.entries.items (expr_view expression.now) }
{
    match expression {
        Expr::Name(name) => Ok(store.length_of(name)),
        Expr::Run { byte, count } => length_of_run(store.value_of(byte), store.value_of(count)),
        Expr::Cat(members) => {
            let total = length_of_members(members, store)?;
            as_length(total)
        }
        Expr::Sub {
            expression,
            start,
            count,
        } => {
            let len = length_of(expression.as_ref(), store)?;
            length_of_range(len, store.value_of(start), store.value_of(count))
        }
    }
}

// The length of members together, as far as a number goes, or their first fault.
#[cycle(length_of)]
fn length_of_members(members: &Members, store: &Store) -> Result<u64, FaultKind>
    ensures { result ≡ counted 0 (members_extent store.now.entries.items (members_view members.now)) }
{
    let (prefix, rest) = members.halves();
    match prefix {
        None => length_after(0, rest, store),
        Some(prefix) => {
            let total = length_of_members(prefix, store)?;
            length_after(total, rest, store)
        }
    }
}

// A length, and that of all these expressions after it.
#[cycle(length_of)]
fn length_after(before: u64, members: &[Rc<Expr>], store: &Store) -> Result<u64, FaultKind>
    ensures { result ≡ counted before (members_extent store.now.entries.items (members_seen members.now)) }
{
    let mut total = before;
    let mut last = None;
    for member in members {
        let expression = member.as_ref();
        match expression {
            Expr::Name(name) => {
                let known = with_length(last, name, store);
                total = total.saturating_add(known.len);
                last = Some(known);
            }
            _ => {
                let len = length_of(expression, store)?;
                total = total.saturating_add(len);
            }
        }
    }
    Ok(total)
}

// A name, and the length known of it.
#[derive(Clone, Copy)]
struct Named<'a> {
    name: &'a Name,
    len: u64,
}

// A name with its length, which isn't looked for where the last name was the same one.
#[inline(always)]
fn with_length<'a>(last: Option<Named<'a>>, name: &'a Name, store: &Store) -> Named<'a>
    requires { IfSome last (λ known. known.len ≡ length_in store.now.entries.items known.name.now) }
    ensures len { result.len ≡ length_in store.now.entries.items name.now }
    ensures known { result.len ≡ length_in store.now.entries.items result.name.now }
{
    match last {
        Some(last) if last.name.is(name) => last,
        _ => Named {
            name,
            len: store.length_of(name),
        },
    }
}

/// So many copies of a byte.
#[derive(Clone, Copy)]
pub(crate) struct Copies {
    pub(crate) byte: u8,
    pub(crate) count: u64,
}

/// The copies of a byte that two numbers ask for, or their fault.
pub(crate) fn copies_asked(byte: i64, count: i64) -> Result<Copies, FaultKind>
    ensures byte { IfOk result (λ copies. meant.as_byte byte ≡ Ok copies.byte) }
    ensures count { IfOk result (λ copies. measured_copies MAX_LEN byte count ≡ Ok copies.count) }
    ensures short { IfOk result (λ copies. copies.count ≤ MAX_LEN) }
    ensures refused { IfErr result (λ kind. measured_copies MAX_LEN byte count ≡ Err kind) }
{
    let byte = as_byte(byte)?;
    let count = as_index(count)?;
    let count = as_length(count)?;
    Ok(Copies { byte, count })
}

// How many there are, or their fault.
fn length_of_run(byte: i64, count: i64) -> Result<u64, FaultKind>
    ensures { result ≡ measured_copies MAX_LEN byte count }
{
    let copies = copies_asked(byte, count)?;
    Ok(copies.count)
}

/// The length of at most so many bytes from a place on, of what has this length.
#[inline(always)]
pub(crate) fn length_of_range(len: u64, start: i64, count: i64) -> Result<u64, FaultKind>
    ensures { result ≡ measured_part MAX_LEN len start count }
{
    let start = as_index(start)?;
    let count = as_index(count)?;
    as_length(count.min(len.saturating_sub(start)))
}
