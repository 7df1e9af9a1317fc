// Expressions whose text is one slice of memory: a name whose cord is one leaf, or a range of one.
ghost use Rattle.std.specs.Prelude.{◌≡◌, ◌<◌, IfSome, Ok, length, map};
ghost use Rattle.cord_run.specs.inner.{parts_of, text, text_len, known, part_of, expr_view, content_in, cord_in};
ghost use Rattle.cord_run.specs.inner.{IsSliceOf, IsTextIn};

use crate::checks::{as_index, as_length};
use crate::expressions::parts::range_parts;
use crate::store::Store;
use cord_core::Cord;
use cord_io::MAX_LEN;
use cord_node::Node;
use cord_plan::Expr;
use cord_script::Name;

/// The text of an expression, where it is one leaf or a range of one. None for a fault, which whoever builds the
/// expression meets.
#[inline(always)]
pub(crate) fn slice_of<'a>(expression: &Expr, store: &'a Store) -> Option<&'a [u8]>
    ensures { IfSome result (λ slice. IsTextIn store.now.entries.items (expr_view expression.now) slice.now) }
{
    match expression {
        Expr::Name(name) => named_slice(name, store),
        _ => {
            let (name, start, count) = range_parts(expression)?;
            let whole = named_slice(name, store)?;
            range_of(whole, store.value_of(start), store.value_of(count))
        }
    }
}

// The text of a name, where its cord is one leaf.
#[inline(always)]
fn named_slice<'a>(name: &Name, store: &'a Store) -> Option<&'a [u8]>
    ensures { IfSome result (λ slice. IsSliceOf (cord_in (content_in store.now.entries.items name.now)) slice.now) }
{
    leaf_slice(store.cord_of(name)?)
}

/// The text of a cord, where it is one leaf.
#[inline(always)]
pub(crate) fn leaf_slice(cord: &Cord) -> Option<&[u8]>
    ensures is { IfSome result (λ slice. IsSliceOf cord.now slice.now) }
    ensures text { IfSome result (λ slice. text cord.now ≡ map known slice.now) }
    ensures len { IfSome result (λ slice. text_len cord.now ≡ length slice.now) }
    ensures part { IfSome result (λ _. 0 < length (parts_of cord.now)) }
{
    let Some(root) = cord.root() else {
        return None;
    };
    match root.as_ref() {
        Node::Leaf {
            bytes,
            start,
            len,
            ..
        } => Some(&bytes.as_slice()[*start as usize..(*start + *len) as usize]),
        _ => None,
    }
}

/// At most so many bytes from a place on. None where a number is no index.
pub(crate) fn range_of(bytes: &[u8], start: i64, count: i64) -> Option<&[u8]>
    ensures { IfSome result (λ range. part_of MAX_LEN bytes.now start count ≡ Ok range.now) }
{
    let (Ok(start), Ok(count)) = (as_index(start), as_index(count)) else {
        return None;
    };
    let rest = &bytes[start.min(bytes.len() as u64) as usize..];
    let range = &rest[..count.min(rest.len() as u64) as usize];
    as_length(range.len() as u64).ok()?;
    Some(range)
}
