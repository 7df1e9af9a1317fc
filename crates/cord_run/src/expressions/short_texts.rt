// Expressions of short texts side by side, whose text is gathered without memory.
ghost use Rattle.std.specs.Prelude.{◌≡◌, ◌≤◌, [], length, true};
ghost use Rattle.cord_run.specs.inner.{Exprs, append, expr_view, members_view, members_seen, AreTextsIn, IsTextIn};

use crate::expressions::slices::slice_of;
use crate::store::Store;
use arrayvec::ArrayVec;
use cord_plan::{Expr, Members};
use std::rc::Rc;

/// So many bytes are gathered at most.
pub(crate) const MOST_GATHERED: usize = 256;

/// Gathers the text of expressions side by side, where each is one leaf or a range of one, and they are short together.
/// Answers whether it did.
pub(crate) fn gather(
    expression: &Expr,
    store: &Store,
    text: &mut ArrayVec<u8, MOST_GATHERED>,
) -> bool
    requires { text.old.items ≡ [] }
    ensures { result ≡ true → IsTextIn store.now.entries.items (expr_view expression.now) text.new.items }
{
    match expression {
        Expr::Cat(members) => gather_members(members, store, text),
        _ => false,
    }
}

// The same of members, joined.
fn gather_members(members: &Members, store: &Store, text: &mut ArrayVec<u8, MOST_GATHERED>) -> bool
    requires { text.old.items ≡ [] }
    ensures { result ≡ true → AreTextsIn store.now.entries.items (members_view members.now) text.new.items ×
        (length text.new.items ≤ MOST_GATHERED) }
{
    let (prefix, rest) = members.halves();
    match prefix {
        None => gather_all(rest, store, text),
        Some(prefix) => gather_members(prefix, store, text) && gather_all(rest, store, text),
    }
}

// Gathers the text of all these expressions after what was gathered.
fn gather_all(members: &[Rc<Expr>], store: &Store, text: &mut ArrayVec<u8, MOST_GATHERED>) -> bool
    requires { length text.old.items ≤ MOST_GATHERED }
    ensures { result ≡ true →
        ((earlier : Exprs) → AreTextsIn store.now.entries.items earlier text.old.items →
        AreTextsIn store.now.entries.items (append earlier (members_seen members.now)) text.new.items) ×
        (length text.new.items ≤ MOST_GATHERED) }
{
    for member in members {
        let Some(slice) = slice_of(member.as_ref(), store) else {
            return false;
        };
        match text.try_extend_from_slice(slice) {
            Ok(()) => {}
            Err(_) => return false,
        }
    }
    true
}
