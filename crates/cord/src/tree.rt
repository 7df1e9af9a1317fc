// The tree of a text, as `{:#?}` shows it.
use crate::Text;
use cord_core::Node;
use std::fmt;

/// How many lines show a tree at most.
const MOST_LINES: u32 = 100;

impl Text {
    // Writes its length and then its nodes, each on a line of its own.
    pub(crate) fn write_tree<W: fmt::Write>(&self, f: &mut fmt::Formatter<W>) -> fmt::Result {
        write!(f, "Text({})", self.len())?;
        if let Some(root) = self.cord.root() {
            write_node(root.as_ref(), 1, MOST_LINES, f)?;
        }
        Ok(())
    }
}

// Writes a node and those below it as long as lines are left: how many are left then. The last one is two dots.
fn write_node<W: fmt::Write>(
    node: &Node,
    level: u32,
    lines: u32,
    f: &mut fmt::Formatter<W>,
) -> Result<u32, fmt::Error> {
    if lines == 0 {
        return Ok(0);
    }
    f.write_str("\n")?;
    for _ in 0..level {
        f.write_str("  ")?;
    }
    if lines == 1 {
        f.write_str("..")?;
        return Ok(0);
    }
    match node {
        Node::Leaf { len, .. } => write!(f, "leaf of {len}")?,
        Node::Run { byte, len } => write!(f, "run of {len}, byte {byte}")?,
        Node::Func { len, .. } => write!(f, "function part of {len}")?,
        Node::Cat {
            left,
            right,
            len,
            depth,
            ..
        } => {
            write!(f, "join of {len}, depth {depth}")?;
            let below = level.saturating_add(1);
            let rest = write_node(left.as_ref(), below, lines - 1, f)?;
            return write_node(right.as_ref(), below, rest, f);
        }
    }
    Ok(lines - 1)
}
