// What the lines of a script read and assign, which line may come after which, and which names are read later.
mod liveness;
mod name_sets;
mod numbering;
mod readings;
mod recent;
mod straight_line;
mod successors;

pub(crate) use self::liveness::Later;
pub(crate) use self::numbering::{LineNumbers, Numbering, number_at};
pub(crate) use self::readings::{assigns, operands_of};
pub(crate) use self::recent::{Recent, entry_at, is_before, unless_after};
pub(crate) use self::successors::{Shape, is_block, jump, shape_of};
