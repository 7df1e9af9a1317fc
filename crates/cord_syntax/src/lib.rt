//! The statements of a script.
#![tactic(auto)]

mod copies;
mod families;
mod readings;
mod statements;

pub use cord_operands::{
    Argument, Arguments, Function, Name, Names, Number, Path, Relation, Shared, Text,
};
pub use families::{
    Composition, Computation, Control, Derivation, Family, Growth, Look, Origin, Search,
};
pub use readings::{Operands, Reading};
pub use statements::{Script, Statement};
