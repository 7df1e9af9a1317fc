//! Statements that plans keep as they are.
pub(crate) mod extensibles;
pub(crate) mod numbers;
pub(crate) mod searches;
