//! Append buffers: texts that grow under their names.
mod actions;
pub(crate) mod growth;
mod window;
