// What the lines before a line leave, and what a line adds to it.
ghost use Rattle.std.specs.Prelude.{◌≡◌, option_map, OnOk};
ghost use Rattle.cord_script.specs.Script.{start, is_among, with_path};
ghost use Rattle.cord_script.specs.inner.LineReading.{scope_of, left_after};
ghost use Rattle.cord_script.specs.inner.Verbal.{verb_effect};

use crate::Path;
use crate::blocks::{Open, set_blocks};
use crate::table::{NewName, Table};
use crate::verbs::Verb;
use std::alloc::{AllocError, Global};
use std::collections::VecDeque;

/// What the lines before a line leave.
#[derive(Drop)]
pub struct Context {
    /// The names with their kinds, in the order of their first assignment.
    pub names: Table,
    /// The distinct paths.
    pub paths: Vec<Path>,
    /// The open blocks, the innermost first.
    pub blocks: VecDeque<Open>,
}

/// Whether a path stands among these.
pub fn is_among(paths: &[Path], path: &[u8]) -> bool
    ensures { result ≡ is_among paths.now path.now }
{
    for known in paths {
        if known.as_str().as_bytes() == path {
            return true;
        }
    }
    false
}

// Adds a path that is new.
fn add_path(paths: &mut Vec<Path>, path: Path) -> Result<(), AllocError>
    ensures paths { OnOk result (paths.new.items ≡ with_path paths.old.items path) }
{
    if is_among(paths, path.as_str().as_bytes()) {
        return Ok(());
    }
    paths.push(path)?;
    Ok(())
}

impl Context {
    /// What stands before the first line.
    pub fn nothing(alloc: Global) -> Self
        ensures { scope_of result ≡ start }
    {
        Context {
            names: Table::nothing(alloc),
            paths: Vec::new(alloc),
            blocks: VecDeque::new(alloc),
        }
    }

    /// Adds what a statement of the verb leaves at a line, with the name and the path that its words add.
    #[inline(always)]
    pub fn leave(
        &mut self,
        verb: Verb,
        line: u32,
        name: Option<NewName>,
        path: Option<Path>,
    ) -> Result<(), AllocError>
        ensures left { OnOk result (scope_of self.new
            ≡ left_after (verb_effect verb) line (option_map (λ n. n.known) name) path (scope_of self.old)) }
    {
        if let Some(new) = name {
            self.names.assign(new.known)?;
        }
        if let Some(path) = path {
            add_path(&mut self.paths, path)?;
        }
        set_blocks(verb, line, &mut self.blocks)
    }
}
