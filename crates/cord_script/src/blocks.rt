// The open blocks.
ghost use Rattle.std.specs.Prelude.{◌≡◌, ◌∷◌, [], map, OnOk, MatchOption};
ghost use Rattle.cord_script.specs.Script.{blocks_after, turned};
ghost use Rattle.cord_script.specs.FirstErrors.{block_error};
ghost use Rattle.cord_script.specs.inner.LineReading.{block_of, IsInnermostOpen};
ghost use Rattle.cord_script.specs.inner.Verbal.{verb_effect};

use crate::verbs::{Control, FixedVerb, Verb};
use crate::{MAX_BLOCKS, Refusal, RefusalKind};
use std::alloc::AllocError;
use std::collections::VecDeque;

/// An open block, with the line of its `repeat` or `if`.
#[derive(Clone, Copy)]
pub enum Open {
    Repeat(u32),
    If(u32),
    /// An `if` that had its `else`.
    Else(u32),
}

/// What is wrong with a statement after these open blocks.
pub fn block_error(verb: Verb, blocks: &VecDeque<Open>) -> Option<RefusalKind>
    ensures { result ≡ block_error (verb_effect verb) (map block_of blocks.now.items) }
{
    let Verb::Fixed(FixedVerb::Control(control)) = verb else {
        return None;
    };
    match control {
        Control::Repeat | Control::If if blocks.len() >= MAX_BLOCKS => Some(RefusalKind::TooDeep),
        Control::Repeat | Control::If => None,
        Control::Else => match blocks.front() {
            Some(Open::If(_)) => None,
            _ => Some(RefusalKind::ElseAlone),
        },
        Control::End if blocks.is_empty() => Some(RefusalKind::EndAlone),
        Control::End => None,
    }
}

// Opens a block inside the others.
fn add_block(blocks: &mut VecDeque<Open>, block: Open) -> Result<(), AllocError>
    ensures blocks { OnOk result (map block_of blocks.new.items ≡ block_of block ∷ map block_of blocks.old.items) }
{
    blocks.push_front(block)?;
    Ok(())
}

// Turns the innermost `if` to its `else`.
fn turn(blocks: &mut VecDeque<Open>) -> Result<(), AllocError>
    ensures blocks { OnOk result (map block_of blocks.new.items ≡ turned (map block_of blocks.old.items)) }
{
    match blocks.pop_front() {
        None => Ok(()),
        Some(Open::If(line)) => add_block(blocks, Open::Else(line)),
        Some(block) => add_block(blocks, block),
    }
}

/// The open blocks after a statement at a line.
pub fn set_blocks(verb: Verb, line: u32, blocks: &mut VecDeque<Open>) -> Result<(), AllocError>
    ensures blocks { OnOk result (map block_of blocks.new.items
        ≡ blocks_after (verb_effect verb) line (map block_of blocks.old.items)) }
{
    let Verb::Fixed(FixedVerb::Control(control)) = verb else {
        return Ok(());
    };
    match control {
        Control::Repeat => add_block(blocks, Open::Repeat(line)),
        Control::If => add_block(blocks, Open::If(line)),
        Control::Else => turn(blocks),
        Control::End => {
            let _ = blocks.pop_front();
            Ok(())
        }
    }
}

/// What is wrong at the end of a script after these open blocks.
pub fn open_error(blocks: &VecDeque<Open>) -> Option<Refusal>
    ensures { MatchOption result (map block_of blocks.now.items ≡ [])
        (λ r. IsInnermostOpen (map block_of blocks.now.items) r.line r.kind) }
{
    match blocks.front() {
        None => None,
        Some(Open::Repeat(line)) => Some(Refusal {
            line: *line,
            kind: RefusalKind::MissingEnd,
        }),
        Some(Open::If(line) | Open::Else(line)) => Some(Refusal {
            line: *line,
            kind: RefusalKind::MissingIfEnd,
        }),
    }
}
