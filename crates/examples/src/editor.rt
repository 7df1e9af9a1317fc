//! An editor's buffer with unlimited undo, in which each version of the text is a `Text` of its own.
//!
//! `examples editor` reads commands from standard input, one a line, and answers on standard output:
//!
//! | command | does |
//! |---|---|
//! | `append LINE` | adds a line at the end |
//! | `insert PLACE TEXT` | puts TEXT in front of the byte at PLACE |
//! | `delete PLACE COUNT` | takes COUNT bytes out, from PLACE on |
//! | `replace OLD/NEW` | puts NEW in the place of the first OLD |
//! | `find TEXT` | tells the first place of TEXT |
//! | `print` | writes the text |
//! | `window PLACE` | writes the line of the byte at PLACE, and two lines above and below it, with their numbers |
//! | `undo`, `redo` | goes one version back, or on again |
//! | `quit` | ends the program |
//!
//! Places and counts are in bytes, and the first byte has place 0, as the first line has number 0. A command that can't
//! be done is refused by a line of output, and the text stays as it was. `rt try -- editor <stdin` runs the program
//! on the commands in the file `stdin`, unproved, and `rt run -- editor <stdin` proves it first.
//!
//! What it shows of the library:
//!
//! - An edit makes a new text of the old one, which stands. The two share all that the edit leaves alone, so a version
//!   costs a few nodes and its new bytes, however long the text is, and going back costs nothing.
//! - Out of memory is an answer like any other.
//! - Contracts speak of a `Text` as of the list of its bytes. `edited` ensures what each edit means, `undo` and `redo`
//!   that they lead to the version before and to the one after, and nothing here needed a line of proof.

mod buffer;
mod command;
mod edit;
mod refusal;
mod window;

use anyhow::Result;
use buffer::Buffer;
use command::Command;
use cord::{StdSink, Text};
use edit::{edited, first_place};
use refusal::Refusal;
use std::alloc::Global;
use std::io::ErrorKind;
use window::window_of;

/// Does what a command says, and answers the text that is to be written.
fn obey(alloc: Global, buffer: &mut Buffer, command: &Command<'_>) -> Result<Text, Refusal> {
    match command {
        Command::Edit(edit) => buffer.keep(edited(alloc, buffer.text(), edit)?)?,
        Command::Undo => buffer.undo()?,
        Command::Redo => buffer.redo()?,
        Command::Find(wanted) => return place_of(alloc, buffer.text(), wanted),
        Command::Window(place) => return Ok(window_of(alloc, buffer.text(), *place)?),
        Command::Print => return Ok(buffer.text().share(alloc)?),
    }
    Ok(Text::empty())
}

/// The first place of a text, on a line of its own.
fn place_of(alloc: Global, text: &Text, wanted: &str) -> Result<Text, Refusal> {
    let place = first_place(alloc, text, wanted)?;
    let line = format!(in alloc; "{place}\n")?;
    Ok(Text::from_str(alloc, line.as_str())?)
}

/// Obeys a line, and writes what comes of it.
fn take(rt: &HostRuntime, buffer: &mut Buffer, line: &str) -> Result<()> {
    let answer = match Command::parse(line) {
        Ok(command) => obey(rt.alloc(), buffer, &command),
        Err(refusal) => Err(refusal),
    };
    match answer {
        Ok(text) => text.put(&mut StdSink::new(rt.stdout()))?,
        Err(refusal) => println!(rt; "{line}: {refusal}")?,
    }
    Ok(())
}

/// Takes the lines of standard input, up to one that ends the program.
fn take_input(rt: &HostRuntime, buffer: &mut Buffer) -> Result<()> {
    for line in rt.lines(rt.alloc()) {
        match line {
            Ok(line) if line.as_str() == "quit" => break,
            Ok(line) => take(rt, buffer, line.as_str())?,
            Err(error) if error.kind() == ErrorKind::InvalidData => {
                println!(rt; "a line that isn't UTF-8")?;
            }
            Err(error) => return Err(error.into()),
        }
    }
    Ok(())
}

/// Takes the lines of standard input, with the empty text at first.
pub fn run(rt: &HostRuntime) -> Result<()> {
    let mut buffer = Buffer::new(rt.alloc())?;
    take_input(rt, &mut buffer)
}
