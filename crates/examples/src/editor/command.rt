//! The commands, one a line.
use super::edit::Edit;
use super::refusal::Refusal;

/// What a line of input asks for.
#[derive(Clone, Copy)]
pub enum Command<'a> {
    Edit(Edit<'a>),
    Find(&'a str),
    Window(u64),
    Print,
    Undo,
    Redo,
}

impl<'a> Command<'a> {
    /// Reads a line.
    pub fn parse(line: &'a str) -> Result<Command<'a>, Refusal> {
        let (name, rest) = line.split_once(' ').unwrap_or((line, ""));
        let command = match name {
            "find" => Command::Find(rest),
            "window" => Command::Window(number(rest)?),
            "print" => Command::Print,
            "undo" => Command::Undo,
            "redo" => Command::Redo,
            _ => Command::Edit(edit_of(name, rest)?),
        };
        Ok(command)
    }
}

/// Reads what follows the name of an edit.
fn edit_of<'a>(name: &str, rest: &'a str) -> Result<Edit<'a>, Refusal> {
    match name {
        "append" => Ok(Edit::Append(rest)),
        "insert" => insertion_of(rest),
        "delete" => deletion_of(rest),
        "replace" => replacement_of(rest),
        _ => Err(Refusal::NoSuchCommand),
    }
}

fn insertion_of(rest: &str) -> Result<Edit<'_>, Refusal> {
    let (place, text) = split_number(rest)?;
    Ok(Edit::Insert(place, text))
}

fn deletion_of(rest: &str) -> Result<Edit<'_>, Refusal> {
    let (place, count) = split_number(rest)?;
    Ok(Edit::Delete(place, number(count)?))
}

fn replacement_of(rest: &str) -> Result<Edit<'_>, Refusal> {
    let (old, new) = rest.split_once('/').ok_or(Refusal::NoSlash)?;
    Ok(Edit::Replace(old, new))
}

/// The number that a text begins with, and what follows the space after it.
fn split_number(text: &str) -> Result<(u64, &str), Refusal> {
    let (word, rest) = text.split_once(' ').unwrap_or((text, ""));
    Ok((number(word)?, rest))
}

fn number(word: &str) -> Result<u64, Refusal> {
    word.parse().map_err(|_| Refusal::NoNumber)
}
