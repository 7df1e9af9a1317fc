// Fragments of a plan's text, and how a sink gets them.
ghost use Rattle.std.specs.Prelude.{◌≡◌, ◌<◌, flat_map, map};
ghost use Rattle.cord_iter.specs.Output.{Writes};
ghost use Rattle.cord_plan.specs.PlanText.{argument, printed_arguments, decimal, hex, number, path_byte, quoted, spaced};
ghost use Rattle.cord_plan.specs.inner.Views.{fragment_text, fragments_text};

use cord_io::{Sink, WriteFault};
use cord_iter::put_all;
use cord_script::{Argument, Arguments, Name, Number, Path};
use itoa::Buffer;

/// A fragment of a line of a plan's text.
#[derive(Clone, Copy)]
pub enum Fragment<'a> {
    /// These bytes.
    Plain(&'a [u8]),
    /// A name.
    Name(&'a Name),
    /// A count, in decimal form.
    Count(u64),
    /// A number operand.
    Number(&'a Number),
    /// A path, quoted.
    Path(&'a Path),
    /// The arguments of a format, each after a blank.
    Arguments(&'a Arguments),
}

// Hands a sink fragments, one after the other.
pub(crate) fn put_fragments<W: Sink>(fragments: &[Fragment], sink: &mut W) -> Result<(), WriteFault>
    ensures { Writes ⟦<W as Sink>⟧ (fragments_text fragments.now) sink.old sink.new result }
{
    for fragment in fragments {
        put_fragment(fragment, sink)?;
    }
    Ok(())
}

// Hands a sink fragments, separated by one blank.
pub(crate) fn put_words<W: Sink>(words: &[Fragment], sink: &mut W) -> Result<(), WriteFault>
    ensures { Writes ⟦<W as Sink>⟧ (spaced (map fragment_text words.now)) sink.old sink.new result }
{
    let mut blank: &[u8] = b"";
    for word in words {
        put_all(blank, sink)?;
        put_fragment(word, sink)?;
        blank = b" ";
    }
    Ok(())
}

fn put_fragment<W: Sink>(fragment: &Fragment, sink: &mut W) -> Result<(), WriteFault>
    ensures { Writes ⟦<W as Sink>⟧ (fragment_text fragment.now) sink.old sink.new result }
{
    match fragment {
        Fragment::Plain(bytes) => put_all(bytes, sink),
        Fragment::Name(name) => put_all(name.as_slice(), sink),
        Fragment::Count(count) => put_count(*count, sink),
        Fragment::Number(number) => put_number(number, sink),
        Fragment::Path(path) => put_path(path, sink),
        Fragment::Arguments(arguments) => put_arguments(arguments.as_slice(), sink),
    }
}

// A count in shortest decimal form.
fn put_count<W: Sink>(count: u64, sink: &mut W) -> Result<(), WriteFault>
    ensures { Writes ⟦<W as Sink>⟧ (decimal count) sink.old sink.new result }
{
    let mut digits = Buffer::new();
    put_all(digits.format(count).as_bytes(), sink)
}

// A number operand: its name, or its shortest decimal form.
fn put_number<W: Sink>(operand: &Number, sink: &mut W) -> Result<(), WriteFault>
    ensures { Writes ⟦<W as Sink>⟧ (number operand.now) sink.old sink.new result }
{
    match operand {
        Number::Numeral(numeral) => {
            let mut digits = Buffer::new();
            put_all(digits.format(*numeral).as_bytes(), sink)
        }
        Number::Named(name) => put_all(name.as_slice(), sink),
    }
}

// A path between quotes.
fn put_path<W: Sink>(path: &Path, sink: &mut W) -> Result<(), WriteFault>
    ensures { Writes ⟦<W as Sink>⟧ (quoted path.now) sink.old sink.new result }
{
    put_all(b"\"", sink)?;
    put_path_bytes(path.as_str().as_bytes(), sink)?;
    put_all(b"\"", sink)
}

// The bytes of a path, those that would be misread as escapes.
fn put_path_bytes<W: Sink>(bytes: &[u8], sink: &mut W) -> Result<(), WriteFault>
    ensures { Writes ⟦<W as Sink>⟧ (flat_map (λ b. path_byte b) bytes.now) sink.old sink.new result }
{
    for byte in bytes {
        put_path_byte(*byte, sink)?;
    }
    Ok(())
}

fn put_path_byte<W: Sink>(byte: u8, sink: &mut W) -> Result<(), WriteFault>
    ensures { Writes ⟦<W as Sink>⟧ (path_byte byte) sink.old sink.new result }
{
    if byte == b'"' || byte == b'\\' || byte < 32 || byte > 126 {
        put_all(
            &[b'\\', b'x', hex_digit(byte / 16), hex_digit(byte % 16)],
            sink,
        )
    } else {
        put_all(&[byte], sink)
    }
}

// A small hexadecimal digit.
fn hex_digit(digit: u8) -> u8
    requires { digit < 16 }
    ensures { result ≡ hex digit }
{
    if digit < 10 {
        b'0' + digit
    } else {
        b'a' + (digit - 10)
    }
}

// The arguments of a format, each after a blank.
fn put_arguments<W: Sink>(arguments: &[Argument], sink: &mut W) -> Result<(), WriteFault>
    ensures { Writes ⟦<W as Sink>⟧ (printed_arguments arguments.now) sink.old sink.new result }
{
    for argument in arguments {
        put_all(b" ", sink)?;
        put_argument(argument, sink)?;
    }
    Ok(())
}

fn put_argument<W: Sink>(operand: &Argument, sink: &mut W) -> Result<(), WriteFault>
    ensures { Writes ⟦<W as Sink>⟧ (argument operand.now) sink.old sink.new result }
{
    match operand {
        Argument::Number(number) => put_number(number, sink),
        Argument::Cord(name) => put_all(name.as_slice(), sink),
    }
}
