// The words of a line that are still to be read, after what the lines before it leave.
ghost use Rattle.std.specs.Prelude.{◌≡◌, ◌≤◌, ◌<◌, true, None, map, option_map, length, Some, IfSome, All};
ghost use Rattle.cord_printf.specs.Format.{IsFormat};
ghost use Rattle.cord_script.specs.declared.words.Word.TheVariants.{Plain};
ghost use Rattle.cord_script.specs.declared.kinds.Want.{Want};
ghost use Rattle.cord_script.specs.declared.TheConstants.{MAX_NAMES};
ghost use Rattle.cord_script.specs.Words.{IsBlank};
ghost use Rattle.cord_script.specs.Tests.{is_name};
ghost use Rattle.cord_script.specs.Formats.{wants_of_pieces};
ghost use Rattle.cord_script.specs.Forms.{argument_term, argument_want};
ghost use Rattle.cord_script.specs.Forms.Term.{Target, Operand, Value, FilePath, Formats};
ghost use Rattle.cord_script.specs.Script.{kind_of};
ghost use Rattle.cord_script.specs.inner.LineReading.{scope_of, IsFresh, PassesWord, GivesTerm, GivesAll};

use crate::context::{Context, is_among};
use crate::fields::{begins_numeral, path_of};
use crate::formats::wants_of_pieces;
use crate::kinds::{Kind, Want};
use crate::numerals::numeral_of;
use crate::table::{Known, NewName};
use crate::words::{Word, blanks, next_word, plain_word};
use crate::{
    Argument, Arguments, MAX_PARTS, MAX_PATHS, MIN_PARTS, Name, Names, Number, Path, Shared, Text,
};
use cord_printf::Format;
use std::alloc::Global;
use std::marker::Model;

/// The words of a line that are still to be read, after what the lines before it leave, and what those that were read
/// add to it. What isn't read is none: something is wrong with the line, or memory was refused for its statement.
#[derive(Drop)]
pub struct LineWords<'a> {
    alloc: Global,
    context: &'a Context,
    rest: &'a [u8],
    new_name: Option<NewName>,
    new_path: Option<Path>,
}

impl<'a> Model for LineWords<'a> {
    ghost use Rattle.std.specs.Prelude.{option_map};
    ghost use Rattle.cord_script.specs.inner.LineReading.{scope_of, LineView};

    ghost Value = { LineView };

    ghost view = { λ w. record {
      scope = scope_of w.context.now;
      rest = w.rest.now;
      name = option_map (λ n. n.known) w.new_name;
      path = w.new_path;
    } };
}

impl<'a> LineWords<'a> {
    /// The words of the rest of a line.
    pub fn of(alloc: Global, context: &'a Context, rest: &'a [u8]) -> LineWords<'a>
        ensures { result ≡ record { scope = scope_of context.now; rest = rest.now; name = None; path = None } }
    {
        LineWords {
            alloc,
            context,
            rest,
            new_name: None,
            new_path: None,
        }
    }

    /// What the words that were read add to what the lines before leave.
    pub fn into_added(self) -> (Option<NewName>, Option<Path>)
        ensures name { option_map (λ n. n.known) result.0 ≡ self.entry.name }
        ensures path { result.1 ≡ self.entry.path }
    {
        (self.new_name, self.new_path)
    }

    /// Whether no word is left.
    pub fn is_done(&self) -> bool
        ensures { result ≡ true → All IsBlank self.now.rest }
    {
        blanks(self.rest) == self.rest.len()
    }

    /// The bytes of the next word, which is a plain one and is read.
    #[inline(always)]
    pub fn plain(&mut self) -> Option<&'a [u8]>
        ensures { IfSome result (λ word. PassesWord self.old (Plain word.now) self.new) }
    {
        let (word, rest) = plain_word(self.rest)?;
        self.rest = rest;
        Some(word)
    }

    // The name that a word is, which the line assigns first, as of this kind.
    #[cold]
    #[inline(never)]
    fn new_target(&mut self, word: &[u8], kind: Kind) -> Option<Name>
        requires { IsFresh self.old }
        ensures name { IfSome result (λ name. name ≡ word.now) }
        ensures is_name { IfSome result (λ name. is_name name ≡ true) }
        ensures new { IfSome result (λ name. kind_of self.old.scope.names name ≡ None) }
        ensures room { IfSome result (λ _. length self.old.scope.names < MAX_NAMES) }
        ensures added { IfSome result (λ name. self.new ≡ record {
          scope = self.old.scope;
          rest = self.old.rest;
          name = Some (record { name = name; kind = kind });
          path = None;
        }) }
    {
        let name = self.context.names.new_name(self.alloc, word)?;
        self.new_name = Some(NewName {
            known: Known {
                name: name.clone().ok()?,
                kind,
            },
        });
        Some(name)
    }

    /// The target, of this kind.
    #[inline(always)]
    pub fn target(&mut self, kind: Kind) -> Option<Name>
        requires { IsFresh self.old }
        ensures gave { IfSome result (λ name. GivesTerm self.old (Target kind name) self.new) }
        ensures path { IfSome result (λ _. self.new.path ≡ None) }
    {
        let word = self.plain()?;
        match self.context.names.known_name(word, kind) {
            Some(name) => Some(name),
            None => self.new_target(word, kind),
        }
    }

    /// A name that is used, of this kind.
    #[inline(always)]
    pub fn operand(&mut self, kind: Kind) -> Option<Name>
        ensures { IfSome result (λ name. GivesTerm self.old (Operand kind name) self.new) }
    {
        let word = self.plain()?;
        self.context.names.known_name(word, kind)
    }

    /// A number operand.
    #[inline(always)]
    pub fn number(&mut self) -> Option<Number>
        ensures { IfSome result (λ number. GivesTerm self.old (Value number) self.new) }
    {
        let word = self.plain()?;
        if begins_numeral(word) {
            return Some(Number::Numeral(numeral_of(word)?));
        }
        Some(Number::Named(self.context.names.known_name(word, Kind::Number)?))
    }

    /// A number operand, on the heap.
    pub fn shared_number(&mut self) -> Option<Shared<Number>>
        ensures { IfSome result (λ number. GivesTerm self.old (Value number) self.new) }
    {
        let number = self.number()?;
        Shared::new(self.alloc, number).ok()
    }

    /// A quoted word.
    pub fn quoted(&mut self) -> Option<Text>
        ensures { IfSome result (λ text. PassesWord self.old (Word.Quoted text) self.new) }
    {
        let Ok(Some((word, rest))) = next_word(self.alloc, self.rest) else {
            return None;
        };
        let Word::Quoted(text) = word else {
            return None;
        };
        self.rest = rest;
        Some(text)
    }

    /// A path.
    pub fn path(&mut self) -> Option<Path>
        requires { self.old.path ≡ None }
        ensures { IfSome result (λ path. GivesTerm self.old (FilePath path) self.new) }
    {
        let path = path_of(self.quoted()?)?;
        if is_among(&self.context.paths, path.as_str().as_bytes()) {
            return Some(path);
        }
        if self.context.paths.len() >= MAX_PATHS {
            return None;
        }
        self.new_path = Some(path.clone().ok()?);
        Some(path)
    }

    /// The text of a format, and what it is read as, on the heap.
    pub fn format(&mut self) -> Option<(Shared<Text>, Shared<Format>)>
        ensures gave { IfSome result (λ r. GivesTerm self.old (Formats r.0) self.new) }
        ensures format { IfSome result (λ r. IsFormat r.0 r.1) }
    {
        let text = self.quoted()?;
        let format = Format::parse(self.alloc, text.as_slice()).ok()?;
        let format = Shared::new(self.alloc, format).ok()?;
        Some((Shared::new(self.alloc, text).ok()?, format))
    }

    /// The cords that the words that are left name, as many as a `catn` may have.
    pub fn cords(&mut self) -> Option<Names>
        ensures gave { IfSome result (λ names. GivesAll self.old (map (Operand Kind.Cord) names) self.new) }
        ensures low { IfSome result (λ names. MIN_PARTS ≤ length names) }
        ensures high { IfSome result (λ names. length names ≤ MAX_PARTS) }
    {
        let mut names = Vec::new(self.alloc);
        'cords: while !self.is_done() {
            if names.len() == MAX_PARTS {
                return None;
            }
            let name = self.operand(Kind::Cord)?;
            names.push(name).ok()?;
        }
        if names.len() < MIN_PARTS {
            return None;
        }
        Some(Names::of(names))
    }

    // An argument of a format, which is this.
    fn argument(&mut self, want: Want) -> Option<Argument>
        ensures gave { IfSome result (λ argument. GivesTerm self.old (argument_term argument) self.new) }
        ensures want { IfSome result (λ argument. argument_want argument ≡ want) }
    {
        match want {
            Want::Number => Some(Argument::Number(self.number()?)),
            Want::Operand(Kind::Cord) => Some(Argument::Cord(self.operand(Kind::Cord)?)),
            _ => None,
        }
    }

    // Arguments, one for each want.
    fn wanted(&mut self, wants: &[Want]) -> Option<Arguments>
        ensures gave { IfSome result (λ arguments. GivesAll self.old (map argument_term arguments) self.new) }
        ensures wants { IfSome result (λ arguments. map argument_want arguments ≡ wants.now) }
    {
        let mut arguments = Vec::new(self.alloc);
        for want in wants {
            let argument = self.argument(*want)?;
            arguments.push(argument).ok()?;
        }
        Some(Arguments::of(arguments))
    }

    /// The arguments of a format, on the heap.
    pub fn arguments(&mut self, format: &Format) -> Option<Shared<Arguments>>
        ensures gave { IfSome result (λ arguments. GivesAll self.old (map argument_term arguments) self.new) }
        ensures wants { IfSome result (λ arguments. map argument_want arguments ≡ wants_of_pieces format.now) }
    {
        let wants = wants_of_pieces(self.alloc, format.pieces()).ok()?;
        let arguments = self.wanted(&wants)?;
        Shared::new(self.alloc, arguments).ok()
    }
}
