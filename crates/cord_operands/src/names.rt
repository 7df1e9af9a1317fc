// Names, texts and paths, as they stand in statements.
ghost use Rattle.std.specs.Prelude.{◌≡◌, List, ℕ, Some, false, All, IfOk, IfSome, IfNone, slice_get};
ghost use Rattle.std.specs.Str.{bytes_eq};
ghost use Rattle.std.specs.String.{string_bytes};
ghost use Rattle.cord_operands.specs.Keys.{key_of};

use crate::Sequence;
use crate::keys::{is_one, key_of};
use std::alloc::{AllocError, Global};
use std::marker::Model;
use std::rc::Rc;

/// The bytes of a name, with their key, and where it may stand in a list of names: no more than a hint.
#[derive(Drop)]
struct Spelling {
    bytes: Vec<u8>,
    key: u64,
    hint: u8,
    ghost keyed: { key ≡ key_of bytes.items },
}

/// A name, as its bytes: 1 to 32 ASCII letters, digits and `_`, not beginning with a digit. Copies share the bytes.
#[derive(Clone, Drop)]
pub struct Name {
    spelling: Rc<Spelling>,
}

impl Model for Name {
    ghost Value = { List ℕ };

    ghost view = { λ n. n.spelling.value.bytes.items };
}

impl Name {
    /// The name of these bytes, with a hint of its place in lists of names. A wrong hint costs a search, and no more.
    pub fn of(alloc: Global, bytes: &[u8], hint: u8) -> Result<Self, AllocError>
        ensures { IfOk result (λ name. name ≡ bytes.now) }
    {
        let spelling = Spelling {
            bytes: Vec::from_slice(alloc, bytes)?,
            key: key_of(bytes),
            hint,
        };
        Ok(Name {
            spelling: Rc::new(alloc, spelling)?,
        })
    }

    /// The bytes of the name.
    #[inline(always)]
    pub fn as_slice(&self) -> &[u8]
        ensures { result.now ≡ self.now }
    {
        self.spelling.as_ref().bytes.as_slice()
    }

    /// The place where the name may stand in a list of names: whoever looks there checks that it does.
    #[inline(always)]
    pub fn hint(&self) -> usize {
        usize::from(self.spelling.as_ref().hint)
    }

    /// The key of the name, which was found when the name was made.
    #[inline(always)]
    pub fn key(&self) -> u64
        ensures { result ≡ key_of self.now }
    {
        self.spelling.as_ref().key
    }

    /// Whether the name is spelled by bytes that have this key. The bytes of short names aren't looked at.
    #[inline(always)]
    pub fn is_spelled(&self, key: u64, bytes: &[u8]) -> bool
        requires { key ≡ key_of bytes.now }
        ensures { result ≡ bytes_eq self.now bytes.now }
    {
        is_one(self.as_slice(), self.key(), bytes, key)
    }

    /// Whether the two are one name. The bytes of short names aren't looked at.
    #[inline(always)]
    pub fn is(&self, other: &Name) -> bool
        ensures { result ≡ bytes_eq self.now other.now }
    {
        is_one(self.as_slice(), self.key(), other.as_slice(), other.key())
    }

    /// A place of the name in a list of names, its hint's where it stands there. O(1) there, else O(names).
    #[inline(always)]
    pub fn place_in(&self, names: &[Name]) -> Option<usize>
        ensures some { IfSome result (λ place. slice_get names.now place ≡ Some self.now) }
        ensures none { IfNone result (All (λ other. bytes_eq self.now other ≡ false) names.now) }
    {
        let hint = self.hint();
        match names.get(hint) {
            Some(known) if self.is(known) => Some(hint),
            _ => self.searched_in(names),
        }
    }

    // The same, where the hint misleads.
    #[cold]
    #[inline(never)]
    fn searched_in(&self, names: &[Name]) -> Option<usize>
        ensures some { IfSome result (λ place. slice_get names.now place ≡ Some self.now) }
        ensures none { IfNone result (All (λ other. bytes_eq self.now other ≡ false) names.now) }
    {
        for (place, known) in names.iter().enumerate() {
            if self.is(known) {
                return Some(place);
            }
        }
        None
    }
}

/// A list of names, in the order of the line.
pub type Names = Sequence<Name>;

/// The bytes that a quoted word stands for, its escapes resolved.
pub type Text = Sequence<u8>;

/// The path of a file: 1 to 4,095 bytes of UTF-8, none of them 0.
#[derive(Clone, Drop)]
pub struct Path {
    path: String,
}

impl Model for Path {
    ghost Value = { List ℕ };

    ghost view = { λ p. string_bytes p.path };
}

impl Path {
    /// The path of this text, without taking memory.
    pub fn of(text: String) -> Self
        ensures { result ≡ string_bytes text }
    {
        Path { path: text }
    }

    /// The text of the path.
    pub fn as_str(&self) -> &str
        ensures { result.now ≡ self.now }
    {
        self.path.as_str()
    }

    /// Gives the text back, without taking memory.
    pub fn into_string(self) -> String
        ensures { string_bytes result ≡ self }
    {
        let Path { path } = self;
        path
    }
}
