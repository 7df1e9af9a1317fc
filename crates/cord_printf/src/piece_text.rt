// What a piece shows.
ghost use Rattle.std.specs.Prelude.{◌≡◌, ◌≤◌, ◌-◌, ◌^◌, min, ◌&&◌, not, is_none, if◌then◌else◌, [], ◌∷◌, map, take};
ghost use Rattle.std.specs.Prelude.{None, length, option_map, option_to_list, IfOk, IfErr, Some};
ghost use Rattle.cord_printf.specs.PieceText.{PieceArgument, piece_text, refusal, sign_of, number_text, digits_in};
ghost use Rattle.cord_printf.specs.PieceText.{padded, cut};
ghost use Rattle.cord_printf.specs.Own.{taken_text};
ghost use Rattle.cord_printf.specs.inner.Own.{parts_if};
ghost use Rattle.cord_printf.specs.Printing.{argument_of};
ghost use Rattle.cord_printf.specs.inner.PieceLayouts.{body_parts, body_taken, body_text, shown_text};
ghost use Rattle.cord_printf.specs.inner.PieceLayouts.{IsNumberLayout};
ghost use Rattle.cord_node.specs.PartsFrom.{PartsFrom};
ghost use Rattle.cord_node.specs.Tree.{Cell, known};
ghost use Rattle.cord_core.specs.Cord.{text, parts_of};

use crate::digits::Digits;
use crate::{Arg, Flags, Piece, PrintError, Radix};
use cord_core::Cord;

/// What stands round a body: blanks, a sign and zeros in front, blanks after.
#[derive(Clone, Copy)]
pub struct Layout {
    pub before: u32,
    pub sign: Option<u8>,
    pub zeros: u32,
    pub after: u32,
}

/// The bytes that a piece shows of its own or of its argument.
#[derive(Drop)]
pub enum Body<'a> {
    Bytes(&'a [u8]),
    Byte(u8),
    Digits(Digits),
    /// The first bytes of a cord, as many as the number says.
    Start(&'a Cord, u64),
}

/// What a piece shows.
#[derive(Drop)]
pub struct Shown<'a> {
    pub layout: Layout,
    pub body: Body<'a>,
}

impl Layout {
    // Blanks up to the width for a body of this length.
    #[inline(always)]
    fn padding(left: bool, width: u16, len: u64) -> Layout
        ensures before { result.before ≡ (if left then 0 else width - len) }
        ensures after { result.after ≡ (if left then width - len else 0) }
        ensures bare { (result.sign ≡ None) × (result.zeros ≡ 0) }
    {
        let blanks = u64::from(width).saturating_sub(len) as u32;
        let (before, after) = if left { (0, blanks) } else { (blanks, 0) };
        Layout {
            before,
            sign: None,
            zeros: 0,
            after,
        }
    }

    // The layout of a number with so many digits of its own.
    #[inline(always)]
    fn number(
        flags: Flags,
        width: u16,
        precision: Option<u16>,
        sign: Option<u8>,
        digits: u8,
    ) -> Layout
        ensures { IsNumberLayout flags width precision sign digits result }
    {
        let zeros = u32::from(precision.unwrap_or(1)).saturating_sub(u32::from(digits));
        let len = sign_len(sign) + zeros + u32::from(digits);
        if fills_zeros(flags, precision) {
            return Layout {
                before: 0,
                sign,
                zeros: zeros + u32::from(width).saturating_sub(len),
                after: 0,
            };
        }
        let blanks = Layout::padding(flags.left, width, u64::from(len));
        Layout {
            before: blanks.before,
            sign,
            zeros,
            after: blanks.after,
        }
    }
}

// Zeros fill the width of a number.
fn fills_zeros(flags: Flags, precision: Option<u16>) -> bool
    ensures { result ≡ (flags.zero && (not flags.left && is_none precision)) }
{
    flags.zero && !flags.left && precision.is_none()
}

fn sign_len(sign: Option<u8>) -> u32
    ensures length { result ≡ length (option_to_list sign) }
    ensures small { result ≤ 1 }
{
    match sign {
        Some(_) => 1,
        None => 0,
    }
}

// The sign that is printed.
fn sign(plus: bool, number: i64) -> Option<u8>
    ensures { option_to_list result ≡ sign_of plus number }
{
    if number < 0 {
        Some(b'-')
    } else if plus {
        Some(b'+')
    } else {
        None
    }
}

// A number with its sign.
#[inline(always)]
fn show_digits<'a>(
    radix: Radix,
    flags: Flags,
    width: u16,
    precision: Option<u16>,
    sign: Option<u8>,
    magnitude: u64,
) -> Shown<'a>
    ensures text { shown_text result ≡ map known (number_text flags width precision (option_to_list sign)
        (digits_in radix precision magnitude)) }
    ensures own { (body_taken result.body ≡ []) × (body_parts result.body ≡ []) }
{
    let digits = Digits::of(radix, magnitude);
    Shown {
        layout: Layout::number(flags, width, precision, sign, digits.len()),
        body: Body::Digits(digits),
    }
}

// One byte, with blanks up to the width.
fn show_byte<'a>(left: bool, width: u16, byte: u8) -> Shown<'a>
    ensures text { shown_text result ≡ map known (padded 32 left width (byte ∷ [])) }
    ensures own { (body_taken result.body ≡ []) × (body_parts result.body ≡ []) }
{
    Shown {
        layout: Layout::padding(left, width, 1),
        body: Body::Byte(byte),
    }
}

// How many of a cord's bytes a precision leaves.
fn cut_len(precision: Option<u16>, cord: &Cord) -> u64
    ensures bytes { take result (text cord.now) ≡ cut precision (text cord.now) }
    ensures length { result ≡ length (cut precision (text cord.now)) }
{
    match precision {
        None => cord.len(),
        Some(precision) => cord.len().min(u64::from(precision)),
    }
}

// A cord or its first bytes, with blanks up to the width.
fn show_start(left: bool, width: u16, precision: Option<u16>, cord: &Cord) -> Shown<'_>
    ensures text { shown_text result ≡ padded (known 32) left width (cut precision (text cord.now)) }
    ensures taken { body_taken result.body ≡ cut precision (text cord.now) }
    ensures parts { body_parts result.body ≡ parts_of cord.now }
{
    let len = cut_len(precision, cord);
    Shown {
        layout: Layout::padding(left, width, len),
        body: Body::Start(cord, len),
    }
}

// Bytes as they are.
fn show_bytes(bytes: &[u8]) -> Shown<'_>
    ensures text { shown_text result ≡ map known bytes.now }
    ensures own { (body_taken result.body ≡ []) × (body_parts result.body ≡ []) }
{
    Shown {
        layout: Layout::padding(false, 0, 0),
        body: Body::Bytes(bytes),
    }
}

// What a piece shows that takes no argument.
#[inline(always)]
fn show_text(piece: &Piece) -> Shown<'_>
    ensures text { shown_text result ≡ piece_text known piece.now None }
    ensures own { (body_taken result.body ≡ []) × (body_parts result.body ≡ []) }
{
    match piece {
        Piece::Text(text) => show_bytes(text.as_slice()),
        Piece::Percent => show_bytes(b"%"),
        _ => show_bytes(b""),
    }
}

// What a piece shows with a number, the argument number `place` of the print.
#[inline(always)]
fn show_number(place: u64, piece: &Piece, number: i64) -> Result<Shown<'_>, PrintError>
    ensures text { IfOk result (λ s. shown_text s ≡ piece_text known piece.now (Some (PieceArgument.number number))) }
    ensures own { IfOk result (λ s. (body_taken s.body ≡ []) × (body_parts s.body ≡ [])) }
    ensures taken { IfOk result (λ s. refusal {A = Cell} place piece.now (Some (PieceArgument.number number)) ≡ None) }
    ensures refused { IfErr result (λ e. refusal {A = Cell} place piece.now (Some (PieceArgument.number number))
        ≡ Some e) }
{
    match piece {
        Piece::Signed {
            flags,
            width,
            precision,
        } => {
            let sign = sign(flags.plus, number);
            let magnitude = number.unsigned_abs();
            Ok(show_digits(Radix::Decimal, *flags, *width, *precision, sign, magnitude))
        }
        Piece::Unsigned {
            radix,
            flags,
            width,
            precision,
        } => {
            if number < 0 {
                return Err(PrintError::Negative(place));
            }
            let magnitude = number.unsigned_abs();
            Ok(show_digits(*radix, *flags, *width, *precision, None, magnitude))
        }
        Piece::Byte { flags, width } => match u8::try_from(number) {
            Ok(byte) => Ok(show_byte(flags.left, *width, byte)),
            Err(_) => Err(PrintError::BadByte(place)),
        },
        _ => Ok(show_text(piece)),
    }
}

// What a piece shows with a cord.
#[inline(always)]
fn show_cord<'a>(piece: &'a Piece, cord: &'a Cord) -> Shown<'a>
    ensures text { shown_text result ≡ piece_text known piece.now (Some (PieceArgument.text (text cord.now))) }
    ensures of_cord { body_taken result.body ≡ taken_text piece.now (Some (PieceArgument.text (text cord.now))) }
    ensures parts_from { PartsFrom (parts_of cord.now) (body_parts result.body) }
{
    match piece {
        Piece::Cord {
            flags,
            width,
            precision,
        } => show_start(flags.left, *width, *precision, cord),
        _ => show_text(piece),
    }
}

/// What a piece shows with its argument, which is the argument number `place` of the print.
#[inline(always)]
pub fn show<'a>(
    place: u64,
    piece: &'a Piece,
    argument: Option<&'a Arg>,
) -> Result<Shown<'a>, PrintError>
    ensures text { IfOk result (λ s. shown_text s ≡ piece_text known piece.now
        (option_map (λ a. argument_of a.now) argument.entry)) }
    ensures of_cord { IfOk result (λ s. body_taken s.body
        ≡ taken_text piece.now (option_map (λ a. argument_of a.now) argument.entry)) }
    ensures parts_from { IfOk result (λ s. PartsFrom (parts_if (option_map (λ a. a.now) argument.entry))
        (body_parts s.body)) }
    ensures taken { IfOk result (λ s. refusal place piece.now (option_map (λ a. argument_of a.now) argument.entry)
        ≡ None) }
    ensures refused { IfErr result (λ e. refusal place piece.now (option_map (λ a. argument_of a.now) argument.entry)
        ≡ Some e) }
{
    match argument {
        None => Ok(show_text(piece)),
        Some(Arg::Num(number)) => show_number(place, piece, *number),
        Some(Arg::Cord(cord)) => Ok(show_cord(piece, cord)),
    }
}

impl Shown<'_> {
    /// How many bytes are printed, or `u64::MAX` where they are more.
    #[inline(always)]
    pub fn len(&self) -> u64
        ensures { result ≡ min (length (shown_text self.now)) (2 ^ 64 - 1) }
    {
        let Layout {
            before,
            sign,
            zeros,
            after,
        } = self.layout;
        let prefix = u64::from(before) + u64::from(sign_len(sign)) + u64::from(zeros);
        self.body.len().saturating_add(prefix + u64::from(after))
    }
}

impl Body<'_> {
    #[inline(always)]
    fn len(&self) -> u64
        ensures { result ≡ length (body_text self.now) }
    {
        match self {
            Body::Bytes(bytes) => bytes.len() as u64,
            Body::Byte(_) => 1,
            Body::Digits(digits) => u64::from(digits.len()),
            Body::Start(cord, len) => cord.len().min(*len),
        }
    }
}
