// What pieces show, added to a text that grows. Each addition fits, so it is refused only when out of memory.
ghost use Rattle.std.specs.Prelude.{◌≡◌, ℕ, ◌+◌, ◌<◌, ◌≤◌, [], ◌++◌, IfOk, IfSome, length, option_to_list};
ghost use Rattle.std.specs.Prelude.{map, replicate, take};
ghost use Rattle.cord_node.specs.Tree.{known};
ghost use Rattle.cord_node.specs.PartsFrom.{PartsFrom};
ghost use Rattle.cord_core.specs.Cord.{text as text_of, parts_of, IsCord};
ghost use Rattle.cord_ec.specs.Gathered.{leaf_bytes, leaf_parts, Gathered};
ghost use Rattle.cord_ec.specs.Grown.{IsCordOf};
ghost use Rattle.cord_printf.specs.Own.{IsPrintedFrom};
ghost use Rattle.cord_printf.specs.inner.PieceLayouts.{body_own, body_parts, body_text, cells_of, prefix_of, parts_in};
ghost use Rattle.cord_printf.specs.inner.PieceLayouts.{shown_own, shown_text};

use crate::piece_text::{Body, Layout, Shown};
use arrayvec::ArrayVec;
use cord_core::Cord;
use cord_ec::ExtCord;
use cord_io::MAX_LEN;
use cord_node::Node;
use std::alloc::{AllocError, Global};
use std::marker::Model;

// So many bytes are gathered, at most, before they go into an extensible cord together.
const MOST_GATHERED: usize = 256;

// A longer run than this is one node.
const SHORT_RUN: usize = 64;

// A join makes one leaf of two that are no longer than this together.
const MOST_JOINED: usize = 64;

/// A text that grows at its end: an extensible cord, which is made once it is wanted, and the bytes after it that are
/// gathered without memory.
#[derive(Drop)]
pub struct Output {
    grown: Option<ExtCord>,
    gathered: ArrayVec<u8, MOST_GATHERED>,
}

impl Model for Output {
    ghost use Rattle.std.specs.Prelude.{◌++◌, map};
    ghost use Rattle.cord_node.specs.Tree.{known};
    ghost use Rattle.cord_ec.specs.Gathered.{Growth, coded_growth, leaf_parts};
    ghost use Rattle.cord_printf.specs.inner.PieceLayouts.{cells_of, parts_in};

    ghost Value = { Growth };

    ghost coded = { coded_growth };

    ghost view = { λ o. record {
      text = cells_of o.grown ++ map known o.gathered.items;
      parts = parts_in o.grown
          ++ leaf_parts o.gathered.items;
    } };
}

impl Output {
    /// The text of no bytes.
    pub fn new() -> Output
        ensures text { result.text ≡ [] }
        ensures parts { result.parts ≡ [] }
    {
        Output {
            grown: None,
            gathered: ArrayVec::new(),
        }
    }

    /// Adds what a piece shows.
    pub fn add_shown(&mut self, alloc: Global, shown: &Shown<'_>) -> Result<(), AllocError>
        requires within_limit { length self.old.text + length (shown_text shown.now) ≤ MAX_LEN }
        ensures text { IfOk result (λ _. self.new.text ≡ self.old.text ++ shown_text shown.now) }
        ensures made { IfOk result (λ _. IsPrintedFrom (shown_own shown.now)
            (self.old.parts ++ body_parts shown.now.body) self.new.parts) }
    {
        self.add_prefix(alloc, shown.layout)?;
        self.add_body(alloc, &shown.body)?;
        self.add_run(alloc, b' ', shown.layout.after)
    }

    /// The text as a cord.
    pub fn to_cord(&mut self, alloc: Global) -> Result<Cord, AllocError>
        requires within_limit { length self.old.text ≤ MAX_LEN }
        ensures text { IfOk result (λ c. text_of c ≡ self.old.text) }
        ensures made { IfOk result (λ c. IsPrintedFrom 0 self.old.parts (parts_of c)) }
        ensures over { IfOk result (IsCordOf self.old.text) }
        ensures sound { IfOk result IsCord }
    {
        if self.grown.is_none() {
            return leaf_of(alloc, self.gathered.as_slice());
        }
        put_in(alloc, &mut self.grown, &mut self.gathered)?;
        cord_of(alloc, &mut self.grown)
    }

    // The blanks, the sign and the zeros in front of a body.
    fn add_prefix(&mut self, alloc: Global, layout: Layout) -> Result<(), AllocError>
        requires within_limit { length self.old.text + length (prefix_of layout) ≤ MAX_LEN }
        ensures text { IfOk result (λ _. self.new.text ≡ self.old.text ++ map known (prefix_of layout)) }
        ensures made { IfOk result (λ _. IsPrintedFrom (length (prefix_of layout)) self.old.parts self.new.parts) }
    {
        self.add_run(alloc, b' ', layout.before)?;
        self.add_sign(alloc, layout.sign)?;
        self.add_run(alloc, b'0', layout.zeros)
    }

    fn add_sign(&mut self, alloc: Global, sign: Option<u8>) -> Result<(), AllocError>
        requires within_limit { length self.old.text + length (option_to_list sign) ≤ MAX_LEN }
        ensures text { IfOk result (λ _. self.new.text ≡ self.old.text ++ map known (option_to_list sign)) }
        ensures made { IfOk result (λ _. IsPrintedFrom (length (option_to_list sign)) self.old.parts self.new.parts) }
    {
        let Some(sign) = sign else {
            return Ok(());
        };
        self.add_bytes(alloc, &[sign])
    }

    fn add_body(&mut self, alloc: Global, body: &Body<'_>) -> Result<(), AllocError>
        requires within_limit { length self.old.text + length (body_text body.now) ≤ MAX_LEN }
        ensures text { IfOk result (λ _. self.new.text ≡ self.old.text ++ body_text body.now) }
        ensures made { IfOk result (λ _. IsPrintedFrom (body_own body.now)
            (self.old.parts ++ body_parts body.now) self.new.parts) }
    {
        match body {
            Body::Bytes(bytes) => self.add_bytes(alloc, bytes),
            Body::Byte(byte) => self.add_bytes(alloc, &[*byte]),
            Body::Digits(digits) => self.add_bytes(alloc, digits.text().as_slice()),
            Body::Start(cord, len) => self.add_start(alloc, cord, *len),
        }
    }

    // So many copies of a byte, mostly none.
    #[inline(always)]
    fn add_run(&mut self, alloc: Global, byte: u8, count: u32) -> Result<(), AllocError>
        requires within_limit { length self.old.text + count ≤ MAX_LEN }
        ensures text { IfOk result (λ _. self.new.text ≡ self.old.text ++ replicate count (known byte)) }
        ensures made { IfOk result (λ _. IsPrintedFrom count self.old.parts self.new.parts) }
    {
        if count > 0 {
            self.add_copies(alloc, byte, count)
        } else {
            Ok(())
        }
    }

    // A long run is shared, not written out.
    fn add_copies(&mut self, alloc: Global, byte: u8, count: u32) -> Result<(), AllocError>
        requires some { 0 < count }
        requires within_limit { length self.old.text + count ≤ MAX_LEN }
        ensures text { IfOk result (λ _. self.new.text ≡ self.old.text ++ replicate count (known byte)) }
        ensures made { IfOk result (λ _. IsPrintedFrom count self.old.parts self.new.parts) }
    {
        if count as usize <= SHORT_RUN {
            let run = [byte; SHORT_RUN];
            let (bytes, _) = run.split_at(count as usize);
            return self.add_bytes(alloc, bytes);
        }
        match Cord::chars(alloc, byte, u64::from(count)) {
            Err(_) => Err(AllocError),
            Ok(run) => self.add_cord(alloc, &run),
        }
    }

    // The first bytes of a cord, which shares its tree.
    fn add_start(&mut self, alloc: Global, cord: &Cord, len: u64) -> Result<(), AllocError>
        requires within_limit { length self.old.text + length (take len (text_of cord.now)) ≤ MAX_LEN }
        ensures text { IfOk result (λ _. self.new.text ≡ self.old.text ++ take len (text_of cord.now)) }
        ensures made { IfOk result (λ _. IsPrintedFrom 0 (self.old.parts ++ parts_of cord.now) self.new.parts) }
    {
        if cord.len() <= len {
            return self.add_cord(alloc, cord);
        }
        match cord.substr(alloc, 0, len) {
            Err(_) => Err(AllocError),
            Ok(start) => self.add_cord(alloc, &start),
        }
    }

    fn add_bytes(&mut self, alloc: Global, bytes: &[u8]) -> Result<(), AllocError>
        requires within_limit { length self.old.text + length bytes.now ≤ MAX_LEN }
        ensures text { IfOk result (λ _. self.new.text ≡ self.old.text ++ map known bytes.now) }
        ensures made { IfOk result (λ _. (k : ℕ) → length bytes.now ≤ leaf_bytes k →
            IsPrintedFrom k self.old.parts self.new.parts) }
    {
        if self.gathered.try_extend_from_slice(bytes).is_ok() {
            return Ok(());
        }
        put_in(alloc, &mut self.grown, &mut self.gathered)?;
        grow(alloc, &mut self.grown, bytes)
    }

    // A leaf that the join with the text in front of it would copy is gathered.
    fn add_cord(&mut self, alloc: Global, cord: &Cord) -> Result<(), AllocError>
        requires within_limit { length self.old.text + length (text_of cord.now) ≤ MAX_LEN }
        ensures text { IfOk result (λ _. self.new.text ≡ self.old.text ++ text_of cord.now) }
        ensures made { IfOk result (λ _. IsPrintedFrom 0 (self.old.parts ++ parts_of cord.now) self.new.parts) }
    {
        if self.grown.is_none() {
            if let Some(leaf) = joined_leaf(self.gathered.len(), cord) {
                return self.add_bytes(alloc, leaf);
            }
        }
        put_in(alloc, &mut self.grown, &mut self.gathered)?;
        grow_by_cord(alloc, &mut self.grown, cord)
    }
}

// The bytes of a cord that is a leaf, where a join would copy them after so many bytes.
fn joined_leaf(before: usize, cord: &Cord) -> Option<&[u8]>
    ensures text { IfSome result (λ leaf. text_of cord.now ≡ map known leaf.now) }
    ensures short { IfSome result (λ leaf. length leaf.now ≤ MOST_JOINED) }
    ensures part { IfSome result (λ leaf. length (parts_of cord.now) ≡ 1) }
{
    if before == 0 || before > MOST_JOINED {
        return None;
    }
    match leaf_slice(cord) {
        Some(leaf) if leaf.len() <= MOST_JOINED - before => Some(leaf),
        _ => None,
    }
}

// The bytes of a cord that is a leaf.
fn leaf_slice(cord: &Cord) -> Option<&[u8]>
    ensures text { IfSome result (λ leaf. text_of cord.now ≡ map known leaf.now) }
    ensures part { IfSome result (λ leaf. length (parts_of cord.now) ≡ 1) }
{
    let Some(root) = cord.root() else {
        return None;
    };
    match root.as_ref() {
        Node::Leaf {
            bytes,
            start,
            len,
            ..
        } => Some(&bytes.as_slice()[*start as usize..(*start + *len) as usize]),
        _ => None,
    }
}

// These bytes as one leaf.
fn leaf_of(alloc: Global, bytes: &[u8]) -> Result<Cord, AllocError>
    requires within_limit { length bytes.now ≤ MAX_LEN }
    ensures text { IfOk result (λ c. text_of c ≡ map known bytes.now) }
    ensures over { IfOk result (IsCordOf (map known bytes.now)) }
    ensures parts { IfOk result (λ c. parts_of c ≡ leaf_parts bytes.now) }
    ensures sound { IfOk result IsCord }
{
    match Cord::from_bytes(alloc, bytes) {
        Ok(cord) => Ok(cord),
        Err(_) => Err(AllocError),
    }
}

// The text of an extensible cord as a cord.
fn cord_of(alloc: Global, grown: &mut Option<ExtCord>) -> Result<Cord, AllocError>
    ensures text { IfOk result (λ c. text_of c ≡ cells_of grown.old) }
    ensures over { IfOk result (IsCordOf (cells_of grown.old)) }
    ensures parts_from { IfOk result (λ c. PartsFrom (parts_in grown.old) (parts_of c)) }
    ensures sound { IfOk result IsCord }
{
    match grown {
        None => leaf_of(alloc, b""),
        Some(grown) => grown.to_cord(alloc).map_err(|_| AllocError),
    }
}

// Puts the gathered bytes into the extensible cord.
fn put_in(
    alloc: Global,
    grown: &mut Option<ExtCord>,
    gathered: &mut ArrayVec<u8, MOST_GATHERED>,
) -> Result<(), AllocError>
    requires within_limit { length (cells_of grown.old) + length gathered.old.items ≤ MAX_LEN }
    ensures text { IfOk result (λ _. cells_of grown.new ≡ cells_of grown.old ++ map known gathered.old.items) }
    ensures emptied { IfOk result (λ _. gathered.new.items ≡ []) }
    ensures made { IfOk result (λ _. IsPrintedFrom 0 (parts_in grown.old ++ leaf_parts gathered.old.items)
        (parts_in grown.new)) }
{
    grow(alloc, grown, gathered.as_slice())?;
    gathered.clear();
    Ok(())
}

// Lets an extensible cord grow by bytes; where there is none, one is begun.
fn grow(alloc: Global, grown: &mut Option<ExtCord>, bytes: &[u8]) -> Result<(), AllocError>
    requires within_limit { length (cells_of grown.old) + length bytes.now ≤ MAX_LEN }
    ensures text { IfOk result (λ _. cells_of grown.new ≡ cells_of grown.old ++ map known bytes.now) }
    ensures gathered { IfOk result (λ _. (k : ℕ) → length bytes.now ≤ leaf_bytes k →
        Gathered k (parts_in grown.old) (parts_in grown.new)) }
{
    match grown {
        Some(grown) => append(alloc, grown, bytes),
        None => {
            let mut begun = begin(alloc)?;
            append(alloc, &mut begun, bytes)?;
            *grown = Some(begun);
            Ok(())
        }
    }
}

// The same by a cord.
fn grow_by_cord(alloc: Global, grown: &mut Option<ExtCord>, cord: &Cord) -> Result<(), AllocError>
    requires within_limit { length (cells_of grown.old) + length (text_of cord.now) ≤ MAX_LEN }
    ensures text { IfOk result (λ _. cells_of grown.new ≡ cells_of grown.old ++ text_of cord.now) }
    ensures parts_from { IfOk result (λ _. PartsFrom (parts_in grown.old ++ parts_of cord.now) (parts_in grown.new)) }
{
    match grown {
        Some(grown) => append_cord(alloc, grown, cord),
        None => {
            let mut begun = begin(alloc)?;
            append_cord(alloc, &mut begun, cord)?;
            *grown = Some(begun);
            Ok(())
        }
    }
}

// An extensible cord of no bytes.
fn begin(alloc: Global) -> Result<ExtCord, AllocError>
    ensures text { IfOk result (λ made. made.text ≡ []) }
    ensures parts { IfOk result (λ made. made.parts ≡ []) }
{
    ExtCord::new(alloc).map_err(|_| AllocError)
}

// Appends bytes that fit.
fn append(alloc: Global, grown: &mut ExtCord, bytes: &[u8]) -> Result<(), AllocError>
    requires within_limit { length grown.old.text + length bytes.now ≤ MAX_LEN }
    ensures text { IfOk result (λ _. grown.new.text ≡ grown.old.text ++ map known bytes.now) }
    ensures gathered { IfOk result (λ _. (k : ℕ) → length bytes.now ≤ leaf_bytes k →
        Gathered k grown.old.parts grown.new.parts) }
{
    grown.append_bytes(alloc, bytes).map_err(|_| AllocError)
}

// Appends a cord that fits.
fn append_cord(alloc: Global, grown: &mut ExtCord, cord: &Cord) -> Result<(), AllocError>
    requires within_limit { length grown.old.text + length (text_of cord.now) ≤ MAX_LEN }
    ensures text { IfOk result (λ _. grown.new.text ≡ grown.old.text ++ text_of cord.now) }
    ensures parts_from { IfOk result (λ _. PartsFrom (grown.old.parts ++ parts_of cord.now) grown.new.parts) }
{
    grown.append_cord(alloc, cord).map_err(|_| AllocError)
}
