// Names and single bytes as shared expressions.
ghost use Rattle.std.specs.Prelude.{◌≡◌, pos, IfOk, IfSome};
ghost use Rattle.cord_operands.specs.declared.operands.Number.TheVariants.{Numeral};
ghost use Rattle.cord_plan.specs.Exprs as plain;
ghost use Rattle.cord_plan.specs.Views.{expr_view, shared_view};

use crate::Expr;
use crate::planner::constructors::{named, run, shared_byte};
use cord_script::{Name, Number};
use std::alloc::{AllocError, Global};
use std::rc::Rc;

/// The number of slots in which names are looked for, each by its hint.
const SLOTS: usize = 256;

/// The number of slots in which single bytes are looked for, which stand after those of names.
const BYTE_SLOTS: usize = 256;

/// Names and single bytes as expressions, each made once and then shared: of two names of one hint the last one stands
/// there. The slots take no memory before the first of them.
#[derive(Drop)]
pub(crate) struct Interner {
    slots: Vec<Option<Rc<Expr>>>,
}

// The expression in a slot, where it is this name.
fn find<'a>(slots: &'a [Option<Rc<Expr>>], slot: usize, name: &Name) -> Option<&'a Rc<Expr>>
    ensures { IfSome result (λ e. shared_view e.now ≡ plain.name name.now) }
{
    match slots.get(slot) {
        Some(Some(shared)) => match shared.as_ref() {
            Expr::Name(known) if known.is(name) => Some(shared),
            _ => None,
        },
        _ => None,
    }
}

// The expression in a slot, where it is one copy of this byte.
fn find_byte(slots: &[Option<Rc<Expr>>], slot: usize, byte: i64) -> Option<&Rc<Expr>>
    ensures { IfSome result (λ e. shared_view e.now ≡ plain.run (Numeral byte) (Numeral (pos 1))) }
{
    match slots.get(slot) {
        Some(Some(shared)) => match shared.as_ref() {
            Expr::Run {
                byte: Number::Numeral(known),
                count: Number::Numeral(1),
            } if *known == byte => Some(shared),
            _ => None,
        },
        _ => None,
    }
}

// Slots without a name.
fn empty_slots(alloc: Global) -> Result<Vec<Option<Rc<Expr>>>, AllocError> {
    let mut slots = Vec::with_capacity(alloc, SLOTS + BYTE_SLOTS)?;
    for _ in 0..SLOTS + BYTE_SLOTS {
        slots.push(None)?;
    }
    Ok(slots)
}

impl Interner {
    /// Without a name so far.
    pub(crate) fn of(alloc: Global) -> Self {
        Interner {
            slots: Vec::new(alloc),
        }
    }

    // Puts an expression into a slot, and gives it back.
    fn put(&mut self, alloc: Global, slot: usize, made: Expr) -> Result<Rc<Expr>, AllocError>
        ensures made { IfOk result (λ e. shared_view e ≡ expr_view made) }
    {
        let shared = Rc::new(alloc, made)?;
        if self.slots.is_empty() {
            self.slots = empty_slots(alloc)?;
        }
        if slot < self.slots.len() {
            self.slots[slot] = Some(shared.clone()?);
        }
        Ok(shared)
    }

    /// A name as an expression.
    #[inline(always)]
    pub(crate) fn name(&mut self, alloc: Global, name: &Name) -> Result<Rc<Expr>, AllocError>
        ensures made { IfOk result (λ e. shared_view e ≡ plain.name name.now) }
    {
        let slot = name.hint();
        match find(&self.slots, slot, name) {
            Some(shared) => shared.clone(),
            None => self.put(alloc, slot, named(name)?),
        }
    }

    /// One copy of a byte as an expression.
    pub(crate) fn byte(&mut self, alloc: Global, byte: &Number) -> Result<Rc<Expr>, AllocError>
        ensures made { IfOk result (λ e. shared_view e ≡ plain.run byte.now (Numeral (pos 1))) }
    {
        let Number::Numeral(numeral) = byte else {
            return shared_byte(alloc, byte);
        };
        let Ok(place) = u8::try_from(*numeral) else {
            return shared_byte(alloc, byte);
        };
        let slot = SLOTS + usize::from(place);
        match find_byte(&self.slots, slot, *numeral) {
            Some(shared) => shared.clone(),
            None => self.put(
                alloc,
                slot,
                run(Number::Numeral(*numeral), Number::Numeral(1)),
            ),
        }
    }
}
