// Expressions of plans.
ghost use Rattle.std.specs.Prelude.{◌≡◌, ◌<◌, ◌∷◌, [], IfOk, IfSome, length, map};
ghost use Rattle.cord_plan.specs.Exprs.{append, member, nothing};
ghost use Rattle.cord_plan.specs.inner.Views.{is_nothing};
ghost use Rattle.cord_plan.specs.Views.{prefix_view, members_of, members_view, shared_view};
ghost use Rattle.cord_plan.specs.inner.Views.{rest_view};

use cord_script::{Name, Number};
use std::alloc::{AllocError, Global};
use std::rc::Rc;

/// An expression of a plan: what a line makes of names of cords and of runs of a byte. Expressions share what stands in
/// them.
#[derive(Drop)]
#[cycle(expressions)]
pub enum Expr {
    /// The name of a cord.
    Name(Name),
    /// `run(c n)`: n copies of the byte c.
    Run {
        byte: Number,
        count: Number,
    },
    /// `cat(E1 E2 ..)`: the members in order.
    Cat(Members),
    /// `sub(E i n)`: at most n bytes of E from i on.
    Sub {
        expression: Rc<Expr>,
        start: Number,
        count: Number,
    },
}

/// The members of a `cat`, in order. Expressions share members: a copy of one, or of all in front, is a count.
#[derive(Drop)]
#[cycle(expressions)]
pub struct Members {
    prefix: Option<Rc<Members>>,
    rest: Rest,
}

// The members after those in front: at most two, which take no memory of their own.
#[derive(Drop)]
#[cycle(expressions)]
enum Rest {
    Nothing,
    One(Single),
    Two(Pair),
}

#[derive(Drop)]
#[cycle(expressions)]
struct Single {
    members: [Rc<Expr>; 1],
}

#[derive(Drop)]
#[cycle(expressions)]
struct Pair {
    members: [Rc<Expr>; 2],
}

impl Single {
    #[inline(always)]
    fn into_member(self) -> Rc<Expr>
        ensures { map shared_view self.members ≡ shared_view result ∷ [] }
    {
        let [member] = self.members;
        member
    }
}

impl Rest {
    #[inline(always)]
    fn one(first: Rc<Expr>) -> Self
        ensures { rest_view result ≡ shared_view first ∷ [] }
    {
        Rest::One(Single { members: [first] })
    }

    #[inline(always)]
    fn two(first: Rc<Expr>, second: Rc<Expr>) -> Self
        ensures { rest_view result ≡ shared_view first ∷ shared_view second ∷ [] }
    {
        Rest::Two(Pair {
            members: [first, second],
        })
    }

    #[inline(always)]
    fn as_slice(&self) -> &[Rc<Expr>]
        ensures { map shared_view result.now ≡ rest_view self.now }
    {
        match self {
            Rest::Nothing => &[],
            Rest::One(one) => &one.members,
            Rest::Two(two) => &two.members,
        }
    }

    // A copy, which shares the members.
    #[inline(always)]
    fn shared(&self) -> Result<Self, AllocError>
        ensures made { IfOk result (λ r. rest_view r ≡ rest_view self.now) }
    {
        match self {
            Rest::Nothing => Ok(Rest::Nothing),
            Rest::One(one) => {
                let [first] = &one.members;
                Ok(Rest::one(first.clone()?))
            }
            Rest::Two(two) => {
                let [first, second] = &two.members;
                let (first, second) = (first.clone()?, second.clone()?);
                Ok(Rest::two(first, second))
            }
        }
    }
}

impl Members {
    /// No members, without taking memory.
    #[inline(always)]
    pub(crate) fn nothing() -> Self
        ensures { members_view result ≡ nothing }
    {
        Members {
            prefix: None,
            rest: Rest::Nothing,
        }
    }

    /// The members in front, where other expressions may share them, and those after them. Some stand after a prefix.
    #[inline(always)]
    #[cycle(halves)]
    pub fn halves(&self) -> (Option<&Members>, &[Rc<Expr>])
        ensures members { members_view self.now
            ≡ append (prefix_view result.0) (members_of (map shared_view result.1.now)) }
        ensures after { IfSome result.0 (λ _. 0 < length result.1.now) }
    {
        match &self.prefix {
            None => (None, self.rest.as_slice()),
            Some(prefix) => match &self.rest {
                Rest::Nothing => prefix.as_ref().further_halves(),
                Rest::One(one) => (Some(prefix.as_ref()), &one.members),
                Rest::Two(two) => (Some(prefix.as_ref()), &two.members),
            },
        }
    }

    // The same of those in front of no others: a call, so that the other cases are inlined.
    #[inline(never)]
    #[cycle(halves)]
    fn further_halves(&self) -> (Option<&Members>, &[Rc<Expr>])
        ensures members { members_view self.now
            ≡ append (prefix_view result.0) (members_of (map shared_view result.1.now)) }
        ensures after { IfSome result.0 (λ _. 0 < length result.1.now) }
    {
        self.halves()
    }

    /// The same members, in front of those that follow where no more fit after the prefix: so others share them.
    pub(crate) fn to_share(self, alloc: Global) -> Result<Self, AllocError>
        ensures made { IfOk result (λ ms. members_view ms ≡ members_view self) }
    {
        match &self.rest {
            Rest::Two(_) => Ok(Members {
                prefix: Some(Rc::new(alloc, self)?),
                rest: Rest::Nothing,
            }),
            _ => Ok(self),
        }
    }

    /// Whether there are no members.
    pub(crate) fn is_nothing(&self) -> bool
        ensures { result ≡ is_nothing (members_view self.now) }
    {
        self.halves().1.is_empty()
    }

    /// These members and one more.
    #[inline(always)]
    pub(crate) fn with(self, alloc: Global, last: Rc<Expr>) -> Result<Self, AllocError>
        ensures made { IfOk result (λ ms. members_view ms
            ≡ append (members_view self) (member (shared_view last) nothing)) }
    {
        let Members { prefix, rest } = self;
        match rest {
            Rest::Nothing => Ok(Members {
                prefix,
                rest: Rest::one(last),
            }),
            Rest::One(one) => {
                let first = one.into_member();
                Ok(Members {
                    prefix,
                    rest: Rest::two(first, last),
                })
            }
            Rest::Two(two) => {
                let rest = Rest::Two(two);
                let full = Rc::new(alloc, Members { prefix, rest })?;
                Ok(Members {
                    prefix: Some(full),
                    rest: Rest::one(last),
                })
            }
        }
    }

    /// A copy, which shares the members.
    #[inline(always)]
    pub(crate) fn shared(&self) -> Result<Self, AllocError>
        ensures made { IfOk result (λ ms. members_view ms ≡ members_view self.now) }
    {
        let rest = self.rest.shared()?;
        match &self.prefix {
            None => Ok(Members { prefix: None, rest }),
            Some(prefix) => Ok(Members {
                prefix: Some(prefix.clone()?),
                rest,
            }),
        }
    }

    // These members and others after them, which are shared.
    fn with_each(self, alloc: Global, others: &[Rc<Expr>]) -> Result<Self, AllocError>
        ensures made { IfOk result (λ ms. members_view ms
            ≡ append (members_view self) (members_of (map shared_view others.now))) }
    {
        let mut members = self;
        'others: for other in others {
            members = members.with(alloc, other.clone()?)?;
        }
        Ok(members)
    }

    /// These members and others after them, which are shared.
    pub(crate) fn with_all(self, alloc: Global, others: &Members) -> Result<Self, AllocError>
        ensures made { IfOk result (λ ms. members_view ms ≡ append (members_view self) (members_view others.now)) }
    {
        let (prefix, rest) = others.halves();
        match prefix {
            None => self.with_each(alloc, rest),
            Some(prefix) => self.with_all(alloc, prefix)?.with_each(alloc, rest),
        }
    }

    /// The same; where there are no members yet, those in front of the others are shared at once.
    pub(crate) fn with_shared(self, alloc: Global, others: &Members) -> Result<Self, AllocError>
        ensures made { IfOk result (λ ms. members_view ms ≡ append (members_view self) (members_view others.now)) }
    {
        if self.is_nothing() {
            drop(self);
            return others.shared();
        }
        self.with_all(alloc, others)
    }
}
