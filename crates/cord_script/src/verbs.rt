// What the words of statements ask for, family by family.

/// What a statement's word asks for.
#[derive(Clone, Copy)]
pub enum Verb {
    /// A fixed number of words.
    Fixed(FixedVerb),
    /// `catn`.
    Catn,
    /// `sprintf`.
    Sprintf,
}

/// What a statement's word asks for, where the number of the words after it is fixed.
#[derive(Clone, Copy)]
pub enum FixedVerb {
    /// A cord made of no other name's value.
    Origin(Origin),
    /// A cord made of numbers, cords or an extensible cord.
    Composition(Composition),
    /// `put`.
    Put,
    /// A number that needs no byte.
    Computation(Computation),
    /// A byte, the order of bytes, or a place in a cord.
    Look(Look),
    /// An extensible cord that is made or grows.
    Growth(Growth),
    /// Which lines run next.
    Control(Control),
}

#[derive(Clone, Copy)]
pub enum Origin {
    Let,
    File,
    Eager,
    Lazy,
    FromFn,
}

#[derive(Clone, Copy)]
pub enum Composition {
    Chars,
    Nul,
    Cat,
    Catc,
    Substr,
    Balance,
    EcToCord,
}

#[derive(Clone, Copy)]
pub enum Computation {
    Len,
    Assign,
    Add,
    Sub,
}

#[derive(Clone, Copy)]
pub enum Look {
    Fetch,
    Cmp,
    Ncmp,
    Str,
    Chr,
    Rchr,
}

#[derive(Clone, Copy)]
pub enum Growth {
    EcInit,
    EcPut,
    EcCat,
    EcStr,
}

#[derive(Clone, Copy)]
pub enum Control {
    Repeat,
    If,
    Else,
    End,
}
