// The kinds of names, and what a word of a statement has to be.

/// What a name stands for, from the first line that assigns it.
#[derive(Clone, Copy)]
pub enum Kind {
    Cord,
    Number,
    Extensible,
}

/// What a word of a statement has to be.
#[derive(Clone, Copy)]
pub enum Want {
    /// The name that the line assigns.
    Target(Kind),
    /// The name of a cord, or of an extensible cord, that an earlier line assigns.
    Operand(Kind),
    /// A numeral, or the name of a number that an earlier line assigns.
    Number,
    /// A quoted word.
    Text,
    /// A quoted word that is a path.
    Path,
    /// `digits` or `bytes`.
    Function,
    /// `lt`, `eq` or `gt`.
    Relation,
    /// A quoted word that is a format.
    Format,
}
