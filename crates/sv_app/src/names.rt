use crate::apps::Ident;
use crate::schemas::Ty;

/// What a name inside a transaction stands for.
#[derive(Clone, Copy, Debug)]
pub enum Meaning {
    /// A parameter of that type.
    Parameter(Ty),
    /// A variable that may be assigned. It has no type where the expression that it was declared with is refused.
    Variable(Option<Ty>),
    /// A row of the table of that name.
    Row(Ident),
    /// An integer that isn't assigned: an element of a list, or a key that was drawn.
    Constant,
}

/// A name that may be used inside a transaction, and what it stands for.
#[derive(Clone, Copy, Debug)]
pub struct Known {
    pub name: Ident,
    pub meaning: Meaning,
}

/// A name that a transaction declares. That of a row comes with the name of its table.
#[derive(Clone, Copy, Debug)]
pub struct Declared {
    pub name: Ident,
    pub table: Option<Ident>,
}
