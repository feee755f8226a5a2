/// What a statement begins with.
#[derive(Clone, Copy, Debug, PartialEq, Eq)]
pub enum Head {
    Let,
    Assign,
    Get,
    If,
    For,
    Each,
    Insert,
    Fresh,
    Update,
    Remove,
    Abort,
    Reply,
}
