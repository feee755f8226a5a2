use sv_bounds::Diff;
use sv_linear::Left;
use sv_value::List;

/// What is known of a path before any run: what is left of the atoms of its changes, the facts that its choices give,
/// and the number of its symbols.
#[derive(Debug, Drop)]
pub struct Template {
    pub left: Left,
    pub facts: List<Diff>,
    pub symbols: u8,
}
