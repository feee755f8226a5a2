use crate::forms::Form;
use sv_app::Reason;

/// A test on a tape.
#[derive(Debug, Drop)]
pub enum Test {
    /// The form's value is at most this.
    AtMost { form: Form, most: i128 },
    /// The symbol's text stands in the list of the invariant of this number.
    InList { sym: u8, inv: u16 },
    /// Nothing meets it.
    Never,
}

/// A test of the change with this place, counted from 1 within its instance: where it fails, the reason threatens the
/// change.
#[derive(Debug, Drop)]
pub struct Atom {
    pub place: u32,
    pub reason: Reason,
    pub test: Test,
}
