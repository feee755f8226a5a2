ghost use Rattle.std.specs.Prelude.{◌≡◌};
ghost use Rattle.sv_wp.specs.Listing.{reason_by};

use sv_app::Reason;

/// What is asked about an invariant, for each kind of reasons that name one.
#[derive(Clone, Copy, Debug, PartialEq, Eq)]
pub enum Question {
    Unique,
    Child,
    Parent,
    Check,
    List,
}

/// The reason that names the invariant.
pub fn reason_by(question: Question, number: u16) -> Reason
    ensures { result ≡ reason_by question number }
{
    match question {
        Question::Unique => Reason::Unique(number),
        Question::Child => Reason::Child(number),
        Question::Parent => Reason::Parent(number),
        Question::Check => Reason::Check(number),
        Question::List => Reason::List(number),
    }
}
