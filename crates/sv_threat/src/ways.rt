ghost use Rattle.std.specs.Prelude.{◌≡◌};
ghost use Rattle.sv_threat.specs.Tests.{is_anywhere, reason_by};

use sv_app::Reason;

/// A way in which a change may threaten an invariant, for each kind of reasons that name one.
#[derive(Clone, Copy, Debug, PartialEq, Eq)]
pub enum Way {
    Unique,
    Child,
    Parent,
    Check,
    List,
}

/// The reason that names the invariant.
pub fn reason_by(way: Way, number: u16) -> Reason
    ensures { result ≡ reason_by way number }
{
    match way {
        Way::Unique => Reason::Unique(number),
        Way::Child => Reason::Child(number),
        Way::Parent => Reason::Parent(number),
        Way::Check => Reason::Check(number),
        Way::List => Reason::List(number),
    }
}

/// Whether invariants of other tables than the change's may be threatened so.
pub fn is_anywhere(way: Way) -> bool
    ensures { result ≡ is_anywhere way }
{
    match way {
        Way::Parent => true,
        Way::Unique | Way::Child | Way::Check | Way::List => false,
    }
}
