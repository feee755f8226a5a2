ghost use Rattle.std.specs.Prelude.{◌≡◌};
ghost use Rattle.sv_threat.specs.First.{is_sooner, sooner};

use sv_app::Reason;

/// A threat: the change's number in the list, its instance, and the reason.
#[derive(Clone, Copy, Debug, PartialEq, Eq)]
pub struct Found {
    pub number: u32,
    pub instance: u32,
    pub reason: Reason,
}

fn is_sooner(found: Found, held: Found) -> bool
    ensures { result ≡ is_sooner found held }
{
    found.instance < held.instance
        || (found.instance == held.instance && found.number < held.number)
}

/// The threat at the sooner change.
pub fn sooner(held: Option<Found>, found: Option<Found>) -> Option<Found>
    ensures { result ≡ sooner held found }
{
    match (held, found) {
        (None, found) => found,
        (Some(held), None) => Some(held),
        (Some(held), Some(found)) => {
            if is_sooner(found, held) {
                Some(found)
            } else {
                Some(held)
            }
        }
    }
}
