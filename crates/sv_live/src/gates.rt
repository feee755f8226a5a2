//! Where a request may be held up.

use std::thread;
use sv_core::Prepared;
use sv_effect::Ask;

/// How often a gate is asked before one step.
const PATIENCE: u32 = 10_000_000;

/// Where a request may be held up, without the turn. A gate is open where it answers true. While it is closed it is asked
/// again, ten million times at most; then the request goes on.
pub trait Gate {
    /// Before the answer to an ask is fetched.
    fn misses(&self, session: u16, ask: &Ask) -> bool;

    /// Before what was prepared is committed.
    fn admits(&self, p: &Prepared) -> bool;
}

/// A gate that is always open.
#[derive(Clone, Copy, Debug, PartialEq, Eq)]
pub struct OpenGate;

impl Gate for OpenGate {
    fn misses(&self, _session: u16, _ask: &Ask) -> bool {
        true
    }

    fn admits(&self, _p: &Prepared) -> bool {
        true
    }
}

/// Waits before an answer is fetched.
pub(crate) fn wait_misses<G: Gate>(gate: &G, session: u16, ask: &Ask) {
    for _ in 0..PATIENCE {
        if gate.misses(session, ask) {
            return;
        }
        thread::yield_now();
    }
}

/// Waits before what was prepared is committed.
pub(crate) fn wait_admits<G: Gate>(gate: &G, p: &Prepared) {
    for _ in 0..PATIENCE {
        if gate.admits(p) {
            return;
        }
        thread::yield_now();
    }
}
