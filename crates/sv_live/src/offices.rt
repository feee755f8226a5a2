ghost use Rattle.std.specs.Prelude.{◌≡◌, ◌≤◌, length};

use std::alloc::Global;
use std::sync::atomic::{AtomicBool, AtomicU64, Ordering};
use sv_core::World;
use sv_hub::{Hub, Pass};
use sv_post::{Post, PostPass};

/// What the workers of a document share: the world, the mailboxes, how many request workers have ended, and whether one
/// found no memory, at which all end.
#[derive(Drop)]
pub(crate) struct Office {
    pub alloc: Global,
    pub hub: Hub<World>,
    pub post: Post,
    pub sites: u8,
    /// How many sessions the document lists.
    pub sessions: u16,
    /// How many workers answer the sessions of a site.
    pub workers: u8,
    pub ended: AtomicU64,
    pub stop: AtomicBool,
    ghost sites_are: { sites ≡ hub.name.sites },
    ghost sites_most: { sites ≤ 8 },
    ghost sites_some: { 1 ≤ sites },
    ghost sessions_are: { sessions ≡ length hub.name.sessions },
    ghost sessions_most: { sessions ≤ 64 },
    ghost workers_some: { 1 ≤ workers },
    ghost workers_most: { workers ≤ 8 },
    ghost boxes: { length post ≡ sites },
}

/// A thread's passes.
#[derive(Drop)]
pub(crate) struct Passes {
    pub world: Pass<World>,
    pub mail: PostPass,
}

impl Office {
    /// Whether a delivery worker has nothing to wait for.
    pub(crate) fn is_over(&self) -> bool {
        self.stop.load(Ordering::SeqCst)
            || self.ended.load(Ordering::SeqCst) >= self.sites as u64 * self.workers as u64
    }
}
