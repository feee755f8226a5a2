use sv_app::{App, InitRow, Request};
use sv_label::Dictionary;
use sv_value::{List, Site};

/// What stands in a session of a document: a request, or that the session goes to another site.
#[derive(Debug, Drop)]
pub enum Item {
    Call(Request),
    Go(Site),
}

/// What a world is made for: the application, the dictionary that decides labels for it, its initial rows, the number of sites, how many rows and changes there is
/// room for, the sessions with their items in order, if the document lists them, and how many requests may be answered
/// and how often sessions may move.
#[derive(Drop)]
pub struct Doc {
    pub app: App,
    pub dict: Dictionary,
    pub init: List<InitRow>,
    pub sites: u8,
    /// How many rows may be kept at a site.
    pub rows: u32,
    /// How many changes may be published.
    pub changes: u32,
    pub sessions: List<List<Item>>,
    pub asks: u32,
    pub moves: u32,
}
