use std::alloc::Global;
use sv_app::App;
use sv_wp::TableGains;

/// What a dictionary is made of: where its memory comes from, an application, and the greatest differences of its tables.
#[derive(Drop)]
pub struct Setting<'a> {
    pub alloc: Global,
    pub app: &'a App,
    pub gains: &'a TableGains,
}
