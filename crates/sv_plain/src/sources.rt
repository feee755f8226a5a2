ghost use Rattle.std.specs.Prelude.{map};
ghost use Rattle.sv_app.specs.Schema.{schema_of};
ghost use Rattle.sv_plain.specs.Few.{FewChanges};
ghost use Rattle.sv_plain.specs.Narrow.{AreNarrow};

use std::alloc::Global;
use sv_app::{App, InitRow};
use sv_effect::Op;
use sv_value::Cut;

/// The rows of a cut of what is published, the reds first and then the list of site 1: each is computed anew from all
/// operations that the cut holds. No table has more than 16 columns, and at most 65,536 changes are published.
#[derive(Drop)]
pub struct PlainRows<'a> {
    pub alloc: Global,
    pub app: &'a App,
    pub init: &'a [InitRow],
    pub published: &'a [Vec<Op>],
    pub cut: &'a Cut,
    ghost narrow: { AreNarrow (schema_of app.now.tables.items) },
    ghost few: { FewChanges (map (λ ops. ops.items) published.now) },
}
