//! Preparing an answer without the turn, over answers that are fetched in turns.

ghost use Rattle.std.specs.Prelude.{◌≡◌, ◌≤◌, false, Err, IfOk, OnOk};
ghost use Rattle.sv_effect.specs.declared.reads.Ask.{Ask as AskValue};
ghost use Rattle.sv_effect.specs.declared.reads.Halt.TheVariants.{Missing};
ghost use Rattle.sv_effect.specs.BareTables.{bare};
ghost use Rattle.sv_hub.specs.Extends.{Extends};
ghost use Rattle.sv_hub.specs.Sight.{Belongs};
ghost use Rattle.sv_core.specs.Document.{document_of};
ghost use Rattle.sv_core.specs.History.{tables_at};
ghost use Rattle.sv_core.specs.Legal.{Legal};
ghost use Rattle.sv_core.specs.Sheets.{is_known};
ghost use Rattle.sv_live.specs.Fetches.{IsFetched};
ghost use Rattle.sv_core.specs.Sound.{IsSite};
ghost use Rattle.sv_live.specs.Dues.{IsDue, IsDuly};
ghost use Rattle.sv_live.specs.Receipts.{IsListedSession};

use crate::dues::{Due, request_of};
use crate::gates::{Gate, wait_misses};
use crate::tells::tell_lawful;
use std::alloc::Global;
use std::sync::{Arc, Wait};
use sv_core::{Prepared, Sheet, World, prepare};
use sv_effect::{Ask, Halt};
use sv_hub::{Hub, Pass};
use sv_value::{NoMemory, Site};

/// How many places more a sheet gets where it has none left.
const PLACES: u32 = 40;

/// Fetches the site's answer to an ask in a turn.
#[tactic(auto, using(sv_hub::proofs::ExtendsLaws::extending))]
fn fetch_in_turn<R: Wait>(
    rt: &R,
    hub: &Hub<World>,
    pass: Pass<World>,
    site: Site,
    ask: &Ask,
    sheet: &mut Sheet,
) -> Pass<World>
    requires pass { Belongs hub.now pass }
    requires site { IsSite (document_of hub.now.name) site }
    requires sheet { sheet.old.doc ≡ hub.now.name }
    requires room { 1 ≤ sheet.old.room }
    requires unknown { is_known sheet.old.known ask.now ≡ false }
    ensures own { Belongs hub.now result }
    ensures seen { Extends result.seen pass.seen }
    ensures legal { Legal (document_of hub.now.name) result.seen }
    ensures fetched { IsFetched (bare (tables_at (document_of hub.now.name) result.seen site)) ask.now sheet.old sheet.new }
    ensures doc { sheet.new.doc ≡ hub.now.name }
{
    let turn = hub.enter(rt, pass);
    tell_lawful(turn.value());
    turn.value().fetch(site, ask, sheet);
    hub.leave(turn)
}

/// Makes places where there are none.
fn make_room(sheet: &mut Sheet) -> Result<(), NoMemory>
    ensures room { OnOk result (1 ≤ sheet.new.room) }
    ensures known { sheet.new.known ≡ sheet.old.known }
    ensures doc { sheet.new.doc ≡ sheet.old.doc }
{
    if sheet.room() == 0 {
        sheet.grow(PLACES)?;
    }
    Ok(())
}

/// Prepares the answer to the request that is due, over what is known.
fn prepare_on(alloc: Global, session: u16, due: &Due, sheet: &mut Sheet) -> Result<Prepared, Halt>
    requires session { IsListedSession (document_of sheet.old.doc) session }
    requires due { IsDue sheet.old.doc session due.now }
    ensures duly { IfOk result (IsDuly sheet.old.doc session due.now) }
    ensures same { sheet.new ≡ sheet.old }
    ensures missing { (ask : AskValue) → result ≡ Err (Missing ask) → is_known sheet.old.known ask ≡ false }
{
    let request = request_of(&due.doc, session, due);
    prepare(
        alloc, &due.doc, session, due.site, due.index, request, sheet,
    )
}

/// Prepares the answer to the request that is due, without the turn. Each answer that is missing is fetched in a turn.
#[tactic(auto, using(sv_hub::proofs::ExtendsLaws::extending))]
pub(crate) fn prepare_outside<G: Gate, R: Wait>(
    alloc: Global,
    rt: &R,
    hub: &Hub<World>,
    pass: Pass<World>,
    session: u16,
    due: &Due,
    gate: &G,
) -> (Pass<World>, Result<Prepared, NoMemory>)
    requires pass { Belongs hub.now pass }
    requires legal { Legal (document_of hub.now.name) pass.seen }
    requires session { IsListedSession (document_of hub.now.name) session }
    requires due { IsDue hub.now.name session due.now }
    ensures own { Belongs hub.now result.0 }
    ensures seen { Extends result.0.seen pass.seen }
    ensures legal { Legal (document_of hub.now.name) result.0.seen }
    ensures duly { IfOk result.1 (IsDuly hub.now.name session due.now) }
{
    let mut mine = pass;
    let mut sheet = match empty_sheet(alloc, due) {
        Ok(sheet) => sheet,
        Err(none) => return (mine, Err(none)),
    };
    for _ in rt.forever() {
        match prepare_on(alloc, session, due, &mut sheet) {
            Ok(p) => return (mine, Ok(p)),
            Err(Halt::NoMemory) => return (mine, Err(NoMemory)),
            Err(Halt::Missing(ask)) => {
                if make_room(&mut sheet).is_err() {
                    return (mine, Err(NoMemory));
                }
                wait_misses(gate, session, &ask);
                mine = fetch_in_turn(rt, hub, mine, due.site, &ask, &mut sheet);
            }
        }
    }
    unreachable!()
}

/// A sheet that knows nothing.
fn empty_sheet(alloc: Global, due: &Due) -> Result<Sheet, NoMemory>
    ensures { IfOk result (λ sheet. sheet.doc ≡ due.now.doc.value) }
{
    Sheet::new(alloc, Arc::clone(&due.doc)?, PLACES)
}
