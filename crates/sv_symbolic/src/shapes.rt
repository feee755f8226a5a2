ghost use Rattle.std.specs.Prelude.{◌≡◌, false, slice_get, IfOk, IfErr};
ghost use Rattle.std.specs.List.{Contains};
ghost use Rattle.sv_app.specs.Accepted.{AcceptedApp};
ghost use Rattle.sv_app.specs.Schema.{schema_of};
ghost use Rattle.sv_app.specs.Trees.{block_of, transactions_of};
ghost use Rattle.sv_paths.specs.Numbered.{part_of};
ghost use Rattle.sv_paths.specs.Paths.{IsPath};
ghost use Rattle.sv_symbolic.specs.Executes.{parts_in, shape_as, effects_of, IsExecuted, IsCause, IsClosedShape, SuitsAlways};
ghost use Rattle.sv_symbolic.specs.Routes.{first_sketch};
ghost use Rattle.sv_symbolic.specs.States.{names_in, sketch_of, Walked, ComesTo};

use crate::names::{Names, names_of};
use crate::routes::walk_block;
use crate::settings::Setting;
use crate::states::{MOST_SYMBOLS, State};
use std::alloc::Global;
use sv_app::{App, Stmt};
use sv_linear::Shape;
use sv_paths::{Path, Unit};
use sv_value::{List, NoMemory};

/// Why a path has no shape.
#[derive(Clone, Copy, Debug, PartialEq, Eq)]
pub enum ShapeStop {
    /// It needs a 65th symbol.
    Many,
    /// A number of a form leaves 64 bits.
    Wide,
    NoMemory,
}

impl From<NoMemory> for ShapeStop {
    ghost use Rattle.std.specs.Prelude.{◌≡◌};
    ghost use Rattle.sv_symbolic.specs.declared.shapes.ShapeStop.TheVariants.{NoMemory as no_memory};

    ghost from_gives = { λ _ stop. stop ≡ no_memory };

    fn from(_none: NoMemory) -> ShapeStop {
        ShapeStop::NoMemory
    }
}

/// Where a path begins.
fn begin<'a>(alloc: Global, choices: &'a [bool]) -> State<'a>
    ensures { sketch_of result ≡ first_sketch choices.now }
{
    State {
        left: choices,
        known: List::new(alloc),
        known_old: List::new(alloc),
        symbols: List::new(alloc),
        sources: Vec::new(alloc),
        olds: Vec::new(alloc),
        facts: Vec::new(alloc),
        effects: List::new(alloc),
        exact: true,
    }
}

/// Walks along the statements of a unit, from its begin.
#[tactic(auto, using(crate::proofs::ToldLaws::walked_by))]
fn walk_unit<'a>(
    alloc: Global,
    app: &App,
    names: &Names,
    body: &[Stmt],
    choices: &'a [bool],
) -> Result<State<'a>, NoMemory>
    requires { AcceptedApp (schema_of app.now.tables.items) (transactions_of app.now.txns.items) }
    ensures { IfOk result (Walked (schema_of app.now.tables.items) (names_in names.now) (block_of body.now) choices.now) }
{
    let setting = Setting {
        alloc,
        tables: &app.tables,
        types: &names.types,
        rows: &names.tables,
    };
    let mut state = begin(alloc, choices);
    walk_block(&setting, body, &mut state)?;
    Ok(state)
}

/// What the walk comes to.
fn shape_of(state: State<'_>) -> Result<Shape, ShapeStop>
    ensures shape { IfOk result (λ shape. ComesTo state.entry (shape_as shape)) }
    ensures stops { IfErr result (IsCause (ComesTo state.entry)) }
{
    let symbols = state.symbols.len();
    if symbols > MOST_SYMBOLS {
        Err(ShapeStop::Many)
    } else if state.exact {
        Ok(Shape {
            facts: List::from_vec(state.facts),
            effects: state.effects,
            symbols: symbols as u8,
        })
    } else {
        Err(ShapeStop::Wide)
    }
}

/// What a path of a unit does, in forms of its symbols: the facts that its choices give, its changes, and the number of
/// its symbols, just as the definition of its route says. The answer is `Many` exactly where the path needs a 65th
/// symbol, and else `Wide` exactly where a form is wide: a number of an expression, of a side of a comparison or of
/// what is added to a counter leaves 64 bits. The application is accepted, the unit is one that `units` answers for
/// it, and the path is one that `paths` answers for the unit and doesn't abort.
pub fn execute(alloc: Global, app: &App, unit: &Unit<'_>, path: &Path) -> Result<Shape, ShapeStop>
    requires accepted { AcceptedApp (schema_of app.now.tables.items) (transactions_of app.now.txns.items) }
    requires unit { Contains (parts_in app.now.txns.items unit.now.txn) (part_of unit.now) }
    requires path { IsPath (block_of unit.now.body.now) path.now.aborts path.now.choices }
    requires goes_on { path.now.aborts ≡ false }
    ensures shape { IfOk result (λ shape. IsExecuted (schema_of app.now.tables.items)
        (transactions_of app.now.txns.items) unit.now.txn (block_of unit.now.body.now) path.now.choices
        (shape_as shape)) }
    ensures stops { IfErr result (IsCause (IsExecuted (schema_of app.now.tables.items)
        (transactions_of app.now.txns.items) unit.now.txn (block_of unit.now.body.now) path.now.choices)) }
    ensures closed { IfOk result (IsClosedShape path.now.choices) }
    ensures suits { IfOk result (λ shape. SuitsAlways (schema_of app.now.tables.items) (effects_of shape)) }
{
    let txn = &app.txns[usize::from(unit.txn)];
    let names = names_of(alloc, &app.tables, txn)?;
    let state = walk_unit(alloc, app, &names, unit.body, path.choices.items())?;
    shape_of(state)
}
