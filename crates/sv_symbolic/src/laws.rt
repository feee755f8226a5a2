//! What the definitions promise, as calls that do nothing: their contracts are the laws.

ghost use Rattle.sv_symbolic.specs.Executes.{ShapesTell};
ghost use Rattle.sv_symbolic.specs.Laws.{FormsHold, RoutesAreClosed, RoutesArePaths};
ghost use Rattle.sv_symbolic.specs.Suited.{EffectsSuit};
ghost use Rattle.sv_symbolic.specs.Typed.{SymbolsAreTyped};

/// A route goes along exactly as its path does: it aborts, has too few choices or leads on where the path does, with
/// the same choices left and the same symbols.
pub fn routes_are_paths()
    ensures { RoutesArePaths }
{}

/// The facts and the effects of a route name only the symbols of its path, also where no run takes it. The bounds of
/// facts lie between -2^70 and 2^70, and a choice gives at most two.
pub fn routes_are_closed()
    ensures { RoutesAreClosed }
{}

/// The effects of a route of an accepted application fit the schema, whatever the values of the symbols are: each
/// writes columns of its table outside the key, once and in column order, counters by deltas and others by values of
/// their type.
pub fn effects_suit()
    ensures { EffectsSuit }
{}

/// The symbols that the effects of a route of an accepted application name are of the types that they are used as: a
/// form names integers, and where a symbol stands for a text it is one.
pub fn symbols_are_typed()
    ensures { SymbolsAreTyped }
{}

/// Of each run of an accepted application on rows of its tables, each entry of the trace goes along a route of its
/// unit: the facts of the route hold on the entry's tape, and the effects have there the values of the entry's changes.
pub fn forms_hold()
    ensures { FormsHold }
{}

/// Of each run of an accepted application on rows of its tables: where an entry of the trace went along a path that
/// comes to a shape, the entry's tape has the shape's symbols, the facts hold on it, and the effects have there the
/// values of the entry's changes.
pub fn shapes_tell()
    ensures { ShapesTell }
{}
