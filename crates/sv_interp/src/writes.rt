ghost use Rattle.std.specs.Prelude.{◌≡◌, IfSome, ◌==◌, ◌++◌, ◌∷◌, [], OnOk, IfOk, map, drop};
ghost use Rattle.sv_app.specs.Schema.{declaration_of};
ghost use Rattle.sv_app.specs.Symbols.{is_key_column};
ghost use Rattle.sv_app.specs.Trees.{sets_of, terms_of};
ghost use Rattle.sv_app.specs.Kinds.{is_grow_only};
ghost use Rattle.sv_effect.specs.BareTables.{got_of};
ghost use Rattle.sv_effect.specs.RunChanges.{written_got, with_write, with_writes, delta_to, set_of, merge_of, sets_made, writes_at, in_order, kept_to, insert_of, inserts};
ghost use Rattle.sv_effect.specs.RunValues.{column, values_of, Scope as RunScope};
ghost use Rattle.sv_interp.specs.Machine.{scope_of, evaluated, as_evaluated};

use crate::scopes::Scope;
use crate::values::{read_old, subtracted, val_of, value};
use std::alloc::Global;
use sv_app::{Column, Expr, Got, Ident, Kind, Merge};
use sv_effect::{Write, column, got_of, prepend, put_got};
use sv_value::{List, NoMemory, Val};

/// A value after a write; none where it leaves 128 bits.
fn written(write: &Write, old: &Got) -> Option<Got>
    ensures { IfSome result (λ got. got ≡ written_got write.now old.now) }
{
    match (write, old) {
        (Write::Set(val), _) => Some(got_of(val)),
        (Write::Delta(delta), Got::Num(number)) => Some(Got::Num(number.checked_add(
            *delta as i128,
        )?)),
        (Write::Delta(_), Got::Text(text)) => Some(Got::Text(*text)),
    }
}

fn make_write(row: &mut Vec<Got>, col: u16, write: &Write) -> Result<(), NoMemory>
    ensures { OnOk result (row.new.items ≡ with_write (col, write.now) row.old.items) }
{
    let Some(got) = written(write, &column(row, col)) else {
        return Err(NoMemory);
    };
    put_got(row, col, &got)
}

/// Makes writes to the values of a row, one after the other.
#[tactic(auto, using(crate::proofs::WriteLaws::writing))]
pub fn make_writes(row: &mut Vec<Got>, writes: &[(u16, Write)]) -> Result<(), NoMemory>
    ensures { OnOk result (row.new.items ≡ with_writes writes.now row.old.items) }
{
    for (col, write) in writes {
        make_write(row, *col, write)?;
    }
    Ok(())
}

/// A counter goes from a value to another.
pub fn delta_to(new: &Val, old: &Val) -> Option<Write>
    ensures { (s : RunScope) → delta_to new.now old.now s ≡ as_evaluated result s }
{
    Some(Write::Delta(subtracted(new, old)?))
}

/// How a column is set: a counter by what is added to its value now.
fn set_of(merge: Merge, col: u16, val: &Val, scope: &mut Scope) -> Result<Option<Write>, NoMemory>
    ensures { IfOk result (λ w. set_of merge col val.now (scope_of scope.old) ≡ evaluated w scope.new) }
{
    match merge {
        Merge::NumDelta => {
            let Some(old) = read_old(col, scope)? else {
                return Ok(None);
            };
            Ok(delta_to(val, &old))
        }
        Merge::Plain | Merge::Lww | Merge::Fresh => Ok(Some(Write::Set(*val))),
    }
}

fn merge_of(columns: &[Column], col: u16) -> Merge
    ensures { result ≡ merge_of columns.now col }
{
    match columns.get(col as usize) {
        Some(column) => column.merge,
        None => Merge::Plain,
    }
}

/// The writes of the sets of an update, in their order; none where a number leaves 64 bits.
pub fn sets_made(
    alloc: Global,
    columns: &[Column],
    sets: &[(Ident, Expr)],
    scope: &mut Scope,
) -> Result<Option<List<(u16, Write)>>, NoMemory>
    ensures { IfOk result (λ ws. sets_made columns.now (sets_of sets.now) (scope_of scope.old) ≡ evaluated ws scope.new) }
{
    match sets {
        [] => Ok(Some(List::new(alloc))),
        [set, rest @ ..] => {
            let Some(val) = value(&set.1, scope)? else {
                return Ok(None);
            };
            let col = set.0.num;
            let Some(write) = set_of(merge_of(columns, col), col, &val, scope)? else {
                return Ok(None);
            };
            let Some(writes) = sets_made(alloc, columns, rest, scope)? else {
                return Ok(None);
            };
            Ok(Some(prepend((col, write), writes)?))
        }
    }
}
