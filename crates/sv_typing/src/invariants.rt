ghost use Rattle.std.specs.Prelude.{◌≡◌, ◌||◌, not};
ghost use Rattle.sv_app.specs.Schema.{declaration_of};
ghost use Rattle.sv_app.specs.Lookups.{holds_of, is_key};
ghost use Rattle.sv_app.specs.Lookups.{column_of as column_meant};
ghost use Rattle.sv_app.specs.Typing.{is_text, is_numdelta, side_faults, shape_faults, second_side, check_faults, list_faults, unique_faults};
ghost use Rattle.sv_typing.specs.Noted.{noted};

use crate::columns::note_no_column;
use crate::firsts::{First, is_same_place};
use crate::lookups::column_of;
use crate::types::{is_numdelta, is_text};
use sv_app::{Check, Code, Ident, Table, is_key, is_named};

/// Whether it is a column that no check may name.
fn is_never_checked(table: &Table, name: &Ident) -> bool
    ensures { result ≡ holds_of (column_meant (declaration_of table.now) name.now) (λ c. is_text c.ty || is_key (declaration_of table.now) name.now) }
{
    let found = column_of(table, name);
    match found {
        Some(column) => is_text(column.ty) || is_key(table, name),
        None => false,
    }
}

/// Whether it is a column that no list may name.
fn is_never_listed(table: &Table, name: &Ident) -> bool
    ensures { result ≡ holds_of (column_meant (declaration_of table.now) name.now) (λ c. not (is_text c.ty) || is_key (declaration_of table.now) name.now) }
{
    let found = column_of(table, name);
    match found {
        Some(column) => !is_text(column.ty) || is_key(table, name),
        None => false,
    }
}

/// Whether it is a column that is never unique by an invariant.
fn is_never_unique(table: &Table, name: &Ident) -> bool
    ensures { result ≡ holds_of (column_meant (declaration_of table.now) name.now) (λ c. is_numdelta c.merge || is_key (declaration_of table.now) name.now) }
{
    let found = column_of(table, name);
    match found {
        Some(column) => is_numdelta(column.merge) || is_key(table, name),
        None => false,
    }
}

#[tactic(auto, using(crate::proofs::NotedLaws::noting))]
fn note_side(first: &mut First, table: &Table, side: &Option<Ident>)
    ensures { first.new.held ≡ noted first.old.held (side_faults (declaration_of table.now) side.now) }
{
    if let Some(name) = side {
        note_no_column(first, table, name);
        first.note_if(is_never_checked(table, name), name.spot, Code::Typing);
    }
}

/// The side that was written second.
fn second_side(check: &Check, hi: &Ident, lo: &Ident) -> Ident
    ensures { result ≡ second_side check.now hi.now lo.now }
{
    if is_same_place(hi.spot, check.spot) {
        *lo
    } else {
        *hi
    }
}

fn note_shape(first: &mut First, check: &Check)
    ensures { first.new.held ≡ noted first.old.held (shape_faults check.now check.now.hi check.now.lo) }
{
    match (&check.hi, &check.lo) {
        (None, None) => first.note_if(true, check.spot, Code::Typing),
        (Some(hi), Some(lo)) => first.note_if(
            is_named(hi, lo),
            second_side(check, hi, lo).spot,
            Code::Typing,
        ),
        _ => {}
    }
}

/// Notes what is wrong with a check.
#[tactic(auto, using(crate::proofs::NotedLaws::noting))]
pub fn note_check(first: &mut First, table: &Table, check: &Check)
    ensures { first.new.held ≡ noted first.old.held (check_faults (declaration_of table.now) check.now) }
{
    note_shape(first, check);
    note_side(first, table, &check.hi);
    note_side(first, table, &check.lo);
}

/// Notes what is wrong with a list.
#[tactic(auto, using(crate::proofs::NotedLaws::noting))]
pub fn note_list(first: &mut First, table: &Table, name: &Ident)
    ensures { first.new.held ≡ noted first.old.held (list_faults (declaration_of table.now) name.now) }
{
    note_no_column(first, table, name);
    first.note_if(is_never_listed(table, name), name.spot, Code::Typing);
}

/// Notes what is wrong with an invariant that a column is unique.
#[tactic(auto, using(crate::proofs::NotedLaws::noting))]
pub fn note_unique(first: &mut First, table: &Table, name: &Ident)
    ensures { first.new.held ≡ noted first.old.held (unique_faults (declaration_of table.now) name.now) }
{
    note_no_column(first, table, name);
    first.note_if(is_never_unique(table, name), name.spot, Code::Typing);
}
