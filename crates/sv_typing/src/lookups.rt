ghost use Rattle.std.specs.Prelude.{◌≡◌, MatchOption};
ghost use Rattle.std.specs.Prelude.{None as none, Some as some};
ghost use Rattle.sv_app.specs.Lookups.{column_of, table_of};
ghost use Rattle.sv_app.specs.Schema.{declaration_of, schema_of};

use sv_app::{Column, Ident, Table, is_named};

/// The first column of that name.
#[tactic(auto, using(crate::proofs::LookupLaws::finds))]
pub fn column_of(table: &Table, name: &Ident) -> Option<Column>
    ensures { result ≡ column_of (declaration_of table.now) name.now }
{
    for column in &table.columns {
        if is_named(&column.name, name) {
            return Some(*column);
        }
    }
    None
}

/// The first table of that name.
#[tactic(auto, using(crate::proofs::LookupLaws::finds))]
pub fn table_of<'a>(tables: &'a [Table], name: &Ident) -> Option<&'a Table>
    ensures { MatchOption result (table_of (schema_of tables.now) name.now ≡ none) (λ table. table_of (schema_of tables.now) name.now ≡ some (declaration_of table.now)) }
{
    for table in tables {
        if is_named(&table.name, name) {
            return Some(table);
        }
    }
    None
}
