ghost use Rattle.std.specs.Prelude.{◌≡◌, ◌≤◌, length, IfSome, slice_get};
ghost use Rattle.sv_app.specs.Schema.{declaration_of, schema_of};
ghost use Rattle.sv_symbolic.specs.States.{declared};

use crate::settings::Setting;
use sv_app::Table;

fn found_table(tables: &[Table], number: u16) -> Option<&Table>
    ensures { slice_get (schema_of tables.now) number ≡ declared result }
{
    tables.get(number as usize)
}

/// The table of that number.
pub fn table_at<'a>(setting: &Setting<'a>, number: u16) -> Option<&'a Table>
    ensures table { slice_get (schema_of setting.now.tables.now) number ≡ declared result }
    ensures narrow { IfSome result (λ table. length (declaration_of table.now).columns ≤ 16) }
{
    found_table(setting.tables, number)
}
