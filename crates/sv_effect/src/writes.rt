//! Values after writes.

ghost use Rattle.std.specs.Prelude.{◌≡◌, ◌+ℤ◌, length, OnOk};
ghost use Rattle.sv_app.specs.declared.gots.Got.TheVariants as gots;
ghost use Rattle.sv_effect.specs.RunChanges.{written_got, with_write, with_writes};
ghost use Rattle.sv_effect.specs.RunValues.{column};
ghost use Rattle.sv_effect.specs.Room.{HasRoom, HaveRoom, IsWordWrite, AreWordWrites};

use crate::ops::Write;
use crate::values::{column, got_of, put_got};
use sv_app::Got;
use sv_value::NoMemory;

fn sum(number: i128, delta: i64) -> i128
    requires { HasRoom 1 (gots.Num number) }
    ensures { result ≡ number +ℤ delta }
{
    number + delta as i128
}

/// A value after a write.
fn written(write: &Write, old: &Got) -> Got
    requires { HasRoom 1 old.now }
    ensures value { result ≡ written_got write.now old.now }
    ensures word { IsWordWrite write.now }
{
    match (write, old) {
        (Write::Set(val), _) => got_of(val),
        (Write::Delta(delta), Got::Num(number)) => Got::Num(sum(*number, *delta)),
        (Write::Delta(delta), Got::Text(text)) => {
            let _delta = *delta;
            Got::Text(*text)
        }
    }
}

fn make_write(row: &mut Vec<Got>, col: u16, write: &Write) -> Result<(), NoMemory>
    requires { HasRoom 1 (column row.old.items col) }
    ensures value { OnOk result (row.new.items ≡ with_write (col, write.now) row.old.items) }
    ensures word { IsWordWrite write.now }
{
    let got = written(write, &column(row, col));
    put_got(row, col, &got)
}

/// Makes writes to the values of a row, one after the other. There is room for them.
#[tactic(auto, using(crate::proofs::RoomLaws::writing))]
pub fn make_writes(row: &mut Vec<Got>, writes: &[(u16, Write)]) -> Result<(), NoMemory>
    requires { HaveRoom (length writes.now) row.old.items }
    ensures value { OnOk result (row.new.items ≡ with_writes writes.now row.old.items) }
    ensures words { OnOk result (AreWordWrites writes.now) }
{
    match writes {
        [] => Ok(()),
        [(col, write), rest @ ..] => {
            make_write(row, *col, write)?;
            make_writes(row, rest)
        }
    }
}
