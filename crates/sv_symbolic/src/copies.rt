ghost use Rattle.std.specs.Prelude.{◌≡◌, pos, IfOk};
ghost use Rattle.sv_linear.specs.Codes.{form_of, sym_of, write_of};
ghost use Rattle.sv_linear.specs.Effects.{linear};
ghost use Rattle.sv_symbolic.specs.Sketches.{zero_form};

use std::alloc::Global;
use sv_linear::{Form, SymVal, SymWrite, number};
use sv_value::NoMemory;

/// The form of zero.
pub fn zero(alloc: Global) -> SymVal
    ensures { sym_of result ≡ zero_form }
{
    SymVal::Num(number(alloc, 0))
}

/// The form of an integer; a text counts as zero.
pub fn linear(alloc: Global, val: SymVal) -> Form
    ensures { form_of result ≡ linear (sym_of val) }
{
    match val {
        SymVal::Num(form) => form,
        SymVal::TextIs(_) | SymVal::TextSym(_) => number(alloc, 0),
    }
}

/// The same, of its own.
pub fn copied(alloc: Global, val: &SymVal) -> Result<SymVal, NoMemory>
    ensures { IfOk result (λ copy. sym_of copy ≡ sym_of val.now) }
{
    match val {
        SymVal::Num(form) => Ok(SymVal::Num(form.copied(alloc)?)),
        SymVal::TextIs(text) => Ok(SymVal::TextIs(*text)),
        SymVal::TextSym(number) => Ok(SymVal::TextSym(*number)),
    }
}

/// The same write, of its own.
pub fn copied_write(alloc: Global, write: &SymWrite) -> Result<SymWrite, NoMemory>
    ensures { IfOk result (λ copy. write_of copy ≡ write_of write.now) }
{
    match write {
        SymWrite::Delta(form) => Ok(SymWrite::Delta(form.copied(alloc)?)),
        SymWrite::Set(val) => Ok(SymWrite::Set(copied(alloc, val)?)),
    }
}
