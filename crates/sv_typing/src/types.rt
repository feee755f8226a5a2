ghost use Rattle.std.specs.Prelude.{◌≡◌};
ghost use Rattle.sv_app.specs.Typing.{is_text, is_int, is_same_type, is_numdelta};

use sv_app::{Merge, Ty};

pub fn is_text(ty: Ty) -> bool
    ensures { result ≡ is_text ty }
{
    matches!(ty, Ty::Text)
}

pub fn is_int(ty: Ty) -> bool
    ensures { result ≡ is_int ty }
{
    matches!(ty, Ty::Int)
}

pub fn is_same_type(ty: Ty, other: Ty) -> bool
    ensures { result ≡ is_same_type ty other }
{
    match ty {
        Ty::Int => matches!(other, Ty::Int),
        Ty::Text => matches!(other, Ty::Text),
        Ty::Ints => matches!(other, Ty::Ints),
    }
}

pub fn is_numdelta(merge: Merge) -> bool
    ensures { result ≡ is_numdelta merge }
{
    matches!(merge, Merge::NumDelta)
}
