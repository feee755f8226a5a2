ghost use Rattle.std.specs.Prelude.{◌≡◌, ◌∷◌, IfOk, map, reverse};
ghost use Rattle.sv_app.specs.declared.apps.Ident.{Ident as IdentValue};
ghost use Rattle.sv_app.specs.Scopes.{parameter, updating};
ghost use Rattle.sv_app.specs.Scopes.{meaning_of as meant};
ghost use Rattle.sv_typing.specs.Standing.{scope_of, in_block};

use std::alloc::Global;
use sv_app::{Ident, Known, Meaning, Table, Ty, is_named};
use sv_value::NoMemory;

/// What stands around an expression: the tables, the names that may be used there, the latest first, and, behind `set`,
/// the table whose row is updated.
#[derive(Clone, Copy, Debug)]
pub struct Scope<'a> {
    pub tables: &'a [Table],
    pub known: &'a [Known],
    pub updated: Option<Ident>,
}

impl<'a> Scope<'a> {
    /// Outside the expressions behind `set`, where these names may be used.
    pub fn in_block(tables: &'a [Table], known: &'a [Known]) -> Scope<'a>
        ensures { scope_of result ≡ in_block tables.now known.now }
    {
        Scope {
            tables,
            known,
            updated: None,
        }
    }

    /// Behind `set`, in an update of the table of that name.
    pub fn updating(&self, table: Ident) -> Scope<'a>
        ensures { scope_of result ≡ updating (scope_of self.now) table }
    {
        Scope {
            tables: self.tables,
            known: self.known,
            updated: Some(table),
        }
    }
}

/// What the name stands for.
#[tactic(auto, using(crate::proofs::LookupLaws::finds))]
pub fn meaning_of(at: &Scope, name: &Ident) -> Option<Meaning>
    ensures { result ≡ meant (scope_of at.now) name.now }
{
    for known in at.known {
        if is_named(&known.name, name) {
            return Some(known.meaning);
        }
    }
    None
}

/// The names that may be used behind a declaration.
pub fn with_name(
    alloc: Global,
    known: &[Known],
    name: Ident,
    meaning: Meaning,
) -> Result<Vec<Known>, NoMemory>
    ensures { IfOk result (λ more. more.items ≡ record { name = name; meaning = meaning } ∷ known.now) }
{
    let mut more = Vec::new(alloc);
    more.push(Known { name, meaning })?;
    more.extend_from_slice(known)?;
    Ok(more)
}

/// The parameters, the latest first.
pub fn known_parameters(alloc: Global, params: &[(Ident, Ty)]) -> Result<Vec<Known>, NoMemory>
    ensures { IfOk result (λ known. known.items ≡ reverse (map parameter params.now)) }
{
    let mut known = Vec::new(alloc);
    for (name, ty) in params {
        known.insert(
            0,
            Known {
                name: *name,
                meaning: Meaning::Parameter(*ty),
            },
        )?;
    }
    Ok(known)
}
