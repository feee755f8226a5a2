//! Tests that are listed already.

ghost use Rattle.std.specs.Prelude.{◌≡◌, map};
ghost use Rattle.std.specs.List.{list_any};
ghost use Rattle.sv_linear.specs.Atoms.{is_never, same_terms, same_test};
ghost use Rattle.sv_linear.specs.Codes.{test_of};

use sv_linear::{Atom, Test};

fn same_terms(terms: &[(u8, i64)], others: &[(u8, i64)]) -> bool
    ensures { result ≡ same_terms terms.now others.now }
{
    match terms {
        [] => others.is_empty(),
        [t, ts @ ..] => match others {
            [] => false,
            [u, us @ ..] => t.0 == u.0 && t.1 == u.1 && same_terms(ts, us),
        },
    }
}

/// Whether both are one test.
fn same_test(test: &Test, other: &Test) -> bool
    ensures { result ≡ same_test (test_of test.now) (test_of other.now) }
{
    match (test, other) {
        (Test::AtMost { form: f, most: m }, Test::AtMost { form: g, most: n }) => {
            same_terms(f.terms.items(), g.terms.items()) && f.plus == g.plus && m == n
        }
        (Test::InList { sym: s, inv: i }, Test::InList { sym: t, inv: j }) => s == t && i == j,
        (Test::Never, Test::Never) => true,
        (Test::AtMost { .. }, Test::InList { .. } | Test::Never)
        | (Test::InList { .. }, Test::AtMost { .. } | Test::Never)
        | (Test::Never, Test::AtMost { .. } | Test::InList { .. }) => false,
    }
}

/// Whether one of the atoms has the test.
pub fn is_held(test: &Test, atoms: &[Atom]) -> bool
    ensures { result ≡ list_any (same_test (test_of test.now)) (map (λ a. test_of a.test) atoms.now) }
{
    match atoms {
        [] => false,
        [atom, rest @ ..] => same_test(test, &atom.test) || is_held(test, rest),
    }
}

/// Whether nothing meets it.
pub fn is_never(test: &Test) -> bool
    ensures { result ≡ is_never (test_of test.now) }
{
    match test {
        Test::Never => true,
        Test::AtMost { .. } | Test::InList { .. } => false,
    }
}
