//! Linear forms: sums, differences and multiples, those that leave 64 bits, and values on tapes.
use std::alloc::Global;
use std::test::Fail;
use sv_linear::{Form, FormStop, add, number, scale, sub, symbol, value};
use sv_value::{Text, Val};

/// Symbols with their coefficients.
pub type Terms = &'static [(u8, i64)];

/// The form of these terms and this constant.
pub fn form(alloc: Global, terms: &[(u8, i64)], plus: i64) -> Result<Form, FormStop> {
    let mut sum = number(alloc, plus);
    for (k, by) in terms {
        if *k == 0 {
            continue;
        }
        let one = symbol(alloc, *k)?;
        let term = scale(alloc, &one, *by)?;
        sum = add(alloc, &sum, &term)?;
    }
    Ok(sum)
}

/// What is done to the form: another is added or subtracted, or it is taken so many times.
#[derive(Clone, Copy, Debug)]
enum Step {
    Add(Terms, i64),
    Sub(Terms, i64),
    Scale(i64),
}

use Step::{Add, Scale, Sub};

fn done(alloc: Global, a: &Form, step: Step) -> Result<Form, FormStop> {
    match step {
        Add(terms, plus) => add(alloc, a, &form(alloc, terms, plus)?),
        Sub(terms, plus) => sub(alloc, a, &form(alloc, terms, plus)?),
        Scale(by) => scale(alloc, a, by),
    }
}

#[test]
fn forms_are_combined(rt: HostRuntime) -> Result<(), Fail> {
    let cases: [(Terms, i64, Step, Terms, i64); 8] = [
        (&[(1, 2)], 5, Add(&[(2, 3)], -7), &[(1, 2), (2, 3)], -2),
        (&[(2, 3)], 5, Add(&[(1, 2)], 0), &[(1, 2), (2, 3)], 5),
        (
            &[(1, 2), (3, 4)],
            0,
            Add(&[(1, -2), (3, 1)], 0),
            &[(3, 5)],
            0,
        ),
        (
            &[(1, 2), (2, 1)],
            1,
            Sub(&[(1, 2), (3, 1)], 1),
            &[(2, 1), (3, -1)],
            0,
        ),
        (&[(255, 1)], 0, Sub(&[(255, 1)], 9), &[], -9),
        (&[(1, 2), (2, -3)], 4, Scale(-1), &[(1, -2), (2, 3)], -4),
        (&[(1, 2), (2, -3)], 4, Scale(0), &[], 0),
        (
            &[(1, i64::MAX)],
            i64::MIN,
            Add(&[(1, i64::MIN)], i64::MAX),
            &[(1, -1)],
            -1,
        ),
    ];
    for (terms, plus, step, wanted, constant) in cases {
        let a = form(rt.alloc(), terms, plus)?;
        let found = done(rt.alloc(), &a, step)?;
        assert_eq!(rt; found.terms.items(), wanted, "{terms:?} {plus} {step:?}");
        assert_eq!(rt; found.plus, constant, "{terms:?} {plus} {step:?}");
    }
    Ok(())
}

#[test]
fn wide_numbers_are_refused(rt: HostRuntime) -> Result<(), Fail> {
    let cases: [(Terms, i64, Step); 10] = [
        (&[(1, i64::MAX)], 0, Scale(2)),
        (&[(1, i64::MIN)], 0, Scale(-1)),
        (&[], i64::MIN, Scale(-1)),
        (&[], i64::MAX, Scale(2)),
        (&[(1, i64::MAX)], 0, Add(&[(1, 1)], 0)),
        (&[(1, i64::MIN)], 0, Sub(&[(1, 1)], 0)),
        (&[(1, 1)], 0, Sub(&[(2, i64::MIN)], 0)),
        (&[], i64::MAX, Add(&[], 1)),
        (&[], i64::MIN, Add(&[], -1)),
        (&[], 0, Sub(&[], i64::MIN)),
    ];
    for (terms, plus, step) in cases {
        let a = form(rt.alloc(), terms, plus)?;
        let stop = done(rt.alloc(), &a, step).err();
        assert_eq!(rt; stop, Some(FormStop::Wide), "{terms:?} {plus} {step:?}");
    }
    Ok(())
}

/// The third place of the tape holds a text, and there is no fourth.
#[test]
fn forms_have_values_on_a_tape(rt: HostRuntime) -> Result<(), Fail> {
    let text = Val::Text(Text::new(b"a").ok_or("no text")?);
    let tape = [Val::Int(10), Val::Int(i64::MIN), text];
    let cases: [(Terms, i64, i128); 6] = [
        (&[], -3, -3),
        (&[(1, 2)], 5, 25),
        (&[(1, 2), (2, 1)], 0, -9_223_372_036_854_775_788),
        (&[(2, 2)], -1, -18_446_744_073_709_551_617),
        (&[(1, 1), (3, 7)], 1, 11),
        (&[(4, 7)], 1, 1),
    ];
    for (terms, plus, wanted) in cases {
        let f = form(rt.alloc(), terms, plus)?;
        assert_eq!(rt; value(&f, &tape), wanted, "{terms:?} {plus}");
    }
    Ok(())
}
