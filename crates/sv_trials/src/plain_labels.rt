//! The label of a run's changes, with plain loops: each instance, each of its changes, each reason.
use std::alloc::Global;
use sv_app::{App, Reason};
use sv_effect::RowEffect;
use sv_plain_threats::is_threatened;
use sv_threat::Label;
use sv_value::NoMemory;

/// The numbers of all invariants.
fn numbers(alloc: Global, app: &App) -> Result<Vec<u16>, NoMemory> {
    let mut numbers = Vec::new(alloc);
    for table in &app.tables {
        for inv in &table.invs {
            numbers.push(inv.number)?;
        }
    }
    Ok(numbers)
}

/// The reasons that there could be, in their order.
fn all_reasons(alloc: Global, app: &App) -> Result<Vec<Reason>, NoMemory> {
    let numbers = numbers(alloc, app)?;
    let mut reasons = Vec::new(alloc);
    reasons.push(Reason::Plain)?;
    for number in &numbers {
        reasons.push(Reason::Unique(*number))?;
    }
    for number in &numbers {
        reasons.push(Reason::Child(*number))?;
    }
    for number in &numbers {
        reasons.push(Reason::Parent(*number))?;
    }
    for number in &numbers {
        reasons.push(Reason::Check(*number))?;
    }
    for number in &numbers {
        reasons.push(Reason::List(*number))?;
    }
    Ok(reasons)
}

/// The first reason that threatens the change.
fn first_reason(
    alloc: Global,
    app: &App,
    change: &RowEffect,
    reach: u8,
) -> Result<Option<Reason>, NoMemory> {
    for reason in &all_reasons(alloc, app)? {
        if is_threatened(alloc, app, change, *reason, reach)? {
            return Ok(Some(*reason));
        }
    }
    Ok(None)
}

/// The place of the first change of the instance that is threatened, and its first reason.
fn first_in(
    alloc: Global,
    app: &App,
    changes: &[RowEffect],
    instance: u32,
    reach: u8,
) -> Result<Option<(u32, Reason)>, NoMemory> {
    let mut place: u32 = 0;
    for change in changes {
        if change.instance == instance {
            place = place.saturating_add(1);
            if let Some(reason) = first_reason(alloc, app, change, reach)? {
                return Ok(Some((place, reason)));
            }
        }
    }
    Ok(None)
}

/// The greatest instance of the changes.
fn last_instance(changes: &[RowEffect]) -> u32 {
    changes
        .iter()
        .map(|change| change.instance)
        .max()
        .unwrap_or(0)
}

/// The label of the changes, where numbers of a row beyond `reach` aren't tried.
pub fn label(
    alloc: Global,
    app: &App,
    changes: &[RowEffect],
    reach: u8,
) -> Result<Label, NoMemory> {
    if changes.is_empty() {
        return Ok(Label::Nothing);
    }
    for instance in 0..=last_instance(changes) {
        if let Some((place, reason)) = first_in(alloc, app, changes, instance, reach)? {
            return Ok(Label::Red {
                instance,
                place,
                reason,
            });
        }
    }
    Ok(Label::Blue)
}
