//! What a run means, as a plain program: it works on a list of rows of its own, and asks for none.
use crate::halts::{End, Halted};
use crate::plain_changes::{fresh, insert, present_row, remove, update};
use crate::plain_needs::needs;
use crate::plain_rows::{PlainRow, copied, find_present, present_keys};
use crate::plain_states::{Machine, Progress};
use crate::plain_values::{holds, key_of, value, values};
use std::alloc::Global;
use std::mem::replace;
use sv_app::{App, Arg, Cond, Expr, Instance, Parts, Place, Request, Stmt, Table, Txn, parts_of};
use sv_effect::{Outcome, Ran};
use sv_value::{Key, List, NoMemory, Spot, Val};

/// What a run comes to, and the rows that it leaves, none where it isn't done.
#[derive(Drop)]
pub struct PlainRun {
    pub ran: Ran,
    pub rows: Vec<PlainRow>,
}

/// The most values of a reply.
const MOST_REPLIES: usize = 16;

/// Where the variables of loops stand, in the order of the text.
#[cycle(looping)]
#[tactic(auto, using(sv_app::proofs::Trees::weight_at))]
fn put_loops(spots: &mut Vec<Spot>, stmts: &[Stmt]) -> Result<(), NoMemory> {
    for stmt in stmts {
        put_loops_in(spots, stmt)?;
    }
    Ok(())
}

#[cycle(looping)]
#[tactic(auto, using(sv_app::proofs::Trees::weight_at))]
fn put_loops_in(spots: &mut Vec<Spot>, stmt: &Stmt) -> Result<(), NoMemory> {
    match parts_of(stmt) {
        Parts::If { yes, no, .. } => {
            put_loops(spots, yes)?;
            put_loops(spots, no)
        }
        Parts::Rows { row, body, .. } => {
            spots.push(row.spot)?;
            put_loops(spots, body)
        }
        Parts::Each { var, body, .. } => {
            spots.push(var.spot)?;
            put_loops(spots, body)
        }
        _ => Ok(()),
    }
}

/// The variables that statements assign, on any branch.
#[cycle(assigning)]
#[tactic(auto, using(sv_app::proofs::Trees::weight_at))]
fn put_assigned(numbers: &mut Vec<u16>, stmts: &[Stmt]) -> Result<(), NoMemory> {
    for stmt in stmts {
        put_assigned_in(numbers, stmt)?;
    }
    Ok(())
}

#[cycle(assigning)]
#[tactic(auto, using(sv_app::proofs::Trees::weight_at))]
fn put_assigned_in(numbers: &mut Vec<u16>, stmt: &Stmt) -> Result<(), NoMemory> {
    match parts_of(stmt) {
        Parts::Assign { var, .. } => {
            numbers.push(var.num)?;
            Ok(())
        }
        Parts::If { yes, no, .. } => {
            put_assigned(numbers, yes)?;
            put_assigned(numbers, no)
        }
        Parts::Rows { body, .. } | Parts::Each { body, .. } => put_assigned(numbers, body),
        _ => Ok(()),
    }
}

/// The number of the unit of the loop whose variable stands at that place.
fn unit_of(alloc: Global, whole: &[Stmt], spot: &Spot) -> Result<u16, NoMemory> {
    let mut spots = Vec::new(alloc);
    put_loops(&mut spots, whole)?;
    let mut unit: u16 = 1;
    for other in &spots {
        if *other == *spot {
            return Ok(unit);
        }
        unit = unit.checked_add(1).ok_or(NoMemory)?;
    }
    Ok(unit)
}

/// Begins an instance, and answers the one around it.
fn begin(alloc: Global, machine: &mut Machine, unit: u16) -> Result<Progress, NoMemory> {
    let Ok(earlier) = u32::try_from(machine.instances.len()) else {
        return Err(NoMemory);
    };
    let number = earlier.checked_add(1).ok_or(NoMemory)?;
    Ok(replace(&mut machine.progress, Progress::new(alloc, unit, number)))
}

/// After a loop the variables that it assigns have new sources.
fn leave_loop(alloc: Global, machine: &mut Machine, body: &[Stmt]) -> Result<(), NoMemory> {
    let mut assigned = Vec::new(alloc);
    put_assigned(&mut assigned, body)?;
    machine.renew(&assigned);
    Ok(())
}

/// Those of the keys whose rows meet the condition.
fn met_keys(
    alloc: Global,
    machine: &mut Machine,
    row: u16,
    table: u16,
    cond: &Option<Cond>,
    keys: &[Key],
) -> Result<Vec<Key>, Halted> {
    let Some(cond) = cond else {
        return Ok(Vec::from_slice(alloc, keys)?);
    };
    let mut met = Vec::new(alloc);
    for key in keys {
        let found = present_row(alloc, machine, &Place { table, key: *key })?;
        machine.bound.insert(0, (row, found.values))?;
        if holds(machine, cond)? {
            met.push(*key)?;
        }
    }
    Ok(met)
}

/// The keys of the rows that a loop walks, as they stand before it.
fn walked(
    alloc: Global,
    machine: &mut Machine,
    row: u16,
    table: u16,
    cond: &Option<Cond>,
) -> Result<Vec<Key>, Halted> {
    let keys = present_keys(alloc, &machine.rows, table)?;
    machine.quiet = true;
    let met = met_keys(alloc, machine, row, table, cond, &keys)?;
    machine.quiet = false;
    Ok(met)
}

fn elements(machine: &Machine, alloc: Global, list: u16) -> Result<List<i64>, NoMemory> {
    for (number, items) in &machine.lists {
        if *number == list {
            return items.copied(alloc);
        }
    }
    Ok(List::new(alloc))
}

fn table_of(tables: &[Table], number: u16) -> Result<&Table, Halted> {
    tables.get(number as usize).ok_or(Halted::NoMemory)
}

fn get(
    alloc: Global,
    machine: &mut Machine,
    row: u16,
    table: u16,
    key: &[Expr],
) -> Result<(), Halted> {
    let key = key_of(&values(alloc, machine, key)?);
    let found = present_row(alloc, machine, &Place { table, key })?;
    machine.bound.insert(0, (row, found.values))?;
    Ok(())
}

fn assign(machine: &mut Machine, number: u16, expr: &Expr) -> Result<(), Halted> {
    let val = value(machine, expr)?;
    machine.assign(number, val)?;
    Ok(())
}

fn reply(machine: &mut Machine, expr: &Expr) -> Result<(), Halted> {
    let val = value(machine, expr)?;
    if machine.replies.len() >= MOST_REPLIES {
        return Err(Halted::Ended(End::TooLarge));
    }
    machine.replies.push(val)?;
    Ok(())
}

/// Runs statements in order.
#[cycle(run)]
#[tactic(auto, using(sv_app::proofs::Trees::weight_at))]
fn run_block(
    alloc: Global,
    tables: &[Table],
    whole: &[Stmt],
    machine: &mut Machine,
    stmts: &[Stmt],
) -> Result<(), Halted> {
    for stmt in stmts {
        run_stmt(alloc, tables, whole, machine, stmt)?;
    }
    Ok(())
}

#[cycle(run)]
#[tactic(auto, using(sv_app::proofs::Trees::weight_at))]
fn run_stmt(
    alloc: Global,
    tables: &[Table],
    whole: &[Stmt],
    machine: &mut Machine,
    stmt: &Stmt,
) -> Result<(), Halted> {
    match parts_of(stmt) {
        Parts::If { cond, yes, no } => {
            if holds(machine, cond)? {
                run_block(alloc, tables, whole, machine, yes)
            } else {
                run_block(alloc, tables, whole, machine, no)
            }
        }
        Parts::Rows {
            row,
            table,
            cond,
            body,
        } => {
            let unit = unit_of(alloc, whole, &row.spot)?;
            let keys = walked(alloc, machine, row.num, table.num, cond)?;
            run_for(
                alloc, tables, whole, machine, unit, row.num, table.num, &keys, body,
            )
        }
        Parts::Each { var, list, body } => {
            let unit = unit_of(alloc, whole, &var.spot)?;
            let items = elements(machine, alloc, list.num)?;
            run_each(
                alloc,
                tables,
                whole,
                machine,
                unit,
                var.num,
                items.items(),
                body,
            )
        }
        _ => run_simple(alloc, tables, machine, stmt),
    }
}

/// A statement without blocks.
fn run_simple(
    alloc: Global,
    tables: &[Table],
    machine: &mut Machine,
    stmt: &Stmt,
) -> Result<(), Halted> {
    match parts_of(stmt) {
        Parts::Let { var, value } => assign(machine, var.num, value),
        Parts::Assign { var, value } => assign(machine, var.num, value),
        Parts::Get { row, table, key } => get(alloc, machine, row.num, table.num, key),
        Parts::Insert { table, values } => {
            insert(
                alloc,
                machine,
                table_of(tables, table.num)?,
                table.num,
                values,
            )
        }
        Parts::Fresh { var, table, values } => {
            fresh(
                alloc,
                machine,
                table_of(tables, table.num)?,
                table.num,
                var.num,
                values,
            )
        }
        Parts::Update { table, key, sets } => {
            update(
                alloc,
                machine,
                table_of(tables, table.num)?,
                table.num,
                key,
                sets,
            )
        }
        Parts::Remove { table, key } => remove(alloc, machine, table.num, key),
        Parts::Abort { code } => Err(Halted::Ended(End::Abort(code))),
        Parts::Reply(expr) => reply(machine, expr),
        _ => Ok(()),
    }
}

/// Runs a loop over the rows of these keys; one that is no longer present is skipped.
#[cycle(run)]
fn run_for(
    alloc: Global,
    tables: &[Table],
    whole: &[Stmt],
    machine: &mut Machine,
    unit: u16,
    row: u16,
    table: u16,
    keys: &[Key],
    body: &[Stmt],
) -> Result<(), Halted> {
    for key in keys {
        let place = Place { table, key: *key };
        if find_present(&machine.rows, &place).is_some() {
            let found = present_row(alloc, machine, &place)?;
            let outer = begin(alloc, machine, unit)?;
            machine.bound.insert(0, (row, found.values))?;
            run_block(alloc, tables, whole, machine, body)?;
            machine.close(outer)?;
        }
    }
    leave_loop(alloc, machine, body)?;
    Ok(())
}

/// Runs a loop over the elements of a list.
#[cycle(run)]
fn run_each(
    alloc: Global,
    tables: &[Table],
    whole: &[Stmt],
    machine: &mut Machine,
    unit: u16,
    var: u16,
    items: &[i64],
    body: &[Stmt],
) -> Result<(), Halted> {
    for item in items {
        let outer = begin(alloc, machine, unit)?;
        machine.variables.insert(0, (var, Val::Int(*item)))?;
        run_block(alloc, tables, whole, machine, body)?;
        machine.close(outer)?;
    }
    leave_loop(alloc, machine, body)?;
    Ok(())
}

/// Gives a parameter its value or its list.
fn take(alloc: Global, machine: &mut Machine, number: u16, arg: &Arg) -> Result<(), NoMemory> {
    match arg {
        Arg::Int(given) => machine.variables.insert(0, (number, Val::Int(*given)))?,
        Arg::Text(text) => machine.variables.insert(0, (number, Val::Text(*text)))?,
        Arg::Ints(items) => machine.lists.push((number, items.copied(alloc)?))?,
    }
    Ok(())
}

/// Where a run begins.
fn start(
    alloc: Global,
    txn: &Txn,
    args: &[Arg],
    first: i64,
    rows: &[PlainRow],
) -> Result<Machine, NoMemory> {
    let mut machine = Machine {
        first,
        rows: copied(alloc, rows)?,
        variables: Vec::new(alloc),
        bound: Vec::new(alloc),
        lists: Vec::new(alloc),
        old: Vec::new(alloc),
        progress: Progress::new(alloc, 0, 0),
        quiet: false,
        effects: List::new(alloc),
        replies: List::new(alloc),
        instances: List::new(alloc),
    };
    for (at, arg) in args.iter().enumerate() {
        if let Some((name, _)) = txn.params.get(at) {
            take(alloc, &mut machine, name.num, arg)?;
        }
    }
    Ok(machine)
}

/// What a run comes to that wasn't ended before its last statement.
fn done(alloc: Global, tables: &[Table], machine: Machine) -> Result<PlainRun, NoMemory> {
    let Machine {
        rows,
        progress,
        effects,
        replies,
        instances,
        ..
    } = machine;
    let needs = needs(alloc, tables, effects.items())?;
    let mut trace = instances.into_vec();
    trace.insert(
        0,
        Instance {
            unit: progress.unit,
            choices: progress.choices,
            tape: progress.tape,
        },
    )?;
    let ran = Ran {
        outcome: Outcome::Done(replies),
        effects,
        needs,
        trace: List::from_vec(trace),
    };
    Ok(PlainRun { ran, rows })
}

/// What a run comes to that was ended: nothing but its outcome.
fn ended(alloc: Global, end: End) -> PlainRun {
    let outcome = match end {
        End::Abort(code) => Outcome::Abort(code),
        End::NoRow => Outcome::NoRow,
        End::Exists => Outcome::Exists,
        End::Range => Outcome::Range,
        End::TooLarge => Outcome::TooLarge,
    };
    let ran = Ran {
        outcome,
        effects: List::new(alloc),
        needs: List::new(alloc),
        trace: List::new(alloc),
    };
    PlainRun {
        ran,
        rows: Vec::new(alloc),
    }
}

/// Runs the transaction of a request, with this first key, on a copy of the rows.
pub fn run(
    alloc: Global,
    app: &App,
    request: &Request,
    first: i64,
    rows: &[PlainRow],
) -> Result<PlainRun, NoMemory> {
    let txn = app.txns.get(request.txn as usize).ok_or(NoMemory)?;
    let mut machine = start(alloc, txn, request.args.items(), first, rows)?;
    match run_block(alloc, &app.tables, &txn.body, &mut machine, &txn.body) {
        Ok(()) => done(alloc, &app.tables, machine),
        Err(Halted::Ended(end)) => Ok(ended(alloc, end)),
        Err(Halted::NoMemory) => Err(NoMemory),
    }
}
