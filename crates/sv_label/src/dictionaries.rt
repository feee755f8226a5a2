ghost use Rattle.std.specs.Prelude.{◌≡◌, ◌<◌, ◌≤◌, ◌&&◌, nat_eq, [], ◌∷◌, ◌++◌, length, None, Some, OnOk, OnErr, slice_get};
ghost use Rattle.std.specs.Option.{option_copied, option_map};
ghost use Rattle.indexmap.specs.IndexMap.{get};
ghost use Rattle.sv_label.specs.Groups.{found, added, entries, group_at};
ghost use Rattle.sv_label.specs.Stored.{groups_in};

use crate::templates::Template;
use indexmap::IndexMap;
use std::alloc::Global;
use std::marker::Model;
use sv_value::NoMemory;

type Templates = IndexMap<Vec<bool>, Template>;

/// Templates by transaction, unit and choices, in groups by transaction and unit. Groups, and the templates of a group,
/// stand in the order in which they were added. A look-up takes constant time and builds no key.
#[derive(Drop)]
pub struct Dictionary {
    alloc: Global,
    groups: IndexMap<(u16, u16), Templates>,
    entries: u32,
}

impl Model for Dictionary {
    ghost use Rattle.std.specs.Prelude.{List};
    ghost use Rattle.sv_label.specs.Groups.{Group};

    ghost Value = { List Group };

    ghost use Rattle.sv_label.specs.Stored.{groups_in, Keeps};

    ghost view = { λ d. groups_in d.groups.entries };

    ghost invariant = { λ d. Keeps (groups_in d.groups.entries) d.entries };
}

impl Dictionary {
    /// A dictionary without templates.
    pub fn new(alloc: Global) -> Dictionary
        ensures { result ≡ [] }
    {
        Dictionary {
            alloc,
            groups: IndexMap::new(alloc),
            entries: 0,
        }
    }

    /// Adds the template of a path, which has none yet. At most 8,192 templates stand. Without memory all stays as it was.
    pub fn add(
        &mut self,
        txn: u16,
        unit: u16,
        choices: &[bool],
        t: Template,
    ) -> Result<(), NoMemory>
        requires room { entries self.old < 8192 }
        requires absent { found self.old txn unit choices.now ≡ None }
        ensures added { OnOk result (self.new ≡ added self.old txn unit choices.now t) }
        ensures kept { OnErr result (self.new ≡ self.old) }
    {
        let choices = Vec::from_slice(self.alloc, choices)?;
        add_to(self.alloc, &mut self.groups, txn, unit, choices, t)?;
        self.entries += 1;
        Ok(())
    }

    /// The template of a path, if there is one.
    pub fn look(&self, txn: u16, unit: u16, choices: &[bool]) -> Option<&Template>
        ensures { option_copied result ≡ found self.now txn unit choices.now }
    {
        self.groups.get(&(txn, unit))?.get(choices)
    }

    /// How many templates there are.
    pub fn entries(&self) -> u32
        ensures is { result ≡ entries self.now }
        ensures few { result ≤ 8192 }
    {
        self.entries
    }

    /// How many groups there are.
    pub fn groups(&self) -> u32
        ensures { result ≡ length self.now }
    {
        self.groups.len() as u32
    }

    /// The transaction and the unit of a group, and how many templates it has.
    pub fn group(&self, g: u32) -> (u16, u16, u32)
        requires { g < length self.now }
        ensures txn { result.0 ≡ (group_at self.now g).txn }
        ensures unit { result.1 ≡ (group_at self.now g).unit }
        ensures count { result.2 ≡ length (group_at self.now g).templates }
    {
        match self.groups.get_index(g as usize) {
            None => unreachable!(),
            Some((unit, templates)) => (unit.0, unit.1, templates.len() as u32),
        }
    }

    /// The choices of a path, by the numbers of its group and of its place in it.
    pub fn choices(&self, g: u32, at: u32) -> &[bool]
        requires group { g < length self.now }
        requires at { at < length (group_at self.now g).templates }
        ensures { option_map (λ e. e.0) (slice_get (group_at self.now g).templates at) ≡ Some result.now }
    {
        self.entry(g, at).0.as_slice()
    }

    /// The template of a path, by the numbers of its group and of its place in it.
    pub fn template(&self, g: u32, at: u32) -> &Template
        requires group { g < length self.now }
        requires at { at < length (group_at self.now g).templates }
        ensures { option_map (λ e. e.1) (slice_get (group_at self.now g).templates at) ≡ Some result.now }
    {
        self.entry(g, at).1
    }

    fn entry(&self, g: u32, at: u32) -> (&Vec<bool>, &Template)
        requires group { g < length self.now }
        requires at { at < length (group_at self.now g).templates }
        ensures { slice_get (group_at self.now g).templates at ≡ Some (result.0.now.items, result.1.now) }
    {
        match self.groups.get_index(g as usize) {
            None => unreachable!(),
            Some((_, templates)) => match templates.get_index(at as usize) {
                None => unreachable!(),
                Some(entry) => entry,
            },
        }
    }
}

fn add_to(
    alloc: Global,
    groups: &mut IndexMap<(u16, u16), Templates>,
    txn: u16,
    unit: u16,
    choices: Vec<bool>,
    t: Template,
) -> Result<(), NoMemory>
    requires absent { found (groups_in groups.old.entries) txn unit choices.items ≡ None }
    ensures added { OnOk result (groups_in groups.new.entries ≡ added (groups_in groups.old.entries) txn unit choices.items t) }
    ensures kept { OnErr result (groups_in groups.new.entries ≡ groups_in groups.old.entries) }
{
    match groups.get_mut(&(txn, unit)) {
        Some(templates) => {
            templates.insert(choices, t)?;
            Ok(())
        }
        None => add_group(alloc, groups, txn, unit, choices, t),
    }
}

fn add_group(
    alloc: Global,
    groups: &mut IndexMap<(u16, u16), Templates>,
    txn: u16,
    unit: u16,
    choices: Vec<bool>,
    t: Template,
) -> Result<(), NoMemory>
    requires { get (λ a b. nat_eq a.0 b.0 && nat_eq a.1 b.1) groups.old (txn, unit) ≡ None }
    ensures added { OnOk result (groups_in groups.new.entries ≡ groups_in groups.old.entries ++ record { txn = txn; unit = unit; templates = (choices.items, t) ∷ [] } ∷ []) }
    ensures kept { OnErr result (groups_in groups.new.entries ≡ groups_in groups.old.entries) }
{
    let mut templates = IndexMap::new(alloc);
    templates.insert(choices, t)?;
    groups.insert((txn, unit), templates)?;
    Ok(())
}
