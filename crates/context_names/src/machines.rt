ghost use Rattle.std.specs.Prelude.{◌≡◌, ◌++◌, ◌∷◌, [], if◌then◌else◌, is_some, length, map, position};
ghost use Rattle.std.specs.Prelude.{IfOk, OnOk};
ghost use Rattle.std.specs.List.{list_any};
ghost use Rattle.std.specs.Option.{option_copied};
ghost use Rattle.std.specs.Str.{bytes_eq};
ghost use Rattle.span_names.specs.Names.{base_of, most_of_event};
ghost use Rattle.span_requests.specs.SpansOnce.{lent_spans};
ghost use Rattle.context_names.specs.Machines.{AreNamed, HaveMachines, has_machine, machine_name};
ghost use Rattle.context_names.specs.Machines.{machines_of};
ghost use Rattle.context_names.specs.inner.Keys.{lent_bases};

use crate::numbers::{make_names, number_bases};
use call_trees::order_by;
use indexmap::IndexSet;
use span_names::make_base;
use span_types::Span;
use std::alloc::{AllocError, Global};
use std::marker::Model;
use trace_types::Text;

/// The most bytes of the base of a machine.
const MOST: usize = 48;

/// Machines and their names.
#[derive(Debug, Drop)]
pub struct MachineNames<'a> {
    machines: IndexSet<&'a str>,
    names: Vec<Text>,
}

impl<'a> Model for MachineNames<'a> {
    ghost use Rattle.std.specs.Prelude.{◌≡◌, length};
    ghost use Rattle.context_names.specs.Machines.{MachineNames as Names};
    ghost use Rattle.context_names.specs.inner.Keys.{lent_bases};

    ghost Value = { Names };

    ghost view = { λ a. record { machines = lent_bases a.machines.keys; names = a.names.items } };

    ghost invariant = { λ a. length a.names.items ≡ length a.machines.keys };
}

impl MachineNames<'_> {
    /// Finds where a machine stands among the machines.
    fn find(&self, machine: &str) -> Option<usize>
        ensures { result ≡ position (bytes_eq machine.now) self.now.machines }
    {
        self.machines.get_index_of(&machine)
    }

    /// Lends the name of a machine, if it is among the machines.
    pub fn name(&self, machine: &str) -> Option<&Text>
        ensures name { option_copied result ≡ machine_name self.now machine.now }
        ensures found { is_some result ≡ has_machine self.now machine.now }
    {
        match self.find(machine) {
            Some(index) => self.names.get(index),
            None => None,
        }
    }
}

/// Puts a machine last, if it is new.
fn put_machine<'a>(machines: &mut IndexSet<&'a str>, machine: &'a str) -> Result<(), AllocError>
    ensures { OnOk result (lent_bases machines.new.keys
        ≡ (if list_any (bytes_eq machine.now) (lent_bases machines.old.keys)
        then lent_bases machines.old.keys
        else lent_bases machines.old.keys ++ machine.now ∷ [])) }
{
    machines.insert(machine)?;
    Ok(())
}

/// Gives the machines of spans, each once.
fn find_machines<'a>(alloc: Global, spans: &[&'a Span]) -> Result<IndexSet<&'a str>, AllocError>
    ensures { IfOk result
        (λ machines. lent_bases machines.keys ≡ machines_of (lent_spans spans.now)) }
{
    let mut machines = IndexSet::new(alloc);
    for span in spans {
        put_machine(&mut machines, span.machine.as_str())?;
    }
    Ok(machines)
}

/// Makes the base of the name of a machine.
fn machine_base(alloc: Global, machine: &str) -> Result<Text, AllocError>
    ensures { IfOk result (λ base. base ≡ base_of most_of_event machine.now) }
{
    let base = make_base(alloc, machine, MOST)?;
    Text::new(alloc, base.as_str())
}

/// Makes the bases of the names of machines.
fn machine_bases(alloc: Global, machines: &[&str]) -> Result<Vec<Text>, AllocError>
    ensures { IfOk result (λ bases.
        bases.items ≡ map (base_of most_of_event) (lent_bases machines.now)) }
{
    let mut bases = Vec::with_capacity(alloc, machines.len())?;
    for machine in machines {
        bases.push(machine_base(alloc, *machine)?)?;
    }
    Ok(bases)
}

/// Makes the names of machines.
fn make_machine_names(alloc: Global, machines: &[&str]) -> Result<Vec<Text>, AllocError>
    ensures names { IfOk result (λ names. AreNamed (lent_bases machines.now) names.items) }
    ensures size { IfOk result (λ names. length names.items ≡ length machines.now) }
{
    let order = order_by(alloc, machines)?;
    let bases = machine_bases(alloc, machines)?;
    let numbers = number_bases(alloc, &order, &bases)?;
    make_names(alloc, &bases, &numbers)
}

/// Names the machines of spans; those with one base are numbered in the order of their own names.
/// The only error is out of memory.
pub fn name_machines<'a>(alloc: Global, spans: &[&'a Span]) -> Result<MachineNames<'a>, AllocError>
    ensures machines { IfOk result
        (λ named. named.machines ≡ machines_of (lent_spans spans.now)) }
    ensures names { IfOk result (λ named. AreNamed (machines_of (lent_spans spans.now)) named.names) }
    ensures known { IfOk result (λ named. HaveMachines named (lent_spans spans.now)) }
{
    let machines = find_machines(alloc, spans)?;
    let names = make_machine_names(alloc, machines.as_slice())?;
    Ok(MachineNames { machines, names })
}
