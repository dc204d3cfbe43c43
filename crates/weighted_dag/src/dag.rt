ghost use Rattle.std.specs.Prelude.{◌↔◌, IsTrue};
ghost use Rattle.weighted_dag.specs.inner.SuccessorLists.{AreSuccessors};

use crate::number_list::NumberList;
use std::alloc::{AllocError, Global};
use std::marker::Model;

/// A weighted graph without cycles: its vertices are numbered from 0, and each edge leads to a
/// later vertex.
#[derive(Drop)]
pub struct Dag {
    weights: Vec<u64>,
    successors: Vec<NumberList>,
}

impl Model for Dag {
    ghost use Rattle.weighted_dag.specs.Graphs.{Graph, IsGraph};

    ghost Value = { Graph };

    ghost view = { λ d. record { weights = d.weights.items; successors = d.successors.items } };

    ghost invariant = { λ d.
        IsGraph (record { weights = d.weights.items; successors = d.successors.items }) };
}

impl Dag {
    ghost use Rattle.std.specs.Prelude.{◌≡◌, ◌^◌, ◌<◌, ◌↔◌, IsTrue, All, length, sum};
    ghost use Rattle.std.specs.Prelude.{IfOk, OnOk, OnErr};
    ghost use Rattle.weighted_dag.specs.Chains.{NoneIsLonger};
    ghost use Rattle.weighted_dag.specs.Graphs.{IsGraph, order_of, successors_of};
    ghost use Rattle.weighted_dag.specs.Graphs.{edgeless, with_edge, with_weights};

    /// Makes a graph with a vertex for each weight, by index, and no edge yet.
    pub fn new(alloc: Global, weights: Vec<u64>) -> Result<Dag, AllocError>
        requires { length weights.items < 2 ^ 32 }
        ensures { IfOk result (λ dag. dag ≡ edgeless weights.items) }
    {
        let count = weights.len();
        let mut successors = Vec::with_capacity(alloc, count)?;
        'vertices: for _ in 0..count {
            successors.push(NumberList::of(Vec::new(alloc)))?;
        }
        Ok(Dag {
            weights,
            successors,
        })
    }

    /// Makes a graph of finished lists of successors, one for each vertex. It takes no memory;
    /// `fits` tests what it requires.
    pub fn of(weights: Vec<u64>, successors: Vec<NumberList>) -> Dag
        requires { IsGraph (record { weights = weights.items; successors = successors.items }) }
        ensures { result ≡ record { weights = weights.items; successors = successors.items } }
    {
        Dag {
            weights,
            successors,
        }
    }

    /// Tells whether weights and lists of successors form a graph, as `of` requires: fewer than
    /// 2^32 weights, a list for each, and each list rises and has only later vertices.
    pub fn fits(weights: &[u64], successors: &[NumberList]) -> bool
        ensures { IsTrue result
            ↔ IsGraph (record { weights = weights.now; successors = successors.now }) }
    {
        let order = weights.len();
        if order >= 1 << 32 || successors.len() != order {
            return false;
        }
        'vertices: for (vertex, list) in successors.iter().enumerate() {
            if !are_successors(vertex, order, list.items()) {
                return false;
            }
        }
        true
    }

    /// Adds an edge. The successors of one vertex are added in rising order; those of different
    /// vertices may be mixed.
    pub fn edge(&mut self, from: u32, to: u32) -> Result<(), AllocError>
        requires later { from < to }
        requires within { to < order_of self.old }
        requires above { All (λ s. s < to) (successors_of self.old from) }
        ensures ok { OnOk result (self.new ≡ with_edge self.old from to) }
        ensures err { OnErr result (self.new ≡ self.old) }
        ensures form { IsGraph self.new }
    {
        let list = &mut self.successors[from as usize];
        list.push(to)?;
        Ok(())
    }

    /// Returns the weight of each vertex.
    pub fn weights(&self) -> &[u64]
        ensures weights { result.now ≡ self.now.weights }
        ensures form { IsGraph self.now }
    {
        self.weights.as_slice()
    }

    /// Adds up the weights. No chain is longer than this sum.
    pub fn total(&self) -> u128
        ensures sum { result ≡ sum self.now.weights }
        ensures none_longer { NoneIsLonger self.now result }
    {
        self.total_with(self.weights())
    }

    /// Adds up other weights for the same edges.
    pub(crate) fn total_with(&self, weights: &[u64]) -> u128
        requires { length weights.now ≡ order_of self.now }
        ensures sum { result ≡ sum weights.now }
        ensures none_longer { NoneIsLonger (with_weights self.now weights.now) result }
    {
        let mut total = 0;
        'vertices: for vertex in 0..self.weights.len() {
            total += u128::from(weights[vertex]);
        }
        total
    }

    /// Returns the vertices to which an edge leads from this one, in rising order.
    pub fn successors(&self, vertex: u32) -> &[u32]
        requires { vertex < order_of self.now }
        ensures successors { result.now ≡ successors_of self.now vertex }
        ensures form { IsGraph self.now }
    {
        let list = &self.successors[vertex as usize];
        list.items()
    }
}

/// Tells whether the list rises and has only later vertices of a graph with so many vertices.
fn are_successors(vertex: usize, order: usize, list: &[u32]) -> bool
    ensures { IsTrue result ↔ AreSuccessors vertex order list.now }
{
    let mut above = vertex;
    'successors: for successor in list {
        let successor = *successor as usize;
        if successor <= above || successor >= order {
            return false;
        }
        above = successor;
    }
    true
}
