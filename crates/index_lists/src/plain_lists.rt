//! The store of lists that runs use: one vector of nodes, list by list.

ghost use Rattle.std.specs.Prelude.{◌≡◌, ℕ, ◌+◌, ◌-◌, ◌^◌, ◌++◌, ◌<◌, ◌≤◌, ◌==◌, length, drop};
ghost use Rattle.std.specs.Prelude.{replicate, sum, slice_get, vec_capacity, Some, None};
ghost use Rattle.std.specs.Prelude.{if◌then◌else◌};
ghost use Rattle.std.specs.List.{insert};
ghost use Rattle.index_lists.specs.Lists.{times, IsFree, AreLists, AreSame, node_pushed};
ghost use Rattle.index_lists.specs.Inside.Parts.{lists_of_parts, part};

use crate::store::ListStore;
use board_text::Memory;
use std::alloc::Global;
use std::marker::Model;

/// The nodes of all lists in one vector, list by list, and beside it the length of each list.
///
/// If lists are filled in ascending order, a push writes four bytes at the end and counts them. The
/// nodes of a list stand next to each other, so that they are copied as one block. To go from a
/// node to another is to look for it.
#[derive(Drop)]
pub struct PlainLists {
    /// The nodes of list 0, then those of list 1, and so on.
    nodes: Vec<u32>,
    /// The length of each list, up to the last that ever had a node.
    lens: Vec<u32>,
    node_count: u32,
    list_count: u32,
}

impl Model for PlainLists {
    ghost use Rattle.std.specs.Prelude.{vec_capacity};
    ghost use Rattle.index_lists.specs.Parts.{PlainParts};
    ghost use Rattle.index_lists.specs.Inside.Parts.{parts_of, ArePlain, AreCut};

    ghost Value = { PlainParts };

    ghost view = { λ s. record {
      nodes = s.node_count;
      lists = s.list_count;
      parts = parts_of s.lens.items s.nodes.items;
    } };

    ghost invariant = { λ s.
        ArePlain (record {
          nodes = s.node_count;
          lists = s.list_count;
          parts = parts_of s.lens.items s.nodes.items;
        })
        × AreCut s.node_count s.list_count (vec_capacity s.nodes)
        (vec_capacity s.lens) s.lens.items s.nodes.items };
}

impl ListStore for PlainLists {
    ghost state = { lists_of_parts };

    fn new(alloc: Global, node_count: u32, list_count: u32) -> Result<Self, Memory> {
        let nodes = Vec::with_capacity(alloc, node_count as usize)?;
        let lens = Vec::with_capacity(alloc, list_count as usize)?;
        Ok(PlainLists {
            nodes,
            lens,
            node_count,
            list_count,
        })
    }

    fn push_back(&mut self, to: u32, node: u32) {
        if self.lens.len() == to as usize + 1 {
            self.lens[to as usize] += 1;
            self.nodes.push_reserved(node);
            return;
        }
        self.insert(to, node);
    }

    fn unlink(&mut self, node: u32) {
        let Some(home) = self.home(node) else {
            unreachable!()
        };
        let index = index_of(&self.nodes, node);
        self.lens[home as usize] -= 1;
        self.nodes.remove(index);
    }

    fn first(&self, of: u32) -> Option<u32> {
        self.nodes_of(of).first().copied()
    }

    fn last(&self, of: u32) -> Option<u32> {
        self.nodes_of(of).last().copied()
    }

    fn next(&self, node: u32) -> Option<u32> {
        match self.home(node) {
            Some(home) => next_in(self.nodes_of(home), node),
            None => None,
        }
    }

    fn prev(&self, node: u32) -> Option<u32> {
        match self.home(node) {
            Some(home) => prev_in(self.nodes_of(home), node),
            None => None,
        }
    }

    fn home(&self, node: u32) -> Option<u32> {
        for list in 0..self.list_count {
            if self.nodes_of(list).contains(&node) {
                return Some(list);
            }
        }
        None
    }

    fn len(&self, of: u32) -> u32 {
        self.nodes_of(of).len() as u32
    }

    fn append_list(&self, of: u32, to: &mut Vec<u32>) {
        if to.extend_from_slice(self.nodes_of(of)).is_err() {
            unreachable!()
        }
    }
}

impl PlainLists {
    /// Appends `node` to the list `to`, whichever list that is. Most pushes are to the last list:
    /// this stays out of their way.
    #[cold]
    #[inline(never)]
    fn insert(&mut self, to: u32, node: u32)
        requires to_in { to < self.old.lists }
        requires node_in { node < self.old.nodes }
        requires free { IsFree (lists_of_parts self.old) node }
        ensures pushed { AreSame (lists_of_parts self.new)
            (node_pushed (lists_of_parts self.old) to node) }
        ensures kept { AreLists (lists_of_parts self.new) }
    {
        begin(&mut self.lens, to);
        let end = end_of(&self.nodes, &self.lens, to);
        self.lens[to as usize] += 1;
        put(&mut self.nodes, end, node);
    }

    /// The nodes of the list `of`.
    fn nodes_of(&self, of: u32) -> &[u32]
        ensures nodes { result.now ≡ part self.now.parts of }
        ensures fits { length result.now < 2 ^ 32 }
        ensures kept { AreLists (lists_of_parts self.now) }
    {
        if self.lens.len() <= of as usize {
            return &[];
        }
        let end = end_of(&self.nodes, &self.lens, of);
        &self.nodes[end - self.lens[of as usize] as usize..end]
    }
}

/// Gives each list up to `list` a length.
fn begin(lens: &mut Vec<u32>, list: u32)
    requires { list < vec_capacity lens.old }
    ensures lens { lens.new.items ≡ lens.old.items
        ++ replicate (list + 1 - length lens.old.items) 0 }
    ensures capacity { vec_capacity lens.old ≤ vec_capacity lens.new }
{
    let count = list as usize + 1;
    if lens.len() < count && lens.resize(count, 0).is_err() {
        unreachable!()
    }
}

/// The index after the last node of the list `of`.
fn end_of(nodes: &[u32], lens: &[u32], of: u32) -> usize
    requires begun { of < length lens.now }
    requires whole { sum lens.now ≡ length nodes.now }
    requires few { length nodes.now < 2 ^ 32 }
    ensures { result + sum (drop (of + 1) lens.now) ≡ length nodes.now }
{
    nodes.len() - total(&lens[of as usize + 1..]) as usize
}

/// The sum of `numbers`.
fn total(numbers: &[u32]) -> u32
    requires { sum numbers.now < 2 ^ 32 }
    ensures { result ≡ sum numbers.now }
{
    numbers.iter().sum()
}

/// Inserts `node` at `index`; there is room for it.
fn put(nodes: &mut Vec<u32>, index: usize, node: u32)
    requires index { index ≤ length nodes.old.items }
    requires room { length nodes.old.items < vec_capacity nodes.old }
    ensures items { nodes.new.items ≡ insert nodes.old.items index node }
    ensures capacity { vec_capacity nodes.old ≤ vec_capacity nodes.new }
{
    if index == nodes.len() {
        nodes.push_reserved(node);
    } else if nodes.insert(index, node).is_err() {
        unreachable!()
    }
}

/// The index of `node` in `nodes`.
fn index_of(nodes: &[u32], node: u32) -> usize
    requires { 0 < times node nodes.now }
    ensures { slice_get nodes.now result ≡ Some node }
{
    let mut index = 0;
    while nodes[index] != node {
        index += 1;
    }
    index
}

/// The node after `node` in `nodes`.
fn next_in(nodes: &[u32], node: u32) -> Option<u32>
    requires { 0 < times node nodes.now }
    ensures { (index : ℕ) × (slice_get nodes.now index ≡ Some node)
        × (result ≡ slice_get nodes.now (index + 1)) }
{
    nodes.get(index_of(nodes, node) + 1).copied()
}

/// The node before `node` in `nodes`.
fn prev_in(nodes: &[u32], node: u32) -> Option<u32>
    requires { 0 < times node nodes.now }
    ensures { (index : ℕ) × (slice_get nodes.now index ≡ Some node)
        × (result ≡ (if index == 0 then None else slice_get nodes.now (index - 1))) }
{
    let index = index_of(nodes, node);
    if index == 0 {
        return None;
    }
    nodes.get(index - 1).copied()
}
