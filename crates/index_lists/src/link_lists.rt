//! Lists linked both ways by index: the store for callers that take nodes out. No command does, so
//! runs use `PlainLists`, and this one is a library store, over which tests run solvers.

ghost use Rattle.std.specs.Prelude.{◌≡◌, ◌<◌, ◌≤◌, length, slice_index};
ghost use Rattle.index_lists.specs.Inside.Links.{chained_lists, unless_none, next_pointed};
ghost use Rattle.index_lists.specs.Inside.Links.{prev_pointed, node_placed, node_loosened};
ghost use Rattle.index_lists.specs.Inside.Links.{list_appended, list_shortened};

use crate::store::ListStore;
use board_text::Memory;
use std::alloc::Global;
use std::marker::Model;

/// Lists linked both ways by index, in flat vectors. No call but `new` takes memory, and none but
/// `append_list` has a loop.
#[derive(Drop)]
pub struct LinkLists {
    /// How many nodes there are; as a node it stands for none.
    node_count: u32,
    /// How many lists there are; as a list it stands for none.
    list_count: u32,
    links: Links,
}

impl Model for LinkLists {
    ghost use Rattle.index_lists.specs.Links.{Chains};
    ghost use Rattle.index_lists.specs.Inside.Links.{IsLinks, chains_of};

    ghost Value = { Chains };

    ghost view = { λ s. chains_of s.node_count s.list_count s.links };

    ghost invariant = { λ s. IsLinks s.node_count s.list_count s.links };
}

impl ListStore for LinkLists {
    ghost state = { chained_lists };

    fn new(alloc: Global, node_count: u32, list_count: u32) -> Result<Self, Memory> {
        let loose = Node {
            next: node_count,
            prev: node_count,
            home: list_count,
        };
        let empty = Ends {
            first: node_count,
            last: node_count,
            len: 0,
        };
        let nodes = vec![in alloc; loose; node_count as usize]?;
        let ends = vec![in alloc; empty; list_count as usize]?;
        Ok(LinkLists {
            node_count,
            list_count,
            links: Links { nodes, ends },
        })
    }

    fn push_back(&mut self, to: u32, node: u32) {
        let last = self.links.ends[to as usize].last;
        self.links.point_next(last, to, node);
        self.links.put(node, last, to);
        self.links.append(to, node);
    }

    fn unlink(&mut self, node: u32) {
        let Node { next, prev, home } = self.links.nodes[node as usize];
        self.links.point_next(prev, home, next);
        self.links.point_prev(next, home, prev);
        self.links.loosen(node, self.node_count, self.list_count);
        self.links.shorten(home);
    }

    fn first(&self, of: u32) -> Option<u32> {
        some_unless(self.node_count, self.links.ends[of as usize].first)
    }

    fn last(&self, of: u32) -> Option<u32> {
        some_unless(self.node_count, self.links.ends[of as usize].last)
    }

    fn next(&self, node: u32) -> Option<u32> {
        some_unless(self.node_count, self.links.nodes[node as usize].next)
    }

    fn prev(&self, node: u32) -> Option<u32> {
        some_unless(self.node_count, self.links.nodes[node as usize].prev)
    }

    fn home(&self, node: u32) -> Option<u32> {
        some_unless(self.list_count, self.links.nodes[node as usize].home)
    }

    fn len(&self, of: u32) -> u32 {
        self.links.ends[of as usize].len
    }
}

/// `number`, unless it is `none`.
fn some_unless(none: u32, number: u32) -> Option<u32>
    ensures { result ≡ unless_none none number }
{
    if number == none { None } else { Some(number) }
}

/// The links of all nodes and lists. Between two calls they may be those of no lists.
#[derive(Drop)]
struct Links {
    /// The neighbours and the list of each node. A node is read and written as one, so that it is
    /// in one place of memory.
    nodes: Vec<Node>,
    /// The ends of each list.
    ends: Vec<Ends>,
}

/// The neighbours and the list of a node.
#[derive(Clone, Copy)]
struct Node {
    /// The node after it.
    next: u32,
    /// The node before it.
    prev: u32,
    /// Its list.
    home: u32,
}

/// The ends of a list.
#[derive(Clone, Copy)]
struct Ends {
    /// The first node.
    first: u32,
    /// The last node.
    last: u32,
    /// How many nodes there are.
    len: u32,
}

impl Model for Links {
    ghost use Rattle.std.specs.Prelude.{map};
    ghost use Rattle.index_lists.specs.Inside.Links.{PlainLinks};

    ghost Value = { PlainLinks };

    ghost view = { λ s. record {
      next = map (λ n. n.next) s.nodes.items;
      prev = map (λ n. n.prev) s.nodes.items;
      home = map (λ n. n.home) s.nodes.items;
      first = map (λ e. e.first) s.ends.items;
      last = map (λ e. e.last) s.ends.items;
      len = map (λ e. e.len) s.ends.items;
    } };
}

impl Links {
    /// Makes `to` the node after `node`, or, if `node` is none, the first of `list`.
    fn point_next(&mut self, node: u32, list: u32, to: u32)
        requires node_in { node ≤ length self.old.next }
        requires list_in { list < length self.old.first }
        ensures { self.new ≡ next_pointed self.old node list to }
    {
        if node as usize == self.nodes.len() {
            self.ends[list as usize].first = to;
        } else {
            self.nodes[node as usize].next = to;
        }
    }

    /// Makes `to` the node before `node`, or, if `node` is none, the last of `list`.
    fn point_prev(&mut self, node: u32, list: u32, to: u32)
        requires node_in { node ≤ length self.old.prev }
        requires list_in { list < length self.old.last }
        ensures { self.new ≡ prev_pointed self.old node list to }
    {
        if node as usize == self.nodes.len() {
            self.ends[list as usize].last = to;
        } else {
            self.nodes[node as usize].prev = to;
        }
    }

    /// Notes that `node` is in the list `home`, after the node `prev`.
    fn put(&mut self, node: u32, prev: u32, home: u32)
        requires { node < length self.old.home }
        ensures { self.new ≡ node_placed self.old node prev home }
    {
        let links = &mut self.nodes[node as usize];
        links.prev = prev;
        links.home = home;
    }

    /// Notes that `node` is in no list.
    fn loosen(&mut self, node: u32, none: u32, nowhere: u32)
        requires { node < length self.old.home }
        ensures { self.new ≡ node_loosened self.old node none nowhere }
    {
        self.nodes[node as usize] = Node {
            next: none,
            prev: none,
            home: nowhere,
        };
    }

    /// Notes that `list` has one node more, with `node` as its last.
    fn append(&mut self, list: u32, node: u32)
        requires list_in { list < length self.old.len }
        requires room { slice_index self.old.len list < u32.MAX }
        ensures { self.new ≡ list_appended self.old list node }
    {
        let ends = &mut self.ends[list as usize];
        ends.last = node;
        ends.len += 1;
    }

    /// Notes that `list` has one node less.
    fn shorten(&mut self, list: u32)
        requires list_in { list < length self.old.len }
        requires some { 0 < slice_index self.old.len list }
        ensures { self.new ≡ list_shortened self.old list }
    {
        self.ends[list as usize].len -= 1;
    }
}
