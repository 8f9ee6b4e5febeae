//! The contract of a store of lists.

ghost use Rattle.std.specs.Prelude.{◌≡◌, ℕ, ◌+◌, ◌-◌, ◌++◌, ◌<◌, ◌≤◌, length, slice_get};
ghost use Rattle.std.specs.Prelude.{vec_capacity, IfOk, IfSome, MatchOption};
ghost use Rattle.index_lists.specs.Lists.{Lists, IsFree, IsIn, IsHome, AreLists, AreSame};
ghost use Rattle.index_lists.specs.Lists.{empty_lists, node_pushed, node_unlinked, node_moved};

use board_text::Memory;
use std::alloc::Global;

/// Lists of nodes, each node in at most one list and once. Nodes and lists are numbered from 0.
/// Each operation is one equation on them, and tells that they are lists, so that a caller who was
/// only lent a store knows it.
pub trait ListStore {
    /// The lists that it holds.
    ghost state: { Self → Lists };

    /// A store of `list_count` empty lists for `node_count` nodes. All memory that the store will
    /// ever need is taken here, or refused.
    fn new(alloc: Global, node_count: u32, list_count: u32) -> Result<Self, Memory>
        ensures empty { IfOk result
            (λ store. AreSame (state store) (empty_lists node_count list_count)) }
        ensures kept { IfOk result (λ store. AreLists (state store)) };

    /// Appends `node`, which is in no list, to the list `to`.
    fn push_back(&mut self, to: u32, node: u32)
        requires to_in { to < (state self.old).lists }
        requires node_in { node < (state self.old).nodes }
        requires free { IsFree (state self.old) node }
        ensures pushed { AreSame (state self.new) (node_pushed (state self.old) to node) }
        ensures kept { AreLists (state self.new) };

    /// Takes `node` out of its list.
    fn unlink(&mut self, node: u32)
        requires node_in { node < (state self.old).nodes }
        requires stands { IsIn (state self.old) node }
        ensures unlinked { AreSame (state self.new) (node_unlinked (state self.old) node) }
        ensures kept { AreLists (state self.new) };

    /// The first node of the list `of`.
    fn first(&self, of: u32) -> Option<u32>
        requires { of < (state self.now).lists }
        ensures first { result ≡ slice_get ((state self.now).list of) 0 }
        ensures below { IfSome result (λ node. node < (state self.now).nodes) }
        ensures kept { AreLists (state self.now) };

    /// The last node of the list `of`.
    fn last(&self, of: u32) -> Option<u32>
        requires { of < (state self.now).lists }
        ensures last { result ≡ slice_get ((state self.now).list of)
            (length ((state self.now).list of) - 1) }
        ensures below { IfSome result (λ node. node < (state self.now).nodes) }
        ensures kept { AreLists (state self.now) };

    /// The node after `node` in its list. The last node has none, nor has a node in no list.
    fn next(&self, node: u32) -> Option<u32>
        requires { node < (state self.now).nodes }
        ensures behind { (l : ℕ) → (index : ℕ)
            → slice_get ((state self.now).list l) index ≡ Some node
            → result ≡ slice_get ((state self.now).list l) (index + 1) }
        ensures free { IsFree (state self.now) node → result ≡ None }
        ensures below { IfSome result (λ other. other < (state self.now).nodes) }
        ensures kept { AreLists (state self.now) };

    /// The node before `node` in its list. The first node has none, nor has a node in no list.
    fn prev(&self, node: u32) -> Option<u32>
        requires { node < (state self.now).nodes }
        ensures before { (l : ℕ) → (index : ℕ)
            → slice_get ((state self.now).list l) (index + 1) ≡ Some node
            → result ≡ slice_get ((state self.now).list l) index }
        ensures first { (l : ℕ) → slice_get ((state self.now).list l) 0 ≡ Some node
            → result ≡ None }
        ensures free { IsFree (state self.now) node → result ≡ None }
        ensures below { IfSome result (λ other. other < (state self.now).nodes) }
        ensures kept { AreLists (state self.now) };

    /// The list that `node` is in, if it is in one.
    fn home(&self, node: u32) -> Option<u32>
        requires { node < (state self.now).nodes }
        ensures home { MatchOption result (IsFree (state self.now) node)
            (λ home. IsHome (state self.now) node home) }
        ensures kept { AreLists (state self.now) };

    /// The number of nodes in the list `of`.
    fn len(&self, of: u32) -> u32
        requires { of < (state self.now).lists }
        ensures len { result ≡ length ((state self.now).list of) }
        ensures kept { AreLists (state self.now) };

    /// Appends the nodes of the list `of`, in order, to `to`, which has room for them.
    fn append_list(&self, of: u32, to: &mut Vec<u32>)
        requires of_in { of < (state self.now).lists }
        requires room { length to.old.items + length
            ((state self.now).list of) ≤ vec_capacity to.old }
        ensures appended { to.new.items ≡ to.old.items ++ (state self.now).list of }
        ensures capacity { vec_capacity to.old ≤ vec_capacity to.new }
        ensures kept { AreLists (state self.now) }
    {
        let mut next = self.first(of);
        while let Some(node) = next {
            to.push_reserved(node);
            next = self.next(node);
        }
    }

    /// Takes `node` to the end of the list `to`, from wherever it was.
    fn move_to(&mut self, node: u32, to: u32)
        requires to_in { to < (state self.old).lists }
        requires node_in { node < (state self.old).nodes }
        ensures moved { AreSame (state self.new) (node_moved (state self.old) node to) }
        ensures kept { AreLists (state self.new) }
    {
        if self.home(node).is_some() {
            self.unlink(node);
        }
        self.push_back(to, node);
    }
}
