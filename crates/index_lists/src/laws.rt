//! Laws of lists of nodes, each the contract of a function without a body.

ghost use Rattle.std.specs.Prelude.{◌≡◌, ◌≢◌, ℕ, ◌+◌, ◌<◌, ◌≤◌, ◌==◌, List, ◌∷◌, length, slice_get};
ghost use Rattle.std.specs.Prelude.{count_by};
ghost use Rattle.index_lists.specs.Lists.{Lists, times, without_node, IsHome, AreLists};

/// A node stands in a list as often as there are indexes at which it stands.
pub fn nodes_by_index()
    ensures counted { (node : ℕ) → (xs : List ℕ) → times node xs ≡ count_by (λ x. x == node) xs }
    ensures stands { (node : ℕ) → (xs : List ℕ) → (index : ℕ) → slice_get xs index ≡ Some node
        → 0 < times node xs }
    ensures has_index { (node : ℕ) → (xs : List ℕ) → 0 < times node xs
        → (index : ℕ) × (slice_get xs index ≡ Some node) }
    ensures one_index { (node : ℕ) → (xs : List ℕ) → (index : ℕ) → (other : ℕ) → times node xs ≤ 1
        → slice_get xs index ≡ Some node → slice_get xs other ≡ Some node → index ≡ other }
{}

/// A list has no more nodes than there are. A node that is in a list has that list as its home, and
/// taking it out leaves each other list as it is.
pub fn nodes_in_lists()
    ensures fit { (s : Lists) → AreLists s → (l : ℕ) → length (s.list l) ≤ s.nodes }
    ensures home { (s : Lists) → AreLists s → (l : ℕ) → (node : ℕ) → 0 < times node (s.list l)
        → IsHome s node l }
    ensures elsewhere { (s : Lists) → AreLists s → (l : ℕ) → (m : ℕ) → (node : ℕ)
        → 0 < times node (s.list l) → m ≢ l → without_node node (s.list m) ≡ s.list m }
{}

/// A list without a node has lost that node, and nothing else.
pub fn lists_without_a_node()
    ensures gone { (node : ℕ) → (xs : List ℕ) → times node (without_node node xs) ≡ 0 }
    ensures others { (node : ℕ) → (other : ℕ) → (xs : List ℕ) → other ≢ node
        → times other (without_node node xs) ≡ times other xs }
    ensures shorter { (node : ℕ) → (xs : List ℕ)
        → length (without_node node xs) + times node xs ≡ length xs }
    ensures absent { (node : ℕ) → (xs : List ℕ) → times node xs ≡ 0 → without_node node xs ≡ xs }
    ensures first { (node : ℕ) → (xs : List ℕ) → times node (node ∷ xs) ≤ 1
        → without_node node (node ∷ xs) ≡ xs }
{}
