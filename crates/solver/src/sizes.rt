//! How many configurations have each value.

ghost use Rattle.std.specs.Prelude.{◌≡◌, ◌^◌, ◌<◌, ◌≤◌, ℕ, false, length, slice_index};
ghost use Rattle.std.specs.Prelude.{vec_capacity};
ghost use Rattle.graphs.specs.Graph.{count_below};
ghost use Rattle.solver.specs.Inside.Tables.{is_open};
ghost use Rattle.solver.specs.Inside.Values.{AreWordCounts, AreZeros};

use gap_values::OPEN;

/// This number of zeros, in the room of a list that is no longer needed.
pub(crate) fn zeros(room: Vec<u32>, count: u32) -> Vec<u32>
    requires room { count ≤ vec_capacity room }
    ensures size { length result.items ≡ count }
    ensures zeros { AreZeros result.items }
{
    let mut sizes = room;
    sizes.clear();
    for _ in 0..count {
        sizes.push_reserved(0);
    }
    sizes
}

/// Counts the words that are each value in `sizes`, which are all 0, and returns the number of
/// those that are `OPEN`.
pub(crate) fn count_words(sizes: &mut [u32], words: &[u32]) -> u32
    requires zeros { AreZeros sizes.old }
    requires inside { (x : ℕ) → x < length words.now → is_open words.now x ≡ false
        → slice_index words.now x < length sizes.old }
    requires small { length sizes.old ≤ OPEN }
    requires few { length words.now < 2 ^ 32 }
    ensures size { length sizes.new ≡ length sizes.old }
    ensures counts { AreWordCounts words.now (length words.now) sizes.new }
    ensures forever { result ≡ count_below (length words.now) (is_open words.now) }
{
    let mut forever = 0;
    for number in 0..words.len() {
        let word = words[number];
        if word == OPEN {
            forever += 1;
        } else {
            sizes[word as usize] += 1;
        }
    }
    forever
}
