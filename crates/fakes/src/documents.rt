//! The texts of strategy documents that the tests read, each for a board of `boards`.

/// For the three-cycle: answers without end.
pub const CYCLE_FOREVER: &str = "proof 1\nforever\nlabeller 7\n\
    at 0 0 for * take 1 1\nat 0 1 for * take 2 1\nat 0 2 for * take 0 1\n\
    at 1 0 for * take 1 2\nat 1 2 for * take 0 2\nat 2 0 for * take 1 0\n\
    at 2 1 for * take 2 0\nend\n";

/// For two labels of which one dominates the other.
pub const PAIR_VALUE_ONE: &str = "proof 1\nvalue 1\nlabeller 1\nat 0 0 for 1 take 1 1\n\
    adversary 2\nat 0 0 for 1 ask 0\nat 1 0 for 0 ask 1\nend\n";

/// For the chain of three labels.
pub const CHAIN_VALUE_TWO: &str = "proof 1\nvalue 2\nlabeller 3\n\
    at 0 0 for 2 take 1 1\nat 0 1 for 1 take 2 1\nat 1 0 for 1 take 1 2\n\
    adversary 4\nat 0 0 for 2 ask 0\nat 1 0 for 1 ask 1\nat 1 2 for 0 ask 0\n\
    at 2 0 for 0 ask 1\nend\n";

/// For the three-cycle with a way in: rows inside the cycle have the claim's number.
pub const WAY_IN_VALUE_ONE: &str = "proof 1\nvalue 1\nlabeller 7\n\
    at 0 1 for 1 take 2 1\nat 0 2 for 1 take 0 1\nat 1 0 for 1 take 1 2\n\
    at 1 2 for 1 take 0 2\nat 2 0 for 1 take 1 0\nat 2 1 for 1 take 2 0\n\
    at 3 0 for 1 take 1 4\nadversary 2\nat 3 0 for 1 ask 1\nat 3 4 for 0 ask 0\nend\n";

/// For the three-cycle with a third pebble.
pub const THREE_PEBBLES_VALUE_ONE: &str = "proof 1\nvalue 1\nlabeller 1\n\
    at 0 0 0 for 1 take 1 1 1\nadversary 2\nat 0 0 0 for 1 ask 0\n\
    at 1 0 0 for 0 ask 1\nend\n";

/// For the chain of three labels, without an adversary.
pub const CHAIN_LEAST_TWO: &str = "proof 1\nleast 2\nlabeller 3\n\
    at 0 0 for 2 take 1 1\nat 0 1 for 1 take 2 1\nat 1 0 for 1 take 1 2\nend\n";

/// For the chain of three labels, without a labeller.
pub const CHAIN_MOST_TWO: &str = "proof 1\nmost 2\nadversary 4\nat 0 0 for 2 ask 0\n\
    at 1 0 for 1 ask 1\nat 1 2 for 0 ask 0\nat 2 0 for 0 ask 1\nend\n";

/// For one label and a pebble that doesn't hold it yet: it takes the label and stays there.
pub const LONE_WITHOUT_LABEL_FOREVER: &str =
    "proof 1\nforever\nlabeller 2\nat 0 for * take 0\nat - for * take 0\nend\n";

/// For two labels and pebbles that hold none yet: the pair's own play follows two first answers.
pub const PAIR_WITHOUT_LABELS_VALUE_TWO: &str = "proof 1\nvalue 2\nlabeller 3\n\
    at 0 - for 1 take 0 1\nat - 0 for 1 take 1 0\nat - - for 2 take 0 0\n\
    adversary 4\nat 0 1 for 0 ask 0\nat 0 - for 1 ask 1\nat 1 - for 0 ask 1\n\
    at - - for 2 ask 0\nend\n";

/// For the three-cycle: a pebble that holds no label bounds none.
pub const CYCLE_WITHOUT_LABELS_FOREVER: &str = "proof 1\nforever\nlabeller 9\n\
    at 0 1 for * take 2 1\nat 0 2 for * take 0 1\nat 0 - for * take 0 1\n\
    at 1 0 for * take 1 2\nat 1 2 for * take 0 2\nat 2 0 for * take 1 0\n\
    at 2 1 for * take 2 0\nat - 0 for * take 1 0\nat - - for * take 0 0\nend\n";

/// For one label and one pebble: it stays where it is.
pub const LONE_LABEL_FOREVER: &str = "proof 1\nforever\nlabeller 1\nat 0 for * take 0\nend\n";

/// For one label and two pebbles: the first request has no answer.
pub const SHARED_LABEL_VALUE_ZERO: &str =
    "proof 1\nvalue 0\nlabeller 0\nadversary 1\nat 0 0 for 0 ask 0\nend\n";
