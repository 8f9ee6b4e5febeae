//! The texts of the boards that the tests read.

/// Three labels in a cycle, each of which dominates one other.
pub const THREE_CYCLE: &str = "board 1\nlabels 3\npebbles 2\nstart 0 0\n\
    beats 0 2\nbeats 1 0\nbeats 2 1\nend\n";

/// Two labels, of which one dominates the other.
pub const ONE_PAIR: &str = "board 1\nlabels 2\npebbles 2\nstart 0 0\nbeats 1 0\nend\n";

/// Three labels, each of which dominates all smaller ones.
pub const CHAIN_OF_THREE: &str = "board 1\nlabels 3\npebbles 2\nstart 0 0\n\
    beats 1 0\nbeats 2 0\nbeats 2 1\nend\n";

/// One label and one pebble.
pub const LONE_LABEL: &str = "board 1\nlabels 1\npebbles 1\nstart 0\nend\n";

/// One label and two pebbles.
pub const SHARED_LABEL: &str = "board 1\nlabels 1\npebbles 2\nstart 0 0\nend\n";

/// The three-cycle, with a label beside it and one that dominates that label.
pub const CYCLE_WITH_A_WAY_IN: &str = "board 1\nlabels 5\npebbles 2\nstart 3 0\n\
    beats 0 2\nbeats 1 0\nbeats 2 1\nbeats 4 3\nend\n";

/// The three-cycle with a third pebble.
pub const THREE_PEBBLES: &str = "board 1\nlabels 3\npebbles 3\nstart 0 0 0\n\
    beats 0 2\nbeats 1 0\nbeats 2 1\nend\n";

/// Two labels, of which one dominates the other, and no pebble that holds one yet.
pub const PAIR_WITHOUT_LABELS: &str = "board 2\nlabels 2\npebbles 2\nstart - -\nbeats 1 0\nend\n";

/// The three-cycle, and no pebble that holds a label yet.
pub const CYCLE_WITHOUT_LABELS: &str = "board 2\nlabels 3\npebbles 2\nstart - -\n\
    beats 0 2\nbeats 1 0\nbeats 2 1\nend\n";

/// One label, and one pebble that doesn't hold it yet.
pub const LONE_WITHOUT_LABEL: &str = "board 2\nlabels 1\npebbles 1\nstart -\nend\n";

/// As many configurations as the solver takes, and no label that dominates another.
pub const NO_PAIRS: &str = "board 1\nlabels 32\npebbles 4\nstart 31 0 7 7\nend\n";

/// Three labels in a cycle, and one pebble: the nested board of the second level.
pub const CYCLE_WITH_ONE_PEBBLE: &str = "board 1\nlabels 3\npebbles 1\nstart 0\n\
    beats 0 2\nbeats 1 0\nbeats 2 1\nend\n";

/// One label more than the solver takes with four pebbles.
pub const TOO_MANY_CONFIGURATIONS: &str = "board 1\nlabels 33\npebbles 4\nstart 0 0 0 0\nend\n";
