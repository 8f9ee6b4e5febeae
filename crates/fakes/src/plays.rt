//! Plays on the chain of three labels: the lines of a person, and the text written in reply.

/// The lines of a person who asks.
pub const REQUESTS: &[u8] = b"1\nx\n0\n1\n";

/// The text written for `REQUESTS`.
pub const REPLIES: &[u8] =
    b"value 2\nat 0 0\npebble 1 takes 1\nat 0 1\nnot a request\npebble 0 takes 2\nat 2 1\nno label for pebble 1 after 2 requests\n";

/// The lines of a person who answers.
pub const ANSWERS: &[u8] = b"0\n1\n2\n";

/// The text written for `ANSWERS`.
pub const ASKED: &[u8] =
    b"value 2\nat 0 0\nask 0\nnot an answer\nat 1 0\nask 1\nat 1 2\nask 0\nno label for pebble 0 after 2 requests\n";

/// The text written on the three-cycle to a person who answers: the adversary has no strategy
/// there.
pub const NO_STRATEGY: &[u8] = b"forever\nat 0 0\nno strategy\n";
