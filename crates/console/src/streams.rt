//! The standard streams, and what of them is a terminal.

ghost use Rattle.std.specs.Prelude.{◌≡◌, ◌&&◌};

/// The standard streams that are terminals, and whether there is a standard input.
#[derive(Clone, Copy, Debug, PartialEq, Eq)]
pub struct Terminals {
    /// Whether the process was started with standard input closed.
    pub input_closed: bool,
    pub input: bool,
    pub errors: bool,
}

impl Terminals {
    /// Whether standard input and standard error are terminals.
    pub fn are_both(self) -> bool
        ensures { result ≡ (self.input && self.errors) }
    {
        self.input && self.errors
    }
}

/// The standard input, output and error of a program, and what of them is a terminal.
#[derive(Drop)]
pub struct Console<I, O, E> {
    pub input: I,
    pub output: O,
    pub errors: E,
    pub terminals: Terminals,
}
