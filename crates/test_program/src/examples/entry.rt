//! What an example of the program is.

/// One run of the program: what it is given, and what it has to write and return.
#[derive(Clone, Copy)]
pub struct Example {
    /// Its name, as in `examples/README.md`.
    pub name: &'static str,
    /// The command line, with the program's name first.
    pub words: &'static [&'static str],
    /// What the program reads from standard input.
    pub input: &'static str,
    /// What goes to standard output.
    pub output: &'static str,
    /// What goes to standard error.
    pub error: &'static str,
    /// The exit status.
    pub status: u8,
}
