//! What is asked before a client's line is begun.

/// Is asked before each line, on the thread of the client whose line it is. The client waits until it returns.
pub trait LineGate {
    /// The client is about to begin the line of this number.
    fn before(&self, client: u32, line: u32);
}

/// Lets every line begin at once.
#[derive(Clone, Copy, Debug, Drop)]
pub struct Free;

impl LineGate for Free {
    fn before(&self, _client: u32, _line: u32) {}
}
