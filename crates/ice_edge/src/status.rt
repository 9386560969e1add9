//! How a run ends.
ghost use Rattle.std.specs.Prelude.{◌≡◌};
ghost use Rattle.ice_edge.specs.Status.{code_of};

/// How a run ended.
#[derive(Clone, Copy, Debug, PartialEq, Eq)]
pub enum Status {
    /// 0: yes, done, or a session that closed.
    Done,
    /// 1: the words are none of the forms.
    Words,
    /// 2: a file is refused.
    Input,
    /// 3: a test failed.
    No,
    /// 4: the branches are used up.
    Spent,
    /// 5: the pricing came to a limit.
    Limit,
    /// 6: a file could not be read.
    ReadFault,
    /// 7: the output failed.
    WriteFault,
    /// 8: memory ran out.
    NoMemory,
    /// 9: the session is open, and wants bids.
    StillOpen,
}

impl Status {
    /// The exit status of the program.
    pub fn code(&self) -> u8
        ensures { result ≡ code_of self.now }
    {
        *self as u8
    }
}
