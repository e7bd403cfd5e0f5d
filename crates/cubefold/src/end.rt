//! How a run ends.
ghost use Rattle.std.specs.Prelude.{◌≡◌};
ghost use Rattle.cubefold.specs.Ends.{code_of};

use reply_fold::Fault;

/// How a run ended.
#[derive(Clone, Copy, Debug, PartialEq, Eq)]
pub enum End {
    /// The reply of the whole was written.
    Done,
    /// Arguments were given. Nothing was read or written.
    Usage,
    /// The output failed. The first bytes of the reply may have been written.
    Output,
    /// The input has no reply of the whole, for this reason. Nothing was written.
    Faulty(Fault),
}

impl End {
    /// The exit status of the process.
    pub fn code(&self) -> u8
        ensures { result ≡ code_of self.now }
    {
        match self {
            End::Done => 0,
            End::Usage => 2,
            End::Output => 5,
            End::Faulty(Fault::Input) => 3,
            End::Faulty(Fault::Memory) => 7,
            End::Faulty(Fault::Heading | Fault::Schema(_)) => 9,
            End::Faulty(Fault::Slice(_)) => 10,
            End::Faulty(Fault::Nothing | Fault::Cut | Fault::Record(_)) => 11,
            End::Faulty(Fault::Differs(_)) => 12,
            End::Faulty(Fault::Sum) => 13,
        }
    }
}
