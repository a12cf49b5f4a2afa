//! How a run ends.
ghost use Rattle.std.specs.Prelude.{◌≡◌};
ghost use Rattle.xmp_cli.specs.Statuses.{number_of};

use xmp_values::Fault;

/// How a run ends, with the number that the program ends with.
#[derive(Clone, Copy, Debug, PartialEq, Eq)]
pub enum Status {
    /// The command did what it is for.
    Done,
    /// `check` found something.
    Findings,
    /// The words are no command.
    Usage,
    /// A rule is broken, the first in the one order.
    Refused(Fault),
    /// A device failed, and counted it.
    Device,
    /// Memory was wanted, and there was none.
    Memory,
}

impl Status {
    /// The exit status of the program.
    pub fn number(&self) -> u8
        ensures { result ≡ number_of self.now }
    {
        match self {
            Status::Done => 0,
            Status::Findings => 1,
            Status::Usage => 2,
            Status::Refused(_) => 3,
            Status::Device => 4,
            Status::Memory => 5,
        }
    }
}
