// How a call ends.
ghost use Rattle.std.specs.Prelude.{◌≡◌};
ghost use Rattle.gh_driver.specs.Codes.{code_of};

use gh_base::Refusal;
use gh_machine::Stop;

/// How a call of `genhs` ends.
#[derive(Debug, Drop)]
pub enum Status {
    /// The files are a program that is accepted: `check` and `core`.
    Accepted,
    /// The run has ended: `run` and `sample`.
    Ended,
    /// The files are refused, and nothing was written to out.
    Refused(Refusal),
    /// The words have no meaning.
    Usage,
    /// The run goes on after as many reductions as were asked for.
    OutOfSteps,
    /// The run has failed.
    MainFailed(Stop),
    /// The file with this place among the files, from 0, could not be read.
    ReadFault(u32),
    /// An output could not be written.
    WriteFault,
    /// There is not enough memory.
    NoMemory,
}

impl Status {
    /// The exit status of the process, 0 to 6.
    pub fn code(&self) -> u8
        ensures { result ≡ code_of self.now }
    {
        match self {
            Status::Accepted => 0,
            Status::Ended => 0,
            Status::Refused(_) => 1,
            Status::Usage => 2,
            Status::OutOfSteps => 3,
            Status::MainFailed(_) => 4,
            Status::ReadFault(_) => 5,
            Status::WriteFault => 5,
            Status::NoMemory => 6,
        }
    }
}
