//! How the program ends.
ghost use Rattle.std.specs.Prelude.{◌≡◌};
ghost use Rattle.reg_run.specs.Statuses.{code, status_of};

use reg_session::Ended;

/// How a run ended.
#[derive(Clone, Copy, Debug, PartialEq, Eq)]
pub enum Status {
    /// Each request was answered: the input ended between two of them, or the last one ended the connection.
    Done,
    /// The command-line arguments were refused.
    Usage,
    /// A device failed.
    Fault,
    /// Memory was wanting.
    NoMemory,
    /// A request was not served: the input ended inside it, or a refusal was written that ends the connection.
    Unserved,
    /// The input gave 2^50 bytes.
    Long,
}

impl Status {
    /// The status of a run whose session ended so.
    pub fn of<B>(ended: &Ended<B>) -> Status
        ensures { result ≡ status_of ended.now }
    {
        match ended {
            Ended::Done => Status::Done,
            Ended::Refused(_) | Ended::Cut => Status::Unserved,
            Ended::SourceFault | Ended::SinkFault | Ended::BlobFault(_) => Status::Fault,
            Ended::Long => Status::Long,
            Ended::NoMemory => Status::NoMemory,
        }
    }

    /// The exit status of the process.
    pub fn code(self) -> u8
        ensures { result ≡ code self }
    {
        match self {
            Status::Done => 0,
            Status::Usage => 2,
            Status::Fault => 5,
            Status::NoMemory => 9,
            Status::Unserved => 10,
            Status::Long => 11,
        }
    }
}
