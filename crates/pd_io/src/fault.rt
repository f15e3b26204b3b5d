// Why a call of the outside fails, and how the error of one call becomes that of a whole file.
ghost use Rattle.std.specs.Prelude.{◌≡◌};
ghost use Rattle.pd_base.specs.Memory.{out_of_memory};
ghost use Rattle.pd_io.specs.Fault.{read_fault_of, write_fault_of};
ghost use Rattle.pd_io.specs.declared.fault.FileFault.TheVariants as call;
ghost use Rattle.pd_io.specs.declared.fault.ReadFault.TheVariants as reading;

use pd_base::OutOfMemory;
use std::alloc::AllocError;
use thiserror::Error;

/// Why a call of a file object or of a sink failed.
#[derive(Clone, Copy, Debug, PartialEq, Eq)]
pub enum FileFault {
    /// The outside failed, and its count of failed calls rose in this call or stands at 2^64 - 1.
    Failed,
    /// Memory ran out. No count of failed calls changed.
    NoMemory(OutOfMemory),
}

/// Why a whole file was not read.
#[derive(Debug, Drop, Error)]
pub enum ReadFault {
    /// A call failed, and the count of failed reads rose or stands at 2^64 - 1.
    #[error("reading failed")]
    Failed,
    /// The file holds more bytes than the limit.
    #[error("the file is over the limit")]
    TooLong,
    /// Memory ran out.
    #[error("want of memory")]
    NoMemory(OutOfMemory),
}

/// Why a whole file was not written.
#[derive(Debug, Drop, Error)]
pub enum WriteFault {
    /// A call failed, and the count of failed writes rose or stands at 2^64 - 1.
    #[error("writing failed")]
    Failed,
    /// Memory ran out.
    #[error("want of memory")]
    NoMemory(OutOfMemory),
}

impl From<FileFault> for ReadFault {
    ghost from_gives = { λ fault error. error ≡ read_fault_of fault };

    fn from(fault: FileFault) -> ReadFault {
        match fault {
            FileFault::Failed => ReadFault::Failed,
            FileFault::NoMemory(refused) => ReadFault::NoMemory(refused),
        }
    }
}

impl From<AllocError> for ReadFault {
    ghost from_gives = { λ _ error. error ≡ reading.NoMemory out_of_memory };

    fn from(error: AllocError) -> ReadFault {
        ReadFault::NoMemory(error.into())
    }
}

impl From<FileFault> for WriteFault {
    ghost from_gives = { λ fault error. error ≡ write_fault_of fault };

    fn from(fault: FileFault) -> WriteFault {
        match fault {
            FileFault::Failed => WriteFault::Failed,
            FileFault::NoMemory(refused) => WriteFault::NoMemory(refused),
        }
    }
}

impl From<OutOfMemory> for FileFault {
    ghost from_gives = { λ refused error. error ≡ call.NoMemory refused };

    fn from(refused: OutOfMemory) -> FileFault {
        FileFault::NoMemory(refused)
    }
}

impl From<AllocError> for FileFault {
    ghost from_gives = { λ _ error. error ≡ call.NoMemory out_of_memory };

    fn from(error: AllocError) -> FileFault {
        FileFault::NoMemory(error.into())
    }
}
