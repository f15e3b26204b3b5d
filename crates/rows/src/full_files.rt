// Files for which there is no memory: no file can be opened, and what is open gives and takes nothing.
ghost use Rattle.std.specs.Prelude.{None};
ghost use Rattle.pd_io.specs.Steady.{steady_reader, steady_writer};

use pd_base::OutOfMemory;
use pd_io::{FileFault, Files, SteadyFiles};
use std::alloc::Global;

/// Files of which none can be opened, read or written, since there is no memory left. They tell nothing of content.
#[derive(Drop)]
pub struct FullFiles {
    // What is open: nothing, as long as nothing can be opened.
    held: SteadyFiles,
    // The request that was refused when memory was full.
    refused: OutOfMemory,
}

impl FullFiles {
    /// Such files, of which none is open, since this request was refused.
    pub fn new(alloc: Global, refused: OutOfMemory) -> FullFiles {
        FullFiles {
            held: SteadyFiles::new(alloc),
            refused,
        }
    }
}

impl Files for FullFiles {
    ghost folder = { λ _. None };

    ghost reader = { λ files. steady_reader files.held };

    ghost writer = { λ files. steady_writer files.held };

    ghost read_faults = { λ _. 0 };

    ghost write_faults = { λ _. 0 };

    fn begin_read(&mut self, _name: &str) -> Result<(), FileFault> {
        Err(FileFault::NoMemory(self.refused))
    }

    fn read(&mut self, _buf: &mut [u8]) -> Result<usize, FileFault> {
        Err(FileFault::NoMemory(self.refused))
    }

    fn begin_write(&mut self, _name: &str) -> Result<(), FileFault> {
        Err(FileFault::NoMemory(self.refused))
    }

    fn write(&mut self, _bytes: &[u8]) -> Result<usize, FileFault> {
        Err(FileFault::NoMemory(self.refused))
    }

    fn finish(&mut self) -> Result<(), FileFault> {
        self.held.finish()
    }
}
