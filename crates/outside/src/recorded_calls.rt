// The calls of a disk in memory that were recorded.
ghost use Rattle.std.specs.Prelude.{◌≡◌, ◌+◌, ◌++◌, [], ◌∷◌, length, count_by, OnOk, OnErr};
ghost use Rattle.outside.specs.Record.{calls_of, is_write};

use crate::call_record::DiskCall;
use std::alloc::{AllocError, Global};

/// A call that did more than ask, after so many that asked alone.
#[derive(Drop)]
pub struct Run {
    pub asked: u64,
    pub call: DiskCall,
}

/// All calls of a disk, in order. Those that asked alone are counted, and take no memory.
#[derive(Drop)]
pub struct Calls {
    pub runs: Vec<Run>,
    pub asked: u64,
    pub number: u64,
    ghost counted: { length (calls_of runs.items asked) ≡ number },
}

impl Calls {
    ghost use Rattle.outside.specs.Calls.{made_of, HasRoom};

    /// No call. It takes no memory.
    pub fn new(alloc: Global) -> Calls
        ensures { made_of result ≡ [] }
    {
        Calls {
            runs: Vec::new(alloc),
            asked: 0,
            number: 0,
        }
    }

    /// How many there were.
    pub fn number(&self) -> u64
        ensures { result ≡ length (made_of self.now) }
    {
        self.number
    }

    /// How many of them wrote all their bytes.
    pub fn writes(&self) -> u64
        ensures { result ≡ count_by is_write (made_of self.now) }
    {
        writes_of(&self.runs)
    }

    /// A call more that asked alone, if there is a number for it.
    #[inline(always)]
    pub fn ask(&mut self) -> Result<(), AllocError>
        ensures made { OnOk result (made_of self.new ≡ made_of self.old ++ DiskCall.Asked ∷ []) }
        ensures none { OnErr result (made_of self.new ≡ made_of self.old) }
    {
        if self.number == u64::MAX {
            return Err(AllocError);
        }
        self.asked += 1;
        self.number += 1;
        Ok(())
    }

    /// Makes room for a call more that does more than ask.
    pub fn reserve(&mut self) -> Result<(), AllocError>
        ensures room { OnOk result (HasRoom self.new) }
        ensures same { made_of self.new ≡ made_of self.old }
    {
        if self.number == u64::MAX {
            return Err(AllocError);
        }
        self.runs.reserve(1)
    }

    /// A call more.
    pub fn push(&mut self, call: DiskCall)
        requires { HasRoom self.old }
        ensures { made_of self.new ≡ made_of self.old ++ call ∷ [] }
    {
        let asked = self.asked;
        let _room = self.runs.push(Run { asked, call });
        self.asked = 0;
        self.number += 1;
    }
}

/// How many of these wrote all their bytes.
fn writes_of(runs: &[Run]) -> u64
    ensures { result ≡ count_by (λ run. is_write run.call) runs.now }
{
    runs.iter().filter(|run| run.call.is_write()).count() as u64
}
