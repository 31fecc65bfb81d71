// One call after another, each between two writes by which the script knows it.
use crate::asks::{Ask, bound_of};
use crate::faults::Fault;
use std::alloc::Global;
use std::io;

/// A call under a name of its own, the memory that it may ask for, and what else there is to know of it.
pub struct Row<C> {
    pub name: &'static str,
    pub asks: &'static [Ask],
    pub call: C,
}

// A row for each line: its name, the memory that it may ask for, and the call.
macro_rules! table {
    ($($name:literal, $asks:expr, $call:expr;)*) => {
        &[$(Row { name: $name, asks: $asks, call: $call }),*]
    };
}

pub(crate) use table;

/// What calls of a table are made on.
pub trait Trial<C>: Drop {
    /// What this call is made on.
    fn prepare(alloc: Global, call: &C) -> Result<Self, Fault>;

    /// Makes the call. Whether its result is right, where it has one.
    fn make(&mut self, alloc: Global, call: &C) -> Result<bool, Fault>;

    /// Whether all is as it may be where the call returned, or where it failed.
    fn is_right(&mut self, alloc: Global, call: &C, has_returned: bool) -> Result<bool, Fault>;
}

/// Which calls are made, those over one type of blocks after another, or just one of them; where it is said how they
/// go; and how they went.
#[derive(Clone, Copy)]
pub struct Sweep<'a> {
    rt: &'a HostRuntime,
    block: &'a str,
    width: usize,
    name: Option<&'a str>,
    status: u8,
}

impl<'a> Sweep<'a> {
    /// The call of this name, or all of them where there is none.
    pub fn new(rt: &'a HostRuntime, name: Option<&'a str>) -> Self {
        Sweep {
            rt,
            block: "",
            width: 0,
            name,
            status: 0,
        }
    }

    /// From here on the calls are over blocks of this type, which have `width` bits.
    pub fn go_over(&mut self, block: &'a str, width: usize) {
        self.block = block;
        self.width = width;
    }

    /// 0 where each call went as it may, 1 where one did not, 3 where one was not made.
    pub fn status(&self) -> u8 {
        self.status
    }

    // Whether the call of this name is one of them.
    fn has(&self, name: &str) -> bool {
        match self.name {
            Some(wanted) => wanted == name,
            None => true,
        }
    }

    // Says which call comes next, and how much memory it may ask for. What is printed here is one write, and
    // `tests/shim.c` counts the requests for memory from it to the next.
    fn begin(&self, name: &str, asks: &[Ask]) -> io::Result<()> {
        let block = self.block;
        if asks.is_empty() {
            return print!(self.rt; "{block} {name} without memory: ");
        }
        let bound = bound_of(asks, self.width);
        print!(self.rt;
            "{block} {name} requests<={} bytes<={}: ",
            bound.requests, bound.bytes
        )
    }

    // Makes the call between two writes, of which the second says how it ended, before anything else is done.
    fn make<C, T: Trial<C>>(
        &self,
        row: &Row<C>,
        trial: &mut T,
    ) -> Result<Result<bool, Fault>, Fault> {
        self.begin(row.name, row.asks)?;
        let ended = trial.make(self.rt.alloc(), &row.call);
        self.rt.print(match ended {
            Ok(_) => "returned",
            Err(_) => "failed",
        })?;
        Ok(ended)
    }

    // Makes the call. What is wrong of how it went, or nothing.
    fn judged<C, T: Trial<C>>(&self, row: &Row<C>, trial: &mut T) -> Result<&'static str, Fault> {
        let ended = self.make(row, trial)?;
        let has_returned = ended.is_ok();
        if !trial.is_right(self.rt.alloc(), &row.call, has_returned)? {
            return Ok(", WRONG state");
        }
        Ok(match ended {
            Ok(true) => "",
            Ok(false) => ", WRONG result",
            Err(Fault::Memory) if !row.asks.is_empty() => "",
            Err(_) => ", WRONG failure",
        })
    }

    // Makes the call, and says what is wrong of how it went. Whether nothing is.
    fn tried<C, T: Trial<C>>(&self, row: &Row<C>) -> Result<bool, Fault> {
        let mut trial = T::prepare(self.rt.alloc(), &row.call)?;
        let wrong = self.judged(row, &mut trial)?;
        self.rt.println(wrong)?;
        Ok(wrong.is_empty())
    }

    /// Makes the calls of a table.
    pub fn over<C, T: Trial<C>>(&mut self, rows: &[Row<C>]) {
        for row in rows {
            if self.has(row.name) {
                self.status = self.status.max(match self.tried::<C, T>(row) {
                    Ok(is_right) => u8::from(!is_right),
                    Err(_) => 3,
                });
            }
        }
    }
}
