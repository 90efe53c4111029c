// The entry of a page of the store, and the access rule (docs/MODEL.md).
ghost use Rattle.std.specs.Prelude.{◌≡◌, ◌<◌};

use lines::LineSet;

/// The entry of a page: the identifier that owns it, or 0 for nobody; its write bit; and its lockbits, line i as bit i.
#[derive(Clone, Copy, PartialEq, Eq)]
pub struct Authority {
    pub tid: u8,
    pub write: bool,
    pub bits: u16,
}

impl Authority {
    ghost use Rattle.lines.specs.Access.{lets, grant_by, fine_grant_by};
    ghost use Rattle.page_table.specs.Entries.{grant_of};

    /// The entry of a page that nobody owns. It lets nobody load or store.
    pub const NOBODY: Authority = Authority {
        tid: 0,
        write: false,
        bits: 0,
    };

    /// The access rule: whether an identifier may load from a line of the page, or store to it (docs/MODEL.md, "Lines,
    /// locks and waits").
    pub fn permits(&self, tid: u8, line: u8, store: bool) -> bool
        requires { line < 16 }
        ensures { result ≡ lets (grant_of self.now) tid line store }
    {
        self.tid == tid
            && match (self.write, LineSet::from_bits(self.bits).contains(line)) {
                (true, true) => true,
                (true, false) | (false, true) => !store,
                (false, false) => false,
            }
    }

    /// The entry for an identifier that has locked these lines of the page: to write the written ones, if there are some,
    /// else to read the read ones.
    pub fn grant(tid: u8, reads: LineSet, writes: LineSet) -> Authority
        ensures { grant_of result ≡ grant_by tid reads writes }
    {
        let write = !writes.is_empty();
        let lines = if write { writes } else { reads };
        Authority {
            tid,
            write,
            bits: lines.bits(),
        }
    }

    /// The entry of a fine page for an identifier that has locked these lines of it: to write the written ones, if its row
    /// stores into the page or if there are some and all sixteen are read, else to read the read ones.
    pub fn grant_fine(tid: u8, reads: LineSet, writes: LineSet, storing: bool) -> Authority
        ensures { grant_of result ≡ fine_grant_by tid storing reads writes }
    {
        if storing {
            Authority {
                tid,
                write: true,
                bits: writes.bits(),
            }
        } else if reads.count() == 16 {
            Authority::grant(tid, reads, writes)
        } else {
            Authority::grant(tid, reads, LineSet::none())
        }
    }
}
