use arrayvec::ArrayVec;
use lines::LineSet;

/// Lines of a page that are asked for, to read and to write.
#[derive(Clone, Copy)]
pub struct Want {
    pub page: u16,
    pub reads: LineSet,
    pub writes: LineSet,
}

impl Default for Want {
    /// No line of the first page.
    fn default() -> Want {
        Want {
            page: 0,
            reads: LineSet::none(),
            writes: LineSet::none(),
        }
    }
}

/// The lines that one access asks for: it touches at most two pages.
#[derive(Drop)]
pub struct Request {
    pub wants: ArrayVec<Want, 2>,
}
