// A store that is made.
ghost use Rattle.std.specs.Prelude.{◌≡◌, ◌++◌, codes, decimal};
ghost use Rattle.store_calls.specs.Below.{RoomEnds};
ghost use Rattle.store_calls.specs.New.{IsOfNew, Made};

use super::written::{ask_empty, write_store};
use call_status::Status;
use outside::Outside;
use std::alloc::Global;
use store_format::Header;
use text_line::TextLine;

/// Makes a store with nothing in it but this header on an empty disk, and prints how many bytes it has.
pub fn make_store<W: Outside>(alloc: Global, header: &Header, outside: &mut W) -> Status
    ensures { RoomEnds W.Outside (Made W.Outside header.now) IsOfNew outside.old outside.new result }
{
    if let Err(status) = ask_empty(outside) {
        return status;
    }
    let image = match header.fresh(alloc) {
        Err(_) => return Status::NoMemory,
        Ok(image) => image,
    };
    let line = new_line(header.total());
    write_store(image.as_slice(), line.as_slice(), outside)
}

/// The line of a new store of so many bytes.
fn new_line(total: u64) -> TextLine
    ensures { result ≡ codes "new " ++ decimal total ++ codes "\n" }
{
    let mut line = TextLine::new();
    line.begin(b"new");
    line.number(total);
    line.end();
    line
}
