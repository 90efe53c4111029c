// The store that `try` is handed.
ghost use Rattle.std.specs.Prelude.{◌≡◌, vec_len, IfOk};
ghost use Rattle.store_format.specs.Header.{total, fresh};
ghost use Rattle.store_calls.specs.TryStore.{try_layout};

use lines::{Directory, PageSize};
use std::alloc::{AllocError, Global};
use store_format::Header;

/// The header of the store of `try`: segment 1 with four pages, segment 2 with two, and a bank of 65,536 bytes.
fn try_header() -> Header
    ensures { result ≡ try_layout }
{
    let directory = match Directory::new(PageSize::Two, &[(1, 4), (2, 2)]) {
        Ok(directory) => directory,
        Err(_) => unreachable!(),
    };
    Header::new(directory, 65_536)
}

/// The store that `try` runs on: nothing in it but its header.
///
/// # Errors
///
/// Only where there is no memory.
pub fn try_store(alloc: Global) -> Result<Vec<u8>, AllocError>
    ensures bytes { IfOk result (λ store. store.items ≡ fresh try_layout) }
    ensures len { IfOk result (λ store. vec_len store ≡ total try_layout) }
{
    try_header().fresh(alloc)
}
