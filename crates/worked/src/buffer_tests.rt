use page_table::{Table, Tlb, Virtual};
use std::test::Fail;

fn at(page: u32) -> Virtual {
    Virtual {
        segment: 1,
        page,
        byte: 0,
    }
}

/// The pages of the pairs in class 3, the older first.
fn pages(buffer: &Tlb) -> (Option<u32>, Option<u32>) {
    let pairs = buffer.pairs(3);
    let mut pages = pairs.as_slice().iter().map(|pair| pair.page);
    (pages.next(), pages.next())
}

#[test]
fn the_older_of_two_pairs_goes(rt: HostRuntime) -> Result<(), Fail> {
    let mut table = Table::new(rt.alloc(), 4, 4)?;
    let mut buffer = Tlb::new();
    table.enter(0, 1, 3);
    table.enter(1, 1, 19);
    table.enter(2, 1, 35);
    for (frame, page) in [(0, 3), (1, 19), (2, 35)] {
        assert!(rt; buffer.find(&table, at(page)) == Some(frame));
    }
    assert!(rt; pages(&buffer) == (Some(19), Some(35)));
    assert!(rt; buffer.find(&table, at(3)) == Some(0));
    assert!(rt; pages(&buffer) == (Some(35), Some(3)));
    assert!(rt; buffer.find(&table, at(35)) == Some(2));
    assert!(rt; pages(&buffer) == (Some(35), Some(3)));
    buffer.forget(2);
    table.leave(2);
    assert!(rt; pages(&buffer) == (Some(3), None));
    assert!(rt; buffer.find(&table, at(35)) == None);
    Ok(())
}
