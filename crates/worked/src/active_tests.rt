//! Calls of the disk that fail while several programs are active.
use call_status::Status;
use job_calls::run_source;
use outside::{Call, Joint, MemoryDisk, MemoryScreen, MemorySource, Refusal};
use std::alloc::{AllocError, Global};
use std::test::Fail;
use store_calls::try_store;

/// A schedule of nothing, which tells the number that a store opens with.
const NOTHING: &str = "frames 2\nschedule\nend\n";

/// The programs of the rows below. The offsets are in segment 1, whose pages have 2,048 bytes each, and whose lines have 128.
const PROGRAMS: &str = "\
    program add\n.window 1, 1, rw\ncau r6, r0, 0x1000\nl r3, 0(r6)\na r3, r2\nst r3, 0(r6)\nsvc 0\nend\n\
    program rd\n.window 1, 1, r\ncau r6, r0, 0x1000\nl r3, 0(r6)\nl r2, 0(r6)\nsvc 1\nsvc 0\nend\n\
    program deep\n.window 1, 1, r\ncau r6, r0, 0x1000\nl r3, 6144(r6)\nsvc 0\nend\n\
    program dep\n.window 1, 1, rw\ncau r6, r0, 0x1000\na r6, r2\nl r7, 0(r6)\na r7, r3\nst r7, 0(r6)\nsvc 0\nend\n\
    program move\n.window 1, 1, rw\ncau r6, r0, 0x1000\ncas r7, r6, r2\ncas r8, r6, r3\nl r9, 0(r7)\ns r9, r4\n\
    jb lt, no\nst r9, 0(r7)\nl r9, 0(r8)\na r9, r4\nst r9, 0(r8)\nsvc 0\nno: svc 2\nend\n\
    program sum\n.window 1, 1, r\ncau r6, r0, 0x1000\ncas r7, r6, r2\nl r9, 0(r7)\ncas r7, r6, r3\nl r2, 0(r7)\n\
    a r2, r9\nsvc 1\nsvc 0\nend\n\
    program null\nsvc 0\nend\n\
    schedule\n";

/// A day of four accounts: deposits, two transfers side by side of which one gives up, a sum that waits, two transfers that
/// wait for each other, and a crash while two are active.
const DAY: &str =
    "begin dep 0 100\nbegin dep 128 50\nbegin dep 2048 7\nbegin dep 4096 9\ndrain 1 50\nbegin move 0 2048 30\n\
    begin move 128 0 60\nbegin sum 0 2048\nbegin null\nturn 5 7\nturn 7 50\nturn 6 50\ndrain 1 50\ncheckpoint\n\
    begin move 2048 4096 37\nbegin move 4096 2048 9\nturn 9 7\nturn 10 7\nturn 9 50\nturn 10 50\n\
    begin move 4096 2048 9\nbegin dep 0 1\nturn 9 50\nturn 12 5\ncrash\nbegin sum 0 4096\nturn 13 50\n";

/// Its report up to the checkpoint.
const BEFORE_NOON: &str =
    "begin 1 dep\nbegin 2 dep\nbegin 3 dep\nbegin 4 dep\nturn 1 ran 6 page 1 lock 2\n\
    commit 1 number 1 steps 6 out -\nturn 2 ran 6 page 0 lock 2\ncommit 2 number 2 steps 6 out -\n\
    turn 3 ran 6 page 1 lock 2\ncommit 3 number 3 steps 6 out -\nturn 4 ran 6 page 1 lock 2\n\
    commit 4 number 4 steps 6 out -\nbegin 5 move\nbegin 6 move\nbegin 7 sum\nbegin 8 null\n\
    turn 5 ran 7 page 0 lock 2\nturn 7 ran 2 page 0 lock 1\nwait 7 for 5\nturn 6 ran 6 page 0 lock 1\n\
    check 6 code 8 at 00000022\nidle 1\nidle 2\nidle 3\nidle 4\nturn 5 ran 4 page 0 lock 2\n\
    commit 5 number 5 steps 11 out -\nidle 6\nturn 7 ran 6 page 0 lock 2\ncommit 7 number 6 steps 8 out 6b\n\
    turn 8 ran 1 page 0 lock 0\ncommit 8 number 7 steps 1 out -\n";

/// And from there up to those that the crash loses.
const AFTER_NOON: &str =
    "stored 7\nbegin 9 move\nbegin 10 move\nturn 9 ran 7 page 0 lock 2\nturn 10 ran 7 page 0 lock 2\n\
    turn 9 ran 0 page 0 lock 1\nwait 9 for 10\nturn 10 ran 0 page 0 lock 1\ncycle 10 9 10\nvictim 10\n\
    begin 11 move\nbegin 12 dep\nturn 9 ran 4 page 1 lock 2\ncommit 9 number 8 steps 11 out -\n\
    turn 12 ran 5 page 0 lock 2\nlost 11\nlost 12\n";

/// A schedule, the frames for its pages, the call that the disk refuses, and what it comes to: the parts of its report after
/// the line that opens it, and the number with which the store opens then, where that is asked.
struct Row {
    name: &'static str,
    frames: u16,
    refusal: (Call, u64, u64, u32),
    status: Status,
    events: &'static str,
    report: &'static [&'static str],
    opens: Option<u64>,
}

const ROWS: [Row; 4] = [
    Row {
        name: "a page that cannot be read",
        frames: 2,
        refusal: (Call::Read, 137_488, 139_536, 0),
        status: Status::Done,
        events: "begin deep\nbegin add 5\nturn 2 3\nturn 1 9\nturn 2 9\n",
        report: &[
            "begin 1 deep\nbegin 2 add\nturn 2 ran 3 page 1 lock 1\nturn 1 ran 1 page 1 lock 0\ndisk 1\n\
            turn 2 ran 2 page 1 lock 1\ncommit 2 number 1 steps 5 out -\nend 1\n",
        ],
        opens: None,
    },
    Row {
        name: "a doubt while another is active",
        frames: 2,
        refusal: (Call::Sync, 0, 0, 2),
        status: Status::DiskFault,
        events: "begin add 5\nbegin rd\nturn 2 1\nturn 1 9\nturn 2 9\n",
        report: &[
            "begin 1 add\nbegin 2 rd\nturn 2 ran 1 page 0 lock 0\nturn 1 ran 4 page 1 lock 2\ndoubt 1 number 1\nclosed\n",
        ],
        opens: None,
    },
    Row {
        name: "a day whose checkpoint fails",
        frames: 4,
        refusal: (Call::Sync, 0, 0, 15),
        status: Status::DiskFault,
        events: DAY,
        report: &[BEFORE_NOON, "closed\n"],
        opens: Some(7),
    },
    Row {
        name: "a day whose crash finds no disk",
        frames: 4,
        refusal: (Call::Sync, 0, 0, 19),
        status: Status::DiskFault,
        events: DAY,
        report: &[BEFORE_NOON, AFTER_NOON, "closed\n"],
        opens: Some(8),
    },
];

/// What a call left: its status, what it printed, and the disk's bytes.
#[derive(Drop)]
struct Left {
    status: Status,
    printed: Vec<u8>,
    held: Vec<u8>,
}

/// The job on this disk.
fn run_on(alloc: Global, disk: MemoryDisk, job: &str) -> Result<Left, AllocError> {
    let mut source = MemorySource::new(Vec::from_slice(alloc, job.as_bytes())?, Vec::new(alloc));
    let mut outside = Joint::new(disk, MemoryScreen::new(alloc, Vec::new(alloc)));
    let ended = run_source(alloc, &mut source, &mut outside);
    let (disk, screen) = outside.into_parts();
    Ok(Left {
        status: ended.status,
        printed: screen.into_bytes(),
        held: disk.into_image(),
    })
}

#[test]
fn a_call_fails_while_several_are_active(rt: HostRuntime) -> Result<(), Fail> {
    let alloc = rt.alloc();
    for row in &ROWS {
        let job = format!(in alloc; "frames {}\n{PROGRAMS}{}end\n", row.frames, row.events)?;
        let mut wanted = String::from_str(alloc, "open 0\n")?;
        for part in row.report {
            wanted.push_str(part)?;
        }
        let (call, from, to, skip) = row.refusal;
        let refusals = vec![in alloc;
            Refusal {
                call,
                from,
                to,
                skip
            },
        ]?;
        let disk = MemoryDisk::new(alloc, try_store(alloc)?, refusals);
        let left = run_on(alloc, disk, &job)?;
        assert_eq!(rt; left.status, row.status, "{}", row.name);
        assert!(rt;
            left.printed.as_slice() == wanted.as_bytes(),
            "{}",
            row.name
        );
        if let Some(number) = row.opens {
            let disk = MemoryDisk::new(alloc, left.held, Vec::new(alloc));
            let opened = run_on(alloc, disk, NOTHING)?;
            let told = format!(in alloc; "open {number}\nend {number}\n")?;
            assert!(rt;
                opened.printed.as_slice() == told.as_bytes(),
                "{}",
                row.name
            );
        }
    }
    Ok(())
}
