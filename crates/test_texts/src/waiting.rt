// Texts in the middle of runs, with each reason once, and at the end of one.
ghost use Rattle.std.specs.Prelude.{◌≡◌, ◌≤◌, IfOk, length};

use crate::loading::file;
use image_load::{load, raw};
use net_core::System;
use schedule_text::read;
use std::alloc::Global;
use std::test::Fail;
use tcc_base::{Config, List};
use text_why::why;

// lui x6,0x80000; sw x11,96(x6); ecall
const STORES_24: [u32; 3] = [0x8000_0337, 0x06b3_2023, 0x0000_0073];

// lui x6,0x80000; lw x5,96(x6); sw x5,64(x6); ecall
const COPIES_24_TO_16: [u32; 4] = [0x8000_0337, 0x0603_2283, 0x0453_2023, 0x0000_0073];

// lui x6,0x80000; sw x6,128(x6); ecall
const STORES_32: [u32; 3] = [0x8000_0337, 0x0863_2023, 0x0000_0073];

// addi x5,x0,7; lui x6,0x80000; sw x5,64(x6); ecall; addi x17,x0,93; ecall
const STORES_7_AND_EXITS: [u32; 6] = [
    0x0070_0293,
    0x8000_0337,
    0x0453_2023,
    0x0000_0073,
    0x05d0_0893,
    0x0000_0073,
];

// The second core has read what TID 1 is about to store to, and its Probe for TID 2 waits.
const READER_WAITS: &str = "tcc-schedule 1
cores 2 dirs 2 sets 16 ways 2 base 2147483648 ram 65536
e 1\ne 1\nd c1 d1 0\nd d1 c1 0\ne 1\ne 1\ne 0\ne 0\ne 0\nd c0 v 0\ne 1\nd c1 v 0
d v c0 0\nd c0 d0 0\nd v c1 0\nd c1 d0 0\nd d0 c1 0\nd c1 d1 1
end 18\n";

// Then the first core has sent its Mark and its Commit, and the Mark hasn't come.
const TWO_WAIT: &str = "tcc-schedule 1
cores 2 dirs 2 sets 16 ways 2 base 2147483648 ram 65536
e 1\ne 1\nd c1 d1 0\nd d1 c1 0\ne 1\ne 1\ne 0\ne 0\ne 0\nd c0 v 0\ne 1\nd c1 v 0
d v c0 0\nd c0 d0 0\nd v c1 0\nd c1 d0 0\nd d0 c1 0\nd c1 d1 1\nd c0 d1 0\nd d1 c0 0\ne 0
end 21\n";

// The second core asks for a line of which the first has marked a word.
const LINE_IS_MARKED: &str = "tcc-schedule 1
cores 2 dirs 2 sets 16 ways 2 base 2147483648 ram 65536
e 0\ne 0\ne 0\nd c0 v 0\nd v c0 0\nd c0 d1 0\nd d1 c0 0\ne 0\nd c0 d1 1\ne 1\ne 1
end 11\n";

// It asks for a line that the first has committed, whose words the first was asked for.
const OWNER_IS_ASKED: &str = "tcc-schedule 1
cores 2 dirs 2 sets 16 ways 2 base 2147483648 ram 65536
e 1\ne 1\nd c1 d1 0\ne 0\ne 0\ne 0\nd c0 v 0\nd v c0 0\nd c0 d1 0\nd d1 c0 0\ne 0\nd c0 d1 1
d c0 d1 2\nd d1 c1 1\nd c1 d1 1\nd d1 c1 0\ne 1\nd c1 d1 2
end 18\n";

// Words that come home before the Commit that made them.
const COMES_EARLY: &str = "tcc-schedule 1
cores 2 dirs 1 sets 16 ways 2 base 2147483648 ram 65536
e 0\ne 0\ne 0\nd c0 v 0\nd v c0 0\nd c0 d0 0\nd d0 c0 0\ne 0\nd c0 d0 1\nx 0 4 0
end 10\n";

// A whole run: a store, and an exit.
const ALL_DONE: &str = "tcc-schedule 1
cores 1 dirs 1 sets 16 ways 2 base 2147483648 ram 65536
e 0\ne 0\ne 0\ne 0\nd c0 v 0\nd v c0 0\nd c0 d0 0\nd d0 c0 0\ne 0\nd c0 d0 1\nx 0 2 0\ne 0\nd c0 d0 2
e 0\nd c0 d0 3\nd c0 v 1\nd v c0 1\ne 0\nd c0 d0 4
end 19\n";

// The machine of these files before its first event.
fn begun(alloc: Global, config: &Config, files: &[List<u8>]) -> Result<System, Fail>
    requires some { 1 ≤ length files.now }
    requires few { length files.now ≤ 16 }
    ensures none_taken { IfOk result (λ s. s.events ≡ 0) }
{
    let loaded = load(alloc, config, &raw(alloc, config, files)?)?;
    Ok(System::start(alloc, &loaded)?)
}

// Why the messages of a machine wait.
fn told(alloc: Global, system: &mut System) -> Result<String, Fail> {
    system.settle()?;
    Ok(why(alloc, system.done(), system.events(), system)?)
}

// Why messages wait after all events of a schedule, on the machine of these files.
fn told_after(alloc: Global, schedule: &str, files: &[List<u8>]) -> Result<String, Fail>
    requires some { 1 ≤ length files.now }
    requires few { length files.now ≤ 16 }
{
    let Ok(schedule) = read(alloc, schedule.as_bytes()) else {
        return Err("the schedule is well formed")?;
    };
    let mut system = begun(alloc, &schedule.config, files)?;
    system
        .run(&schedule.events.items)
        .map_err(|_| "an event isn't enabled")?;
    told(alloc, &mut system)
}

#[test]
fn a_probe_waits_in_the_middle_of_a_violation(rt: HostRuntime) -> Result<(), Fail> {
    let files = [
        file(rt.alloc(), &STORES_24)?,
        file(rt.alloc(), &COPIES_24_TO_16)?,
    ];
    let text = told_after(rt.alloc(), READER_WAITS, &files)?;
    assert_eq!(rt;
        text.as_str(),
        "tcc-why 1\nend open\nevents 18\nwaits c1 d1 2 early 1\nnext d c0 d1 0\n"
    );
    let text = told_after(rt.alloc(), TWO_WAIT, &files)?;
    assert_eq!(rt;
        text.as_str(),
        "tcc-why 1\nend open\nevents 21\nwaits c0 d1 2 count 0\nwaits c1 d1 2 early 1\nnext e 0\n"
    );
    Ok(())
}

#[test]
fn a_load_waits_for_the_line(rt: HostRuntime) -> Result<(), Fail> {
    let files = [
        file(rt.alloc(), &STORES_24)?,
        file(rt.alloc(), &COPIES_24_TO_16)?,
    ];
    let text = told_after(rt.alloc(), LINE_IS_MARKED, &files)?;
    assert_eq!(rt;
        text.as_str(),
        "tcc-why 1\nend open\nevents 11\nwaits c1 d1 0 marked 1\nnext e 0\n"
    );
    let text = told_after(rt.alloc(), OWNER_IS_ASKED, &files)?;
    assert_eq!(rt;
        text.as_str(),
        "tcc-why 1\nend open\nevents 18\nwaits c1 d1 2 asked 0\nnext e 0\n"
    );
    Ok(())
}

#[test]
fn words_wait_for_their_commit(rt: HostRuntime) -> Result<(), Fail> {
    let files = [file(rt.alloc(), &STORES_32)?];
    let text = told_after(rt.alloc(), COMES_EARLY, &files)?;
    assert_eq!(rt;
        text.as_str(),
        "tcc-why 1\nend open\nevents 10\nwaits c0 d0 3 tag 0\nnext e 0\n"
    );
    Ok(())
}

#[test]
fn nothing_comes_after_a_run_that_is_done(rt: HostRuntime) -> Result<(), Fail> {
    let files = [file(rt.alloc(), &STORES_7_AND_EXITS)?];
    let text = told_after(rt.alloc(), ALL_DONE, &files)?;
    assert_eq!(rt;
        text.as_str(),
        "tcc-why 1\nend done\nevents 19\nnext none\n"
    );
    Ok(())
}
