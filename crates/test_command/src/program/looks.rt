// A run looked at: its trace, its counts, and its state. The texts are a second implementation's.
use super::runs::STORE;
use super::{Held, Host, call, call_beside, check_short, over};
use std::alloc::Global;
use std::test::Fail;

const TRACE: &str = "tcc-trace 1
cores 1 dirs 1 sets 16 ways 2 base 2147483648 ram 65536
from 0
e 0
 did 0 80000000 local
e 0
 did 0 80000004 local
e 0
 did 0 80000008 store 80000040 4 00000007
e 0
 did 0 8000000c end
 phase 0 AwaitTid
 sent c0 v 0 TidReq
d c0 v 0
 took TidReq
 sent v c0 0 TidGrant tid 1
d v c0 0
 took TidGrant tid 1
 phase 0 Probing 1
 sent c0 d0 0 Probe tid 1
d c0 d0 0
 took Probe tid 1
 sent d0 c0 0 ProbeReply tid 1 serving 1
d d0 c0 0
 took ProbeReply tid 1 serving 1
 phase 0 Ready 1
 sent c0 d0 1 Mark line 2 mask 1 tid 1
e 0
 commit 1 0 4
 phase 0 Running
 sent c0 d0 2 Commit tid 1 count 1
d c0 d0 1
 took Mark line 2 mask 1 tid 1
x 0 2 0
 emptied 0 line 2 dirty 1 modified 0
 sent c0 d0 3 WriteBack line 2 mask 1 words 00000007 - - - - - - - tag 1
e 0
 did 0 80000010 local
d c0 d0 2
 took Commit tid 1 count 1
 serves 0 2
e 0
 did 0 80000014 halt 0
 phase 0 AwaitTid
 sent c0 v 1 TidReq
d c0 d0 3
 took WriteBack line 2 mask 1 words 00000007 - - - - - - - tag 1
d c0 v 1
 took TidReq
 sent v c0 1 TidGrant tid 2
d v c0 1
 took TidGrant tid 2
 phase 0 Ready 2
 sent c0 d0 4 Skip tid 2
e 0
 commit 2 0 2
 phase 0 Halted
d c0 d0 4
 took Skip tid 2
 serves 0 3
end done
events 19
";

/// Events 4 and 5.
const WINDOW: &str = "tcc-trace 1
cores 1 dirs 1 sets 16 ways 2 base 2147483648 ram 65536
from 4
d c0 v 0
 took TidReq
 sent v c0 0 TidGrant tid 1
d v c0 0
 took TidGrant tid 1
 phase 0 Probing 1
 sent c0 d0 0 Probe tid 1
end open
events 6
";

/// With records: all of them first, and then those that each event changed.
const STATES: &str = "tcc-trace 1
cores 1 dirs 1 sets 16 ways 2 base 2147483648 ram 65536
from 0
 core 0 n 0 pc 80000000 phase Running
 reg 0 11 00000001
 saved 0 pc 80000000
 saved 0 11 00000001
 dir 0 serves 1 owed 0
 vendor next 1
e 0
 did 0 80000000 local
 core 0 n 1 pc 80000004 phase Running
 reg 0 5 00000007
e 0
 did 0 80000004 local
 core 0 n 2 pc 80000008 phase Running
 reg 0 6 80000000
e 0
 did 0 80000008 store 80000040 4 00000007
 core 0 n 3 pc 8000000c phase Running
 frame 0 2 0 line 2 valid 1 read 0 modified 1 dirty 0 tag 0 words 00000007 - - - - - - -
e 0
 did 0 8000000c end
 phase 0 AwaitTid
 sent c0 v 0 TidReq
 core 0 n 4 pc 80000010 phase AwaitTid
 ended 0 end
d c0 v 0
 took TidReq
 sent v c0 0 TidGrant tid 1
 vendor next 2
d v c0 0
 took TidGrant tid 1
 phase 0 Probing 1
 sent c0 d0 0 Probe tid 1
 core 0 n 4 pc 80000010 phase Probing 1
 owing 0 0
d c0 d0 0
 took Probe tid 1
 sent d0 c0 0 ProbeReply tid 1 serving 1
d d0 c0 0
 took ProbeReply tid 1 serving 1
 phase 0 Ready 1
 sent c0 d0 1 Mark line 2 mask 1 tid 1
 core 0 n 4 pc 80000010 phase Ready 1
 gone owing 0
e 0
 commit 1 0 4
 phase 0 Running
 sent c0 d0 2 Commit tid 1 count 1
 core 0 n 0 pc 80000010 phase Running
 gone ended 0
 last 0 0 1
 saved 0 pc 80000010
 saved 0 5 00000007
 saved 0 6 80000000
 frame 0 2 0 line 2 valid 1 read 0 modified 0 dirty 1 tag 1 words 00000007 - - - - - - -
d c0 d0 1
 took Mark line 2 mask 1 tid 1
 line 2 home 0 owner none tag 0 asked 0 mark 1 sharers none
x 0 2 0
 emptied 0 line 2 dirty 1 modified 0
 sent c0 d0 3 WriteBack line 2 mask 1 words 00000007 - - - - - - - tag 1
 gone frame 0 2 0
e 0
 did 0 80000010 local
 core 0 n 1 pc 80000014 phase Running
 reg 0 17 0000005d
d c0 d0 2
 took Commit tid 1 count 1
 serves 0 2
 dir 0 serves 2 owed 0
 line 2 home 0 owner 0 tag 1 asked 0 mark 0 sharers 0
e 0
 did 0 80000014 halt 0
 phase 0 AwaitTid
 sent c0 v 1 TidReq
 core 0 n 2 pc 80000014 phase AwaitTid
 ended 0 halt 0
d c0 d0 3
 took WriteBack line 2 mask 1 words 00000007 - - - - - - - tag 1
 line 2 home 0 owner none tag 1 asked 0 mark 0 sharers 0
 home 80000040 00000007
d c0 v 1
 took TidReq
 sent v c0 1 TidGrant tid 2
 vendor next 3
d v c0 1
 took TidGrant tid 2
 phase 0 Ready 2
 sent c0 d0 4 Skip tid 2
 core 0 n 2 pc 80000014 phase Ready 2
e 0
 commit 2 0 2
 phase 0 Halted
 core 0 n 0 pc 80000014 phase Halted
 saved 0 pc 80000014
 saved 0 17 0000005d
d c0 d0 4
 took Skip tid 2
 serves 0 3
 dir 0 serves 3 owed 0
end done
events 19
";

/// Events 4 and 5, with a message in flight where they begin.
const STATES_WINDOW: &str = "tcc-trace 1
cores 1 dirs 1 sets 16 ways 2 base 2147483648 ram 65536
from 4
 core 0 n 4 pc 80000010 phase AwaitTid
 ended 0 end
 reg 0 5 00000007
 reg 0 6 80000000
 reg 0 11 00000001
 saved 0 pc 80000000
 saved 0 11 00000001
 frame 0 2 0 line 2 valid 1 read 0 modified 1 dirty 0 tag 0 words 00000007 - - - - - - -
 dir 0 serves 1 owed 0
 vendor next 1
 flight c0 v 0 TidReq
d c0 v 0
 took TidReq
 sent v c0 0 TidGrant tid 1
 vendor next 2
d v c0 0
 took TidGrant tid 1
 phase 0 Probing 1
 sent c0 d0 0 Probe tid 1
 core 0 n 4 pc 80000010 phase Probing 1
 owing 0 0
end open
events 6
";

/// Fewer events are taken: the window doesn't begin.
const NO_WINDOW: &str = "tcc-trace 1
cores 1 dirs 1 sets 16 ways 2 base 2147483648 ram 65536
from 20
end done
events 19
";

const COUNT: &str = "tcc-count 1
cores 1 dirs 1 sets 16 ways 2 base 2147483648 ram 65536
attempts 0 begun 2 committed 2 violated 0 open 0 row 0 gaveup 0
attempts all begun 2 committed 2 violated 0 open 0 row 0 gaveup 0
instructions 0 executed 6 committed 6 lost 0 open 0
instructions all executed 6 committed 6 lost 0 open 0
accesses 0 loads 0 stores 1 changes 0 misses 0 fills 0 overflows 0
accesses all loads 0 stores 1 changes 0 misses 0 fills 0 overflows 0
evictions 0 clean 0 dirty 1 modified 0
evictions all clean 0 dirty 1 modified 0
phases 0 Running 9 AwaitTid 5 DoomedTid 0 Probing 2 Ready 2 Overflowing 0 Solo 0 Halted 1
phases all Running 9 AwaitTid 5 DoomedTid 0 Probing 2 Ready 2 Overflowing 0 Solo 0 Halted 1
messages TidReq sent 2 took 2 dropped 0 asked 0 flight 0
messages TidGrant sent 2 took 2 dropped 0 asked 0 flight 0
messages LoadReq sent 0 took 0 dropped 0 asked 0 flight 0
messages Fill sent 0 took 0 dropped 0 asked 0 flight 0
messages Skip sent 1 took 1 dropped 0 asked 0 flight 0
messages Probe sent 1 took 1 dropped 0 asked 0 flight 0
messages ProbeReply sent 1 took 1 dropped 0 asked 0 flight 0
messages Mark sent 1 took 1 dropped 0 asked 0 flight 0
messages Commit sent 1 took 1 dropped 0 asked 0 flight 0
messages Abort sent 0 took 0 dropped 0 asked 0 flight 0
messages WriteBack sent 1 took 1 dropped 0 asked 0 flight 0
messages Flush sent 0 took 0 dropped 0 asked 0 flight 0
messages DataReq sent 0 took 0 dropped 0 asked 0 flight 0
messages Inv sent 0 took 0 dropped 0 asked 0 flight 0
messages InvAck sent 0 took 0 dropped 0 asked 0 flight 0
messages all sent 10 took 10 dropped 0 asked 0 flight 0
end done
events 19
";

/// The totals after eight events, after sixteen, and after the last.
const ROWS: &str =
    "1,1,1,16,2,2147483648,65536,0,1000000,open,8,1,0,0,1,0,0,4,0,0,4,0,1,0,0,0,0,0,0,0,4,2,0,2,0,0,0,0,5,4,0,0,1
1,1,1,16,2,2147483648,65536,0,1000000,open,16,2,1,0,1,0,0,6,4,0,2,0,1,0,0,0,0,0,1,0,9,4,0,2,1,0,0,0,9,8,0,0,1
1,1,1,16,2,2147483648,65536,0,1000000,done,19,2,2,0,0,0,0,6,6,0,0,0,1,0,0,0,0,0,1,0,9,5,0,2,2,0,0,1,10,10,0,0,0
";

/// The last of them.
const LAST_ROW: &str =
    "1,1,1,16,2,2147483648,65536,0,1000000,done,19,2,2,0,0,0,0,6,6,0,0,0,1,0,0,0,0,0,1,0,9,5,0,2,2,0,0,1,10,10,0,0,0
";

/// After five events.
const STATE: &str = "tcc-state 1
cores 1 dirs 1 sets 16 ways 2 base 2147483648 ram 65536
core 0 n 4 pc 80000010 phase AwaitTid
ended 0 end
reg 0 5 00000007
reg 0 6 80000000
reg 0 11 00000001
saved 0 pc 80000000
saved 0 11 00000001
frame 0 2 0 line 2 valid 1 read 0 modified 1 dirty 0 tag 0 words 00000007 - - - - - - -
dir 0 serves 1 owed 0
vendor next 2
flight v c0 0 TidGrant tid 1
useful d v c0 0
end open
events 5
";

/// On the machine with one bus.
const BUS_TRACE: &str = "tcc-bus-trace 1
cores 1 sets 16 ways 2 base 2147483648 ram 65536
from 0
e 0
 did 0 80000000 local
e 0
 did 0 80000004 local
e 0
 did 0 80000008 store 80000040 4 00000007
e 0
 did 0 8000000c end
 phase 0 AwaitTid
e 0
 commit 1 0 4
 phase 0 Running
e 0
 did 0 80000010 local
e 0
 did 0 80000014 halt 0
 phase 0 AwaitTid
e 0
 commit 2 0 2
 phase 0 Halted
end done
events 8
";

/// Event 1 there.
const BUS_WINDOW: &str = "tcc-bus-trace 1
cores 1 sets 16 ways 2 base 2147483648 ram 65536
from 1
e 0
 did 0 80000004 local
end open
events 2
";

/// With records from event 3 on.
const BUS_STATES: &str = "tcc-bus-trace 1
cores 1 sets 16 ways 2 base 2147483648 ram 65536
from 3
 core 0 n 3 pc 8000000c phase Running
 reg 0 5 00000007
 reg 0 6 80000000
 reg 0 11 00000001
 saved 0 pc 80000000
 saved 0 11 00000001
 frame 0 2 0 line 2 valid 1 read 0 modified 1 dirty 0 tag 0 words 00000007 - - - - - - -
 arbiter next 1 free
e 0
 did 0 8000000c end
 phase 0 AwaitTid
 core 0 n 4 pc 80000010 phase AwaitTid
 ended 0 end
e 0
 commit 1 0 4
 phase 0 Running
 core 0 n 0 pc 80000010 phase Running
 gone ended 0
 saved 0 pc 80000010
 saved 0 5 00000007
 saved 0 6 80000000
 frame 0 2 0 line 2 valid 1 read 0 modified 0 dirty 0 tag 0 words 00000007 - - - - - - -
 arbiter next 2 free
 mem 80000040 00000007
e 0
 did 0 80000010 local
 core 0 n 1 pc 80000014 phase Running
 reg 0 17 0000005d
end open
events 6
";

const BUS_COUNT: &str = "tcc-bus-count 1
cores 1 sets 16 ways 2 base 2147483648 ram 65536
attempts 0 begun 2 committed 2 violated 0 open 0 row 0 gaveup 0
attempts all begun 2 committed 2 violated 0 open 0 row 0 gaveup 0
instructions 0 executed 6 committed 6 lost 0 open 0
instructions all executed 6 committed 6 lost 0 open 0
accesses 0 loads 0 stores 1 changes 0 misses 0 fills 0 overflows 0
accesses all loads 0 stores 1 changes 0 misses 0 fills 0 overflows 0
evictions 0 clean 0 dirty 0 modified 0
evictions all clean 0 dirty 0 modified 0
phases 0 Running 6 AwaitTid 2 DoomedTid 0 Probing 0 Ready 0 Overflowing 0 Solo 0 Halted 0
phases all Running 6 AwaitTid 2 DoomedTid 0 Probing 0 Ready 0 Overflowing 0 Solo 0 Halted 0
packets all sent 0 took 0 left 0
end done
events 8
";

/// After five events there.
const BUS_STATE: &str = "tcc-bus-state 1
cores 1 sets 16 ways 2 base 2147483648 ram 65536
core 0 n 0 pc 80000010 phase Running
reg 0 5 00000007
reg 0 6 80000000
reg 0 11 00000001
saved 0 pc 80000010
saved 0 5 00000007
saved 0 6 80000000
saved 0 11 00000001
frame 0 2 0 line 2 valid 1 read 0 modified 0 dirty 0 tag 0 words 00000007 - - - - - - -
arbiter next 2 free
mem 80000040 00000007
useful e 0
useless x 0 2 0
end open
events 5
";

/// A command line over the image `a`, its status, and its text.
type Look = (&'static str, u8, &'static str);

const LOOKS: [Look; 16] = [
    ("trace --raw a", 0, TRACE),
    ("trace --raw --seed 0 --steps 19 --to 19 a", 0, TRACE),
    ("trace --raw --from 4 --to 6 a", 1, WINDOW),
    ("trace --raw --from=4 --steps 6 a", 1, WINDOW),
    ("trace --raw --states a", 0, STATES),
    ("trace --states --from 4 --to 6 --raw a", 1, STATES_WINDOW),
    ("trace --states --raw --from 20 a", 0, NO_WINDOW),
    ("count --raw a", 0, COUNT),
    ("count --raw --steps 1099511627776 a", 0, COUNT),
    ("state --raw --events 5 a", 1, STATE),
    ("trace --bus --raw a", 0, BUS_TRACE),
    ("trace --raw --bus --from 1 --to 2 a", 1, BUS_WINDOW),
    (
        "trace --raw --states --bus --from 3 --to 6 a",
        1,
        BUS_STATES,
    ),
    ("count --raw --bus --seed 7 a", 0, BUS_COUNT),
    ("state --raw --events=5 --bus a", 1, BUS_STATE),
    ("trace --bus --raw --steps 8 --to 9 a", 0, BUS_TRACE),
];

/// The command line gives its status and its text over the image `a` and the schedule `s`.
fn check_look(rt: &impl Host, alloc: Global, look: &Look, record: &[u8]) -> Result<(), Fail> {
    let (command, status, text) = look;
    let given = call_beside(rt, alloc, command, STORE, "s", record)?;
    assert_eq!(rt; given.status, *status, "{command}");
    assert_eq!(rt; given.out.as_slice(), text.as_bytes(), "{command}");
    assert_eq!(rt; given.err.len(), 0, "{command}");
    Ok(())
}

#[test]
fn what_happened_is_told_counted_and_shown(rt: HostRuntime) -> Result<(), Fail> {
    for look in &LOOKS {
        check_look(&rt, rt.alloc(), look, b"")?;
    }
    Ok(())
}

#[test]
fn totals_are_told_as_a_run_goes(rt: HostRuntime) -> Result<(), Fail> {
    let files = [("a", Held::Image(STORE))];
    let whole = call(&rt, rt.alloc(), "count --raw --csv a", &over(&files))?;
    let given = call(&rt, rt.alloc(), "count --raw --every 8 a", &over(&files))?;
    assert!(rt; whole.status == 0 && given.status == 0);
    let names = whole
        .out
        .strip_suffix(LAST_ROW.as_bytes())
        .ok_or("another last row")?;
    let rows = given.out.strip_prefix(names).ok_or("other names")?;
    assert_eq!(rt; rows, ROWS.as_bytes());
    for command in [
        "count --raw --every 19 a",
        "count --raw --csv --every 1099511627776 a",
    ] {
        let given = call(&rt, rt.alloc(), command, &over(&files))?;
        assert_eq!(rt; given.out.as_slice(), whole.out.as_slice(), "{command}");
    }
    Ok(())
}

/// The schedule of the whole run.
fn schedule(rt: &impl Host, alloc: Global) -> Result<Vec<u8>, Fail> {
    let files = [("a", Held::Image(STORE))];
    let run = call(rt, alloc, "run --raw --record s a", &over(&files))?;
    Ok(run.record.ok_or("no record was written")?)
}

/// A command line over the schedule `s` and the image `a`, its status, and its text.
const BY_SCHEDULE: [Look; 6] = [
    ("trace --raw --schedule s a", 0, TRACE),
    ("trace --raw --schedule=s --from 4 --to 6 a", 1, WINDOW),
    ("trace --raw --states --schedule s a", 0, STATES),
    (
        "trace --raw --states --from 4 --to 6 --schedule s a",
        1,
        STATES_WINDOW,
    ),
    ("count --raw --schedule s a", 0, COUNT),
    ("state --raw --schedule s --events 5 a", 1, STATE),
];

#[test]
fn a_record_is_looked_at_as_its_run(rt: HostRuntime) -> Result<(), Fail> {
    let alloc = rt.alloc();
    let record = schedule(&rt, alloc)?;
    for look in &BY_SCHEDULE {
        check_look(&rt, alloc, look, &record)?;
    }
    Ok(())
}

/// The second event isn't enabled there.
const DAMAGED: &str = "tcc-schedule 1
cores 1 dirs 1 sets 16 ways 2 base 2147483648 ram 65536
e 0\nd v c0 0\nend 2\n";

const REFUSED: [Look; 17] = [
    ("trace --raw --schedule s a", 4, "tcc: schedule line 4\n"),
    ("count --raw --schedule s a", 4, "tcc: schedule line 4\n"),
    ("state --raw --schedule s a", 4, "tcc: schedule line 4\n"),
    (
        "count --raw --every 3 --schedule s a",
        4,
        "tcc: schedule line 4\n",
    ),
    (
        "trace --raw --sets 1 --schedule s a",
        4,
        "tcc: schedule line 2\n",
    ),
    (
        "trace --raw --states --schedule s a",
        4,
        "tcc: schedule line 4\n",
    ),
    ("trace --raw --schedule t a", 5, "tcc: store t\n"),
    ("trace --raw --schedule s --seed 1 a", 2, "tcc: words\n"),
    ("trace --raw --resume s --seed 1 a", 2, "tcc: words\n"),
    ("trace --raw --resume s --bus a", 2, "tcc: words\n"),
    ("count --raw --schedule s --bus a", 2, "tcc: words\n"),
    ("state --raw --bus --dirs 1 a", 2, "tcc: words\n"),
    ("count --raw --bus --every 3 a", 2, "tcc: value every\n"),
    (
        "count --raw --resume s --every 0 a",
        2,
        "tcc: value every\n",
    ),
    ("count --raw --consoles --schedule s a", 2, "tcc: words\n"),
    ("count --raw --consoles --bus a", 2, "tcc: words\n"),
    ("count --raw --consoles --every 3 a", 2, "tcc: words\n"),
];

#[test]
fn a_damaged_schedule_is_refused_before_a_line_is_written(rt: HostRuntime) -> Result<(), Fail> {
    for (command, status, line) in &REFUSED {
        let given = call_beside(&rt, rt.alloc(), command, STORE, "s", DAMAGED.as_bytes())?;
        assert_eq!(rt; given.status, *status, "{command}");
        assert_eq!(rt; given.out.len(), 0, "{command}");
        assert_eq!(rt; given.err.as_slice(), line.as_bytes(), "{command}");
    }
    Ok(())
}

#[test]
fn events_that_are_not_taken_may_be_at_fault(rt: HostRuntime) -> Result<(), Fail> {
    let command = "state --raw --schedule s --events 1 a";
    let given = call_beside(&rt, rt.alloc(), command, STORE, "s", DAMAGED.as_bytes())?;
    assert_eq!(rt; given.status, 1);
    Ok(())
}

/// Over the smallest memory that holds the stored word.
const SHORT: [&str; 5] = [
    "trace --raw --ram 96 a",
    "trace --raw --ram 96 --states --from 9 a",
    "trace --raw --ram 96 --bus a",
    "trace --raw --ram 96 --bus --states --from 6 a",
    "count --raw --ram 96 --every 9 a",
];

#[test]
fn a_short_output_has_the_first_bytes_of_the_text(rt: HostRuntime) -> Result<(), Fail> {
    for command in SHORT {
        check_short(&rt, rt.alloc(), command, &[("a", Held::Image(STORE))])?;
    }
    Ok(())
}
