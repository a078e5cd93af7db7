// Reports of two small machines and summaries of trials, letter by letter.
ghost use Rattle.std.specs.Prelude.{◌≡◌, ◌≤◌, length};

use reg_checkpoint::Regs;
use report_text::{
    CoreShown, Ending, Trial, bus_machine_report, report, serial_report, trial_summary,
};
use std::alloc::{AllocError, Global};
use std::test::Fail;
use tcc_base::{Commit, CoreEnd, CoreId, List, Load, NoMemory, Reg, Size, Tid};
use work_gen::Work;

fn commit(alloc: Global, tid: u64, core: u8, n: u32, loads: &[Load]) -> Result<Commit, AllocError> {
    Ok(Commit {
        tid: Tid(tid),
        core: CoreId(core),
        n,
        loads: List {
            items: loads.to_vec(alloc)?,
        },
        stores: List::new(alloc),
        console: List::new(alloc),
    })
}

fn registers(values: &[(u8, u32)]) -> Regs {
    let mut regs = Regs::new();
    for (number, value) in values {
        if let Some(r) = Reg::new(*number) {
            regs.set(r, *value);
        }
    }
    regs
}

fn core(end: CoreEnd, pc: u32, regs: Regs, console: &[u8]) -> CoreShown<'_> {
    CoreShown {
        end,
        pc,
        regs,
        console,
    }
}

#[test]
fn one_core_that_halts(rt: HostRuntime) -> Result<(), Fail> {
    let alloc = rt.alloc();
    let commits = vec![in alloc; commit(alloc, 1, 0, 4, &[])?, commit(alloc, 2, 0, 2, &[])?]?;
    let regs = registers(&[(5, 7), (6, 0x8000_0000), (11, 1), (17, 93)]);
    let mut ram = [[0u32; 8]; 3];
    ram[2][0] = 7;
    let ending = Ending {
        commits: &commits,
        cores: &[core(CoreEnd::Halt(0), 0x8000_0014, regs, b"")],
        base: 0x8000_0000,
        ram: &ram.as_slice(),
        loaded: &[[0; 8]; 3].as_slice(),
    };
    let text = report(alloc, true, 8, &ending).ok().ok_or("no memory")?;
    let want = "tcc-report 1
end done
events 8
commit 1 0 4
commit 2 0 2
core 0 halt 0
pc 80000014
reg 5 00000007
reg 6 80000000
reg 11 00000001
reg 17 0000005d
mem 80000040 00000007
";
    assert_eq!(rt; text.as_str(), want);
    Ok(())
}

#[test]
fn three_cores_with_loads_and_a_console(rt: HostRuntime) -> Result<(), Fail> {
    let alloc = rt.alloc();
    let loads = [
        Load {
            addr: 0x1003,
            size: Size::Byte,
            value: 0xfe,
        },
        Load {
            addr: 0x1002,
            size: Size::Half,
            value: 0xfeed,
        },
        Load {
            addr: 0x1000,
            size: Size::Word,
            value: 0xfeed_0001,
        },
    ];
    let commits = vec![in alloc;
        commit(alloc, 3, 2, 10, &loads)?,
        commit(alloc, 12, 0, 1, &[])?,
    ]?;
    let last = registers(&[(1, 0xabcd), (31, 0xffff_ffff)]);
    let ending = Ending {
        commits: &commits,
        cores: &[
            core(CoreEnd::Run, 0x1004, Regs::new(), b"Hi\n"),
            core(CoreEnd::Trap(7), 0x1008, Regs::new(), b""),
            core(CoreEnd::Halt(4_294_967_295), 0xc, last, b"\x00\xff"),
        ],
        base: 0x1000,
        ram: &[[0xfeed_0001, 2, 0, 4, 0, 0, 0, 9]].as_slice(),
        loaded: &[[0xfeed_0001, 1, 3, 4, 0, 0, 0, 8]].as_slice(),
    };
    let body = "commit 3 2 10
load 00001003 1 000000fe
load 00001002 2 0000feed
load 00001000 4 feed0001
commit 12 0 1
core 0 run
pc 00001004
console 48690a
core 1 trap 7
pc 00001008
core 2 halt 4294967295
pc 0000000c
reg 1 0000abcd
reg 31 ffffffff
console 00ff
mem 00001004 00000002
mem 00001008 00000000
mem 0000101c 00000009
";
    let text = report(alloc, false, 4_194_304, &ending)
        .ok()
        .ok_or("no memory")?;
    let head = "tcc-report 1\nend open\nevents 4194304\n";
    assert_eq!(rt; text.as_str(), format!(in alloc; "{head}{body}")?.as_str());
    let text = bus_machine_report(alloc, false, 4_194_304, &ending)
        .ok()
        .ok_or("no memory")?;
    let head = "tcc-bus 1\nend open\nevents 4194304\n";
    assert_eq!(rt; text.as_str(), format!(in alloc; "{head}{body}")?.as_str());
    let text = serial_report(alloc, &ending).ok().ok_or("no memory")?;
    assert_eq!(rt;
        text.as_str(),
        format!(in alloc; "tcc-serial 1\n{body}")?.as_str()
    );
    Ok(())
}

// The summary of a trial of 7 transactions that took 90 events and made 30 commits.
fn summary(
    alloc: Global,
    work: Work,
    done: bool,
    ram: &[[u32; 8]],
    loaded: &[[u32; 8]],
) -> Result<String, NoMemory>
    requires same { length ram.now ≡ length loaded.now }
    requires few { length ram.now ≤ 2 }
{
    trial_summary(
        alloc,
        &Trial {
            work,
            number: 7,
            done,
            events: 90,
            commits: 30,
            ram: &ram,
            loaded: &loaded,
        },
    )
}

#[test]
fn one_more_and_one_less_are_nothing(rt: HostRuntime) -> Result<(), Fail> {
    let loaded = [[5; 8]; 2];
    let ram = [[5, 5, 4, 5, 5, 5, 5, 5], [5, 5, 5, 5, 5, 5, 5, 6]];
    let text = summary(rt.alloc(), Work::Transfers, true, &ram, &loaded)?;
    let want = "tcc-trial 1
work transfers 7
end done
events 90
commits 30
sum 00000000
";
    assert_eq!(rt; text.as_str(), want);
    Ok(())
}

#[test]
fn sums_go_round(rt: HostRuntime) -> Result<(), Fail> {
    for (ram, loaded, sum) in [
        ([0, 0, 0, 0, 0, 0, 0, 3], [0; 8], "00000003"),
        ([0; 8], [0, 0, 0, 0, 0, 0, 0, 1], "ffffffff"),
        ([0xffff_ffff; 8], [0; 8], "fffffff8"),
        (
            [0x8000_0000, 0x8000_0001, 0, 0, 0, 0, 0, 0],
            [0; 8],
            "00000001",
        ),
        ([0; 8], [0xffff_ffff, 2, 0, 0, 0, 0, 0, 0], "ffffffff"),
    ] {
        let text = summary(rt.alloc(), Work::Stencil, false, &[ram], &[loaded])?;
        let want = format!(in rt.alloc();
            "tcc-trial 1\nwork stencil 7\nend open\nevents 90\ncommits 30\nsum {sum}\n"
        )?;
        assert_eq!(rt; text.as_str(), want.as_str());
    }
    Ok(())
}
