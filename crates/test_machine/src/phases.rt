// Machines of two and of four cores that run by phases, with ample memory.
use crate::events::{C1, V, event, events, name};
use crate::loading::loaded;
use image_load::Loaded;
use net_core::StepError;
use std::alloc::Global;
use std::test::Fail;
use tcc_base::CoreId;
use tcc_msg::{Event, Name};
use tcc_phase::{PhaseSystem, phase_run};
use tcc_refine::Refined;

// add x27,x0,x10, so that each core is in the phase of its number; ecall; ecall; addi x17,x0,93; ecall, which halts
const OWN_PHASE: [u32; 5] = [
    0x00a0_0db3,
    0x0000_0073,
    0x0000_0073,
    0x05d0_0893,
    0x0000_0073,
];

// The second core commits once, is then in phase 1, and asks for its next TID.
const TOO_EARLY: [Event; 7] = events![(e 1) (e 1) (d C1 V 0) (d V C1 0) (e 1) (e 1) (d C1 V 1)];

/// What a machine has come to.
#[derive(Clone, Copy, Debug, PartialEq, Eq)]
struct State {
    events: u64,
    done: bool,
    commits: usize,
    /// The phases of its first commits, by rising TID; 255 where there is none.
    phases: [u32; 6],
    /// Whether the machine without phases takes the same events.
    is_run: bool,
}

/// Whether a machine that holds nothing back takes these events.
fn takes(alloc: Global, loaded: &Loaded, events: &[Event]) -> Result<bool, Fail> {
    let mut refined = Refined::start(alloc, loaded)?;
    for &e in events {
        if refined.system().events() > 9_999 || refined.step(e).is_err() {
            return Ok(false);
        }
    }
    Ok(true)
}

/// The first phases of a list.
fn first_phases(phases: &[u32]) -> [u32; 6] {
    let mut first = [255; 6];
    for (phase, &q) in first.iter_mut().zip(phases) {
        *phase = q;
    }
    first
}

/// Where a machine of so many cores comes to by a seed.
fn state_after(alloc: Global, cores: u64, seed: u64) -> Result<State, Fail> {
    let loaded = loaded(alloc, cores, 1, [&OWN_PHASE, &[]])?;
    let machine = phase_run(alloc, &loaded, seed, 9_000)?;
    let refined = machine.inner();
    Ok(State {
        events: refined.system().events(),
        done: refined.system().done(),
        commits: refined.system().commits().len(),
        phases: first_phases(machine.phases()),
        is_run: takes(alloc, &loaded, refined.taken())?,
    })
}

#[test]
fn later_phases_commit_later(rt: HostRuntime) -> Result<(), Fail> {
    let ended = State {
        events: 34,
        done: true,
        commits: 6,
        phases: [0, 0, 0, 0, 1, 1],
        is_run: true,
    };
    for seed in 1..4 {
        assert_eq!(rt; state_after(rt.alloc(), 2, seed)?, ended);
    }
    Ok(())
}

/// What a machine of two cores answers to those events, and the phase of its second core then.
fn too_early(machine: &mut PhaseSystem) -> Option<(Result<(), (u64, StepError)>, u32)> {
    if machine.inner().system().events() > 9 || machine.inner().system().config().cores() < 2 {
        return None;
    }
    let answer = machine.run(&TOO_EARLY);
    if machine.inner().system().config().cores() < 2 {
        return None;
    }
    Some((answer, machine.phase(CoreId(1))))
}

#[test]
fn a_request_of_a_later_phase_is_refused(rt: HostRuntime) -> Result<(), Fail> {
    let loaded = loaded(rt.alloc(), 2, 1, [&OWN_PHASE, &[]])?;
    let mut machine = PhaseSystem::start(rt.alloc(), &loaded)?;
    assert_eq!(rt;
        too_early(&mut machine),
        Some((Err((6, StepError::Refused)), 1))
    );
    assert_eq!(rt; takes(rt.alloc(), &loaded, &TOO_EARLY)?, true);
    Ok(())
}

#[test]
fn four_cores_come_to_the_end(rt: HostRuntime) -> Result<(), Fail> {
    let state = state_after(rt.alloc(), 4, 7)?;
    let ended = State {
        events: state.events,
        done: true,
        commits: 12,
        phases: [0; 6],
        is_run: true,
    };
    assert_eq!(rt; state, ended);
    Ok(())
}
