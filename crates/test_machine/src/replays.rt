// Two cores that halt at once: the events that a machine keeps, and a list of events taken from the start.
use crate::loading::{HALTS, loaded};
use image_load::Loaded;
use net_core::{Step, StepError};
use std::alloc::Global;
use std::test::Fail;
use tcc_base::CoreId;
use tcc_msg::Event;
use tcc_refine::Refined;
use tcc_replay::{ReplayFault, replay};

/// What a machine answers to these events, one after another.
fn answers(
    machine: &mut Refined,
    events: [Event; 3],
) -> Result<[Result<Step, StepError>; 3], Fail> {
    let mut answers = [Err(StepError::Memory); 3];
    for (answer, e) in answers.iter_mut().zip(events) {
        if machine.system().events() > 9 {
            return Err("the machine has counted too many events")?;
        }
        *answer = machine.step(e);
    }
    machine.settle()?;
    Ok(answers)
}

/// What a machine at its start answers to these events, and whether it has listed these others then.
fn answers_and_lists(
    alloc: Global,
    loaded: &Loaded,
    events: [Event; 3],
    listed: [Event; 2],
) -> Result<([Result<Step, StepError>; 3], bool), Fail> {
    let mut machine = Refined::start(alloc, loaded)?;
    let answers = answers(&mut machine, events)?;
    Ok((answers, machine.taken() == listed.as_slice()))
}

#[test]
fn keeps_the_events_that_it_took(rt: HostRuntime) -> Result<(), Fail> {
    let loaded = loaded(rt.alloc(), 2, 1, [&HALTS, &[]])?;
    let [first, second, refused] = [1, 0, 2].map(|core: u8| Event::Exec(CoreId(core)));
    let events = [first, refused, second];
    let answers = [Ok(Step::Moved), Err(StepError::Refused), Ok(Step::Moved)];
    assert_eq!(rt;
        answers_and_lists(rt.alloc(), &loaded, events, [first, second])?,
        (answers, true)
    );
    Ok(())
}

/// How many events the machine has taken, and how many commits it has, where all of these two are taken.
fn replayed(
    alloc: Global,
    loaded: &Loaded,
    events: [Event; 2],
) -> Result<(usize, usize), ReplayFault> {
    let machine = replay(alloc, loaded, &events)?;
    Ok((machine.taken().len(), machine.system().commits().len()))
}

#[test]
fn takes_all_events_or_names_the_first_that_is_not_enabled(rt: HostRuntime) -> Result<(), Fail> {
    let loaded = loaded(rt.alloc(), 2, 1, [&HALTS, &[]])?;
    let rows = [
        ([1, 0], Ok((2, 0))),
        ([1, 2], Err(ReplayFault::Refused(1))),
        ([2, 1], Err(ReplayFault::Refused(0))),
    ];
    for (cores, answer) in rows {
        let events = cores.map(|core: u8| Event::Exec(CoreId(core)));
        assert_eq!(rt; replayed(rt.alloc(), &loaded, events), answer);
    }
    Ok(())
}
