// A machine of two cores, of which each adds 1 to one word a hundred times, and halts.

use crate::images::{TURNS, adding};
use apart_node::Act;
use node_locks::Nodes;
use stamp_merge::merge;
use std::alloc::Global;
use std::sync::Wait;
use std::test::Fail;
use tcc_base::NoMemory;
use tcc_msg::Schedule;
use tcc_replay::replay;

/// How many turns moved until a whole round had nothing to do: turn k is at node k mod n, with the number k.
fn go_round<R: Wait>(rt: &R, nodes: &mut Nodes) -> Result<u64, NoMemory> {
    let mut moved = 0u64;
    let mut idle = 0u32;
    for turn in 0..TURNS {
        let count = nodes.count();
        if idle == count {
            break;
        }
        idle = idle.wrapping_add(1);
        match nodes.act(rt, turn % count, turn) {
            Act::Moved => {
                moved = moved.wrapping_add(1);
                idle = 0;
            }
            Act::Idle => {}
            Act::Memory => return Err(NoMemory),
        }
    }
    Ok(moved)
}

/// What the nodes have logged, merged.
pub(crate) fn merged<R: Wait>(rt: &R, alloc: Global, nodes: Nodes) -> Result<Schedule, NoMemory> {
    let Ok(logs) = nodes.close(rt, alloc) else {
        return Err(NoMemory);
    };
    merge(alloc, &logs)
}

#[test]
fn what_nodes_log_is_a_run_of_the_machine(rt: HostRuntime) -> Result<(), Fail> {
    let loaded = adding(rt.alloc(), 1)?;
    let mut nodes = Nodes::new(rt.alloc(), &loaded)?;
    let moved = go_round(&rt, &mut nodes)?;
    let schedule = merged(&rt, rt.alloc(), nodes)?;
    let events = schedule.events.items.as_slice();
    assert_eq!(rt; events.len() as u64, moved);
    assert!(rt; events.len() <= 4_194_304);
    let machine = replay(rt.alloc(), &loaded, events)?;
    assert!(rt; machine.system().done());
    assert_eq!(rt; machine.system().commits().len(), 202);
    // the last to add found 199
    assert!(rt;
        machine.system().commits().iter().any(|commit| commit
            .loads
            .items
            .iter()
            .any(|load| load.value == 199))
    );
    Ok(())
}
