// The text of a whole machine.
ghost use Rattle.std.specs.Prelude.{◌≡◌, ◌++◌, [], OnOk};
ghost use Rattle.checkpoint_text.specs.Laws.{IsLaidOut, machine_text};

use crate::commits::push_commits;
use crate::cores::push_cores;
use crate::directories::push_directories;
use crate::heads::push_head;
use crate::messages::push_messages;
use net_core::System;
use tcc_base::{List, NoMemory};

/// Appends the text of a machine: its settings and counts, its cores, its directories, its messages and its commits. It takes time for each
/// line of memory and each byte that it writes. After want of memory the text may have more behind its old bytes. A machine all of whose
/// messages stand on their links is laid out by its settings, so that no other state has this text.
pub fn push_machine(text: &mut List<u8>, system: &System) -> Result<(), NoMemory>
    ensures text { OnOk result (text.new ≡ text.old ++ machine_text system.now) }
    ensures laid_out { OnOk result (system.now.unsent ≡ [] → IsLaidOut system.now) }
{
    push_head(text, system)?;
    push_cores(text, system)?;
    push_directories(text, system)?;
    push_messages(text, system)?;
    push_commits(text, system.commits())?;
    Ok(())
}
