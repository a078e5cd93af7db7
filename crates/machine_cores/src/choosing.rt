// The useful events of the cores, counted and by number.
ghost use Rattle.std.specs.Prelude.{◌≡◌, ◌<◌, length, slice_get, is_some};
ghost use Rattle.std.specs.Option.{option_map};
ghost use Rattle.image_load.specs.Contents.{started};
ghost use Rattle.rv_code.specs.Machine.{program};
ghost use Rattle.tcc_msg.specs.Plain.{event_of};
ghost use Rattle.rules_tcc.specs.CoreEvict.{core_evict};
ghost use Rattle.rules_tcc.specs.CoreExec.{core_exec};
ghost use Rattle.machine_cores.specs.Bank.{cores_of};
ghost use Rattle.machine_cores.specs.Uses.{exec_events, evict_events};

use crate::bank::CoreBank;
use tcc_base::CoreId;
use tcc_msg::Event;

impl CoreBank {
    /// Whether a core can execute. It takes constant time.
    pub fn can_exec(&self, core: CoreId) -> bool
        requires { core.0 < self.now.code.settings.cores }
        ensures { result ≡ is_some (core_exec self.now.code.settings (program (started self.now.code)) core.0 (cores_of self.now core.0)) }
    {
        self.execs.get(core.0 as usize) > 0
    }

    /// Whether a way of a core may be emptied. It takes constant time.
    pub fn can_evict(&self, core: CoreId, set: u16, way: u8) -> bool
        requires exists { core.0 < self.now.code.settings.cores }
        requires set_exists { set < self.now.code.settings.sets }
        requires way_exists { way < self.now.code.settings.ways }
        ensures { result ≡ is_some (core_evict self.now.code.settings set way (cores_of self.now core.0)) }
    {
        self.core(core).can_evict(set, way)
    }

    /// How many cores can execute. It takes constant time.
    pub fn exec_total(&self) -> u64
        ensures { result ≡ length (exec_events self.now.code.settings (program (started self.now.code)) (cores_of self.now)) }
    {
        self.execs.total()
    }

    /// How many evictions of all cores are useful. It takes constant time.
    pub fn evict_total(&self) -> u64
        ensures { result ≡ length (evict_events self.now.code.settings (program (started self.now.code)) (cores_of self.now)) }
    {
        self.evicts.total()
    }

    /// The execution of the k-th core that can execute, from 0; None exactly where there are no more than k.
    pub fn exec_at(&self, k: u64) -> Option<Event>
        ensures { option_map event_of result ≡ slice_get
            (exec_events self.now.code.settings (program (started self.now.code)) (cores_of self.now)) k }
    {
        let (core, _) = self.execs.find(k)?;
        Some(Event::Exec(CoreId(core as u8)))
    }

    /// The k-th useful eviction of all cores, from 0, by core, set and way; None exactly where there are no more than k.
    pub fn evict_at(&self, k: u64) -> Option<Event>
        ensures { option_map event_of result ≡ slice_get
            (evict_events self.now.code.settings (program (started self.now.code)) (cores_of self.now)) k }
    {
        let (core, rest) = self.evicts.find(k)?;
        let core = CoreId(core as u8);
        let (set, way) = self.core(core).useful_evict(&self.code, rest as usize)?;
        Some(Event::Evict(core, set, way))
    }
}
