// How many cores there are.
ghost use Rattle.std.specs.Prelude.{◌≡◌, ◌≤◌, ℕ, length};
ghost use Rattle.image_load.specs.Contents.{started};
ghost use Rattle.machine_cores.specs.Bank.{cores_of, first_core};

use crate::bank::CoreBank;

impl CoreBank {
    /// The number of cores. Those that the machine doesn't have stand for cores at their start. It takes constant time.
    pub fn core_count(&self) -> usize
        ensures count { result ≡ self.now.code.settings.cores }
        ensures all { result ≡ length self.now.cores }
        ensures others { (c : ℕ) → self.now.code.settings.cores ≤ c → cores_of self.now c ≡ first_core (started self.now.code) c }
    {
        self.cores.items.len()
    }
}
