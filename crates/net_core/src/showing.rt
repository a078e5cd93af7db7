// The directories, the vendor and the links, to be looked at.
ghost use Rattle.std.specs.Prelude.{◌≡◌, ◌<◌, ℕ, Some, length, slice_get};
ghost use Rattle.image_load.specs.Start.{first_ram};
ghost use Rattle.directory.specs.Data.{DirData, dir_of};
ghost use Rattle.net_core.specs.Machine.{settings_of, start_of, world_of};

use crate::system::System;
use directory::Directory;
use machine_links::Lane;
use tcc_base::{DirId, Tid};

impl System {
    /// A directory. It takes constant time.
    pub fn directory(&self, dir: DirId) -> &Directory
        requires { dir.0 < (settings_of self.now).dirs }
        ensures place { result.now.lines.place ≡ record { shape = settings_of self.now; dir = dir.0 } }
        ensures state { dir_of (first_ram (start_of self.now)) result.now ≡ (world_of self.now).dirs dir.0 }
        ensures data { slice_get self.now.dirs.dirs dir.0 ≡ Some result.now }
    {
        self.dirs.directory(dir)
    }

    /// All directories by number. It takes constant time.
    pub fn all_dirs(&self) -> &[Directory]
        ensures data { result.now ≡ self.now.dirs.dirs }
        ensures count { length self.now.dirs.dirs ≡ (settings_of self.now).dirs }
        ensures place { (d : ℕ) (x : DirData) → slice_get self.now.dirs.dirs d ≡ Some x
            → x.lines.place ≡ record { shape = settings_of self.now; dir = d } }
    {
        self.dirs.all_dirs()
    }

    /// The links of all pairs of nodes by source and then destination, in the order of cores, directories and the vendor; what stands
    /// on none of them yet isn't there. It takes constant time.
    pub fn all_lanes(&self) -> &[Lane]
        ensures lanes { result.now ≡ self.now.flights.lanes }
        ensures cores { self.now.flights.cores ≡ (settings_of self.now).cores }
        ensures dirs { self.now.flights.dirs ≡ (settings_of self.now).dirs }
    {
        self.flights.all_lanes()
    }

    /// The TID that the vendor gives next. It takes constant time.
    pub fn next_tid(&self) -> Tid
        ensures { result.0 ≡ (world_of self.now).next }
    {
        self.vendor.next()
    }
}
