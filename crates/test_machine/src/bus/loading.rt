// What a program is loaded to, for a machine with one bus.
ghost use Rattle.std.specs.Prelude.{◌≡◌, IfOk};

use crate::loading::one_loaded;
use image_load::Loaded;
use std::alloc::Global;
use std::test::Fail;
use tcc_base::Config;

/// What this image is loaded to, for so many cores, whose caches have so many sets and ways, and 65,536 bytes of RAM from 0x80000000 on.
pub fn loaded(alloc: Global, shape: [u64; 3], image: &[u32]) -> Result<Loaded, Fail>
    ensures { IfOk result (λ l. l.settings.dirs ≡ 1) }
{
    let [cores, sets, ways] = shape;
    let config = Config::new(cores, 1, sets, ways, 0x8000_0000, 65_536)?;
    one_loaded(alloc, &config, image)
}
