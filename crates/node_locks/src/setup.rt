// What the nodes behind locks have in common, which no lock can name.
ghost use Rattle.std.specs.Prelude.{[], None};
ghost use Rattle.image_load.specs.Contents.{Contents};
ghost use Rattle.node_locks.specs.Wiring.{Wiring};

use std::marker::Brand;

/// Which program the nodes of a farm run, and by which links they speak: from the first node to the second. The call that makes a farm
/// picks both, by the nodes that it gives.
pub trait Setup {
    ghost code: { Contents };

    ghost link: { Wiring };
}

impl Setup for Brand {
    ghost code = { record { settings = record { cores = 0; dirs = 0; sets = 0; ways = 0; base = 0; ram = 0 }; ram = []; code = []; entries = [] } };

    ghost link = { λ src dst. None };
}
