// A core whose lines memory has.
ghost use Rattle.std.specs.Prelude.{◌≡◌};
ghost use Rattle.core_node.specs.View.{core_of};
ghost use Rattle.bus_tcc.specs.Cleaning.{cleaned_by};

use core_node::CoreNode;
use tcc_base::Tagged;

/// No word of these lines is dirty any more.
pub(crate) fn clean_all(core: &mut CoreNode, lines: &[Tagged])
    ensures does { core_of core.new ≡ cleaned_by lines.now (core_of core.old) }
    ensures config { core.new.config ≡ core.old.config }
    ensures id { core.new.id ≡ core.old.id }
{
    for line in lines {
        core.clean(line.line);
    }
}
