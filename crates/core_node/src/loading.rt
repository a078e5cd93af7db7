// A load: of a word that is spilled, that is valid, or neither.
ghost use Rattle.std.specs.Prelude.{◌≡◌, ◌<◌, ◌-◌, ◌^◌, OnOk, OnErr};
ghost use Rattle.rules_maps.specs.Shape.{lines};
ghost use Rattle.rules_maps.specs.Words.{line_of};
ghost use Rattle.rules_tcc.specs.Execute.{load as load_rule};
ghost use Rattle.rv_exec.specs.Needs.{need_of};
ghost use Rattle.rv_exec.specs.Running.{alone};
ghost use Rattle.commit_engine.specs.Sent.{HasRoom};
ghost use Rattle.core_node.specs.Answers.{IsBlocked};
ghost use Rattle.core_node.specs.Executing.{DidSome, GoesOn};
ghost use Rattle.core_node.specs.View.{core_of, IsCore, Stays};
ghost use Rattle.tcc_base.specs.Limits.{attempt_limit};

use crate::delivering::CoreError;
use crate::finishing::finish;
use crate::missing::fetch;
use crate::state::Core;
use crate::storing::{line_of_word, mark_used};
use rv_decode::Inst;
use rv_exec::Need;
use spec_cache::Look;
use tcc_base::WordAddr;
use tcc_msg::Outgoing;

/// An instruction that loads: it finishes where its word is found, else its line is fetched.
pub(crate) fn load(
    core: &mut Core,
    inst: &Inst,
    need: Need,
    w: WordAddr,
    out: &mut Outgoing,
) -> Result<(), CoreError>
    requires whole { IsCore core.old }
    requires counts { core.old.n < attempt_limit }
    requires goes_on { GoesOn (need_of need) }
    requires exists { line_of w.0 < lines core.old.config }
    requires room { HasRoom out.old 1 }
    ensures does { OnOk result
        (DidSome (load_rule core.old.config (alone inst.now) (need_of need) w.0 (core_of core.old)) 1 out.old core.new out.new) }
    ensures blocked { IsBlocked result (load_rule core.old.config (alone inst.now) (need_of need) w.0 (core_of core.old)) }
    ensures stays { Stays core.old core.new }
    ensures unchanged { OnErr result (core.new ≡ core.old) }
    ensures unsent { OnErr result (out.new ≡ out.old) }
{
    if let Some(word) = core.spilled.get(w) {
        let Ok(()) = finish(core, inst, need, word) else {
            return Err(CoreError::Memory);
        };
        return Ok(());
    }
    match core.cache.look_load(w) {
        Look::Hit(word) => {
            let Ok(()) = finish(core, inst, need, word) else {
                return Err(CoreError::Memory);
            };
            mark_used(core, w);
            Ok(())
        }
        found => fetch(core, line_of_word(w), found, out),
    }
}
