// What an outcome tells of its state: the lines that a report has of it, or some of them.
ghost use Rattle.std.specs.Prelude.{◌≡◌, ◌++◌, ◌/◌, ◌<◌, OnOk, map, string_bytes};
ghost use Rattle.std.specs.List.{flat_map};
ghost use Rattle.image_load.specs.Contents.{started};
ghost use Rattle.report_text.specs.Text.{cores_text, core_text, ram_text};
ghost use Rattle.run_outcomes.specs.Changes.{AreInside, AreNormal, changed_ram};
ghost use Rattle.image_load.specs.Start.{first_ram};
ghost use Rattle.tcc_base.specs.Settings.{IsAllowed};
ghost use Rattle.text_outcomes.specs.Told.{IsNormal, core_shown, end_text, ends_text, told_text, state_shown};
ghost use Rattle.text_outcomes.specs.Changes.{AreWords, change_line};

use image_load::Loaded;
use report_text::{CoreShown, push_console, push_core, push_core_lines, push_mem};
use run_outcomes::{Snapshot, Tell};
use rv_plain::CoreState;
use std::alloc::AllocError;
use tcc_base::{Config, WordAddr};

/// A law: settings that are there are allowed.
fn settings_are_allowed(config: &Config)
    ensures { IsAllowed config.now }
{
    config.cores();
}

/// A law: the words of RAM as it was loaded have 32 bits. It looks at each of them.
pub(crate) fn words_fit(loaded: &Loaded)
    ensures { AreWords loaded.now }
{
    settings_are_allowed(loaded.config());
    for w in 0..loaded.config().words() {
        loaded.word(WordAddr(w));
    }
}

/// Appends the line that says how a core ended, and that of what it has printed.
#[tactic(auto, unfolding(crate::specs::Told::end_text, report_text::specs::Text::console_text))]
fn push_end(text: &mut String, number: usize, core: &CoreState) -> Result<(), AllocError>
    ensures { OnOk result (string_bytes text.new ≡ string_bytes text.old ++ end_text number (core_shown core.now)) }
{
    push_core(text, number, core.ended)?;
    if !core.console.items.is_empty() {
        push_console(text, &core.console.items)?;
    }
    Ok(())
}

fn push_ends(text: &mut String, cores: &[CoreState]) -> Result<(), AllocError>
    ensures { OnOk result (string_bytes text.new ≡ string_bytes text.old ++ ends_text 0 (map core_shown cores.now)) }
{
    for (number, core) in cores.iter().enumerate() {
        push_end(text, number, core)?;
    }
    Ok(())
}

/// Appends all lines of a core.
fn push_whole(text: &mut String, number: usize, core: &CoreState) -> Result<(), AllocError>
    ensures { OnOk result (string_bytes text.new ≡ string_bytes text.old ++ core_text number (core_shown core.now)) }
{
    let shown = CoreShown {
        end: core.ended,
        pc: core.state.pc(),
        regs: *core.state.regs(),
        console: &core.console.items,
    };
    push_core_lines(text, number, &shown)
}

fn push_cores(text: &mut String, cores: &[CoreState]) -> Result<(), AllocError>
    ensures { OnOk result (string_bytes text.new ≡ string_bytes text.old ++ cores_text 0 (map core_shown cores.now)) }
{
    for (number, core) in cores.iter().enumerate() {
        push_whole(text, number, core)?;
    }
    Ok(())
}

/// Appends the line of a word with this value.
fn push_change(text: &mut String, config: &Config, w: u32, value: u32) -> Result<(), AllocError>
    requires { w < config.now.ram / 4 }
    ensures { OnOk result (string_bytes text.new ≡ string_bytes text.old ++ change_line config.now.base (w, value)) }
{
    settings_are_allowed(config);
    push_mem(text, config.base() + 4 * w, value)
}

fn push_changes(
    text: &mut String,
    config: &Config,
    changes: &[(u32, u32)],
) -> Result<(), AllocError>
    requires { AreInside (config.now.ram / 4) changes.now }
    ensures { OnOk result (string_bytes text.new ≡ string_bytes text.old ++ flat_map (change_line config.now.base) changes.now) }
{
    for (w, value) in changes {
        push_change(text, config, *w, *value)?;
    }
    Ok(())
}

/// Appends the lines of those words of RAM that are not as they were loaded. Takes time in the words that were changed.
fn push_memory(text: &mut String, loaded: &Loaded, changes: &[(u32, u32)]) -> Result<(), AllocError>
    requires fit { AreWords loaded.now }
    requires inside { AreInside (loaded.now.settings.ram / 4) changes.now }
    requires normal { AreNormal (first_ram (started loaded.now)) changes.now }
    ensures { OnOk result (string_bytes text.new ≡ string_bytes text.old
        ++ ram_text loaded.now.settings.base (loaded.now.settings.ram / 4) (changed_ram loaded.now changes.now) (started loaded.now).word) }
{
    push_changes(text, loaded.config(), changes)
}

/// Appends what is told of a state.
#[tactic(auto, unfolding(crate::specs::Told::told_text))]
pub(crate) fn push_told(
    text: &mut String,
    loaded: &Loaded,
    state: &Snapshot,
    tell: Tell,
) -> Result<(), AllocError>
    requires fit { AreWords loaded.now }
    requires normal { IsNormal loaded.now state.now }
    ensures { OnOk result (string_bytes text.new ≡ string_bytes text.old ++ told_text tell (state_shown loaded.now state.now)) }
{
    match tell {
        Tell::Consoles => push_ends(text, &state.cores.items),
        Tell::Memory => {
            push_ends(text, &state.cores.items)?;
            push_memory(text, loaded, &state.changes.items)
        }
        Tell::Everything => {
            push_cores(text, &state.cores.items)?;
            push_memory(text, loaded, &state.changes.items)
        }
    }
}
