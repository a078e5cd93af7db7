// RAM as it was loaded.
ghost use Rattle.std.specs.Prelude.{◌/◌};
ghost use Rattle.image_load.specs.Contents.{started};
ghost use Rattle.tcc_base.specs.Settings.{IsAllowed};

use image_load::Loaded;
use report_text::ShownWords;
use tcc_base::{Config, LineAddr, WordAddr};

/// A law: settings that are there are allowed.
pub fn settings_are_allowed(config: &Config)
    ensures { IsAllowed config.now }
{
    config.cores();
}

/// RAM as it was loaded.
#[derive(Clone, Copy)]
pub struct Laid<'a> {
    pub loaded: &'a Loaded,
}

impl<'a> ShownWords for Laid<'a> {
    ghost words = { λ l. (started l.loaded.now).word };

    ghost count = { λ l. l.loaded.now.settings.ram / 4 };

    fn line_count(&self) -> usize {
        self.loaded.config().words() as usize / 8
    }

    fn line(&self, line: LineAddr) -> [u32; 8] {
        settings_are_allowed(self.loaded.config());
        let first = 8 * line.0;
        [
            self.loaded.word(WordAddr(first)),
            self.loaded.word(WordAddr(first + 1)),
            self.loaded.word(WordAddr(first + 2)),
            self.loaded.word(WordAddr(first + 3)),
            self.loaded.word(WordAddr(first + 4)),
            self.loaded.word(WordAddr(first + 5)),
            self.loaded.word(WordAddr(first + 6)),
            self.loaded.word(WordAddr(first + 7)),
        ]
    }
}
