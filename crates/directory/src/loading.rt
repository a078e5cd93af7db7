// The home words at the start: those that were loaded.
ghost use Rattle.std.specs.Prelude.{◌≡◌, ℕ, ◌/◌, ◌^◌, ◌<◌};
ghost use Rattle.rules_maps.specs.Words.{eight, word_at};
ghost use Rattle.rules_maps.specs.Words.{line_of as line_number};
ghost use Rattle.dir_lines.specs.Home.{IsAtHome};
ghost use Rattle.dir_lines.specs.Words.{words_at};
ghost use Rattle.image_load.specs.Contents.{started};

use dir_lines::HomeWords;
use image_load::Loaded;
use tcc_base::{Config, DirId, LineAddr, Mask, WordAddr};

// Gives each home word its loaded value, line by line of those that are at home here.
pub(crate) fn load_words(words: &mut HomeWords, cfg: &Config, id: DirId, loaded: &Loaded)
    requires exists { id.0 < cfg.now.dirs }
    requires place { words.old.place ≡ record { shape = cfg.now; dir = id.0 } }
    requires made_for { loaded.now.settings ≡ cfg.now }
    ensures place { words.new.place ≡ words.old.place }
    ensures words { words_at (started loaded.now).word words.new ≡ (started loaded.now).word }
    ensures fits { (w : ℕ) → IsAtHome words.old.place (line_number w) → (started loaded.now).word w < 2 ^ 32 }
{
    let count = cfg.words() / 8;
    let dirs = cfg.dirs() as u32;
    let mut line = id.0 as u32;
    while line < count {
        words.write(LineAddr(line), Mask(255), &loaded_line(loaded, line));
        line += dirs;
    }
}

// The loaded words of a line.
fn loaded_line(loaded: &Loaded, line: u32) -> [u32; 8]
    requires within { line < loaded.now.settings.ram / 32 }
    requires small { line < 2 ^ 24 }
    ensures words { result ≡ eight (λ k. (started loaded.now).word (word_at line k)) }
    ensures fits { (k : ℕ) → k < 8 → (started loaded.now).word (word_at line k) < 2 ^ 32 }
{
    let first = 8 * line;
    [
        loaded.word(WordAddr(first)),
        loaded.word(WordAddr(first + 1)),
        loaded.word(WordAddr(first + 2)),
        loaded.word(WordAddr(first + 3)),
        loaded.word(WordAddr(first + 4)),
        loaded.word(WordAddr(first + 5)),
        loaded.word(WordAddr(first + 6)),
        loaded.word(WordAddr(first + 7)),
    ]
}
