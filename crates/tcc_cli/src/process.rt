// The program as a process: the words that it was started with, and what `tcc_main` does with them.
ghost use Rattle.std.specs.Prelude.{◌≡◌, drop, map, IfErr, IfOk};
ghost use Rattle.std.specs.IoError.{error_kind};
ghost use Rattle.std.specs.String.{string_bytes};
ghost use Rattle.std.specs.Vec.Iter.{into_iter_items};
ghost use Rattle.tcc_cli.specs.Process.{IsRefusedAtOnce, unread, words_in};
ghost use Rattle.tcc_cli.specs.Top.{Caused};

use crate::refusal::{Refusal, refuse};
use crate::status::Status;
use crate::top::tcc_main;
use std::alloc::Global;
use std::env::Args;
use std::io;
use std::io::ErrorKind;
use std::sync::Wait;
use std::thread::Threads;
use tcc_base::NoMemory;
use tcc_world::{Gate, Sink, Store};

/// Does what the words of a process ask for, as `tcc_main` does, and answers how that ended. `given` are the texts that the process was
/// started with, of which the first is the program's own name.
///
/// Where they couldn't be read, memory was short, `Memory`, or one of them is no text, `Words`: the line of that is written to `err`, and
/// nothing else is done. `Memory` also comes where there is no room to collect the words.
pub fn tcc_process<R: Threads + Wait + Sync, F: Store, O: Sink, E: Sink, G: Gate + Sync>(
    rt: &R,
    alloc: Global,
    given: io::Result<Args>,
    files: &mut F,
    out: &mut O,
    err: &mut E,
    gate: &G,
) -> Status
    ensures words { IfOk given (λ words. Caused (words_in words)
        (record {
          files = record { before = F.disk files.old; after = F.disk files.new };
          out = record { before = O.page out.old; after = O.page out.new };
        })
        (record { before = E.page err.old; after = E.page err.new })
        result) }
    ensures refused { IfErr given (λ e. IsRefusedAtOnce (unread (error_kind e))
        (record {
          files = record { before = F.disk files.old; after = F.disk files.new };
          out = record { before = O.page out.old; after = O.page out.new };
        })
        (record { before = E.page err.old; after = E.page err.new })
        result) }
{
    let given = match given {
        Ok(given) => given,
        Err(e) => return refuse(err, &why_unread(&e)),
    };
    let texts = match texts(alloc, given) {
        Ok(texts) => texts,
        Err(NoMemory) => return refuse(err, &Refusal::Memory),
    };
    let words = match words_of(alloc, after_first(&texts)) {
        Ok(words) => words,
        Err(NoMemory) => return refuse(err, &Refusal::Memory),
    };
    tcc_main(rt, alloc, &words, files, out, err, gate)
}

/// Why the words weren't read.
fn why_unread<'a>(e: &io::Error) -> Refusal<'a>
    ensures { result ≡ unread (error_kind e.now) }
{
    match e.kind() {
        ErrorKind::OutOfMemory => Refusal::Memory,
        _ => Refusal::Words,
    }
}

/// All that the process was started with.
fn texts(alloc: Global, given: Args) -> Result<Vec<String>, NoMemory>
    ensures { IfOk result (λ texts. texts.items ≡ into_iter_items given) }
{
    match given.collect(alloc) {
        Ok(texts) => Ok(texts),
        Err(_) => Err(NoMemory),
    }
}

/// Texts without the first of them.
fn after_first(texts: &[String]) -> &[String]
    ensures { result.now ≡ drop 1 texts.now }
{
    if texts.is_empty() { texts } else { &texts[1..] }
}

/// Texts as words.
fn words_of<'a>(alloc: Global, texts: &'a [String]) -> Result<Vec<&'a str>, NoMemory>
    ensures { IfOk result (λ words. map (λ w. w.now) words.items ≡ map string_bytes texts.now) }
{
    let mut words = Vec::new(alloc);
    for text in texts {
        match words.push(text.as_str()) {
            Ok(()) => {}
            Err(_) => return Err(NoMemory),
        }
    }
    Ok(words)
}
