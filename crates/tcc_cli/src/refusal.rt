// Why the program refuses, and the line that it writes for it.
ghost use Rattle.std.specs.Prelude.{◌≡◌, ◌≤◌, OnOk, OnErr};
ghost use Rattle.std.specs.List.{flat_map};
ghost use Rattle.tcc_cli.specs.Images.{elf_named, load_named};
ghost use Rattle.tcc_cli.specs.Lines.{piece_text, IsTold, IsWhole, IsCut};
ghost use Rattle.tcc_cli.specs.Refusals.{reader_word, line_of, refusal_status, words_refusal};
ghost use Rattle.tcc_cli.specs.declared.refusal.Refusal.TheVariants.{Image};

use crate::status::Status;
use image_elf::ElfFault;
use image_load::LoadFault;
use itoa::Buffer;
use tcc_words::{Field, WordsFault};
use tcc_world::{Sink, SinkFailed, write_all};

/// Who refuses an image.
#[derive(Clone, Copy, Debug, PartialEq, Eq)]
pub enum Reader {
    /// The reader of ELF files.
    Elf,
    /// What lays images into RAM.
    Load,
}

/// A file that isn't an image.
#[derive(Clone, Copy, Debug, PartialEq, Eq)]
pub struct ImageFault {
    /// The image's number, from 0 on.
    pub image: u32,
    /// Who refuses it.
    pub by: Reader,
    /// The fault's number, from 1 on: that of `ElfFault` or `LoadFault`.
    pub number: u8,
    /// The size in bytes, offset or index that the fault carries, and 0 where it carries none.
    pub place: u64,
}

/// Why the program didn't do what it was asked for.
#[derive(Clone, Copy, Debug)]
pub enum Refusal<'a> {
    /// The words don't stand as a command's words do.
    Words,
    /// What stands in this field isn't allowed there.
    Value(Field),
    /// A file is no image.
    Image(ImageFault),
    /// The first line of the schedule or list, from 1, that is at fault.
    Schedule(u64),
    /// This file wasn't read or written.
    Store(&'a str),
    /// The text wasn't written whole.
    Output,
    /// There wasn't enough memory.
    Memory,
}

impl<'a> Refusal<'a> {
    /// What a fault of the words is to the program.
    pub fn of_words(fault: WordsFault) -> Refusal<'a>
        ensures { result ≡ words_refusal fault }
    {
        match fault {
            WordsFault::Words => Refusal::Words,
            WordsFault::Value(field) => Refusal::Value(field),
            WordsFault::Memory => Refusal::Memory,
        }
    }

    fn status(&self) -> Status
        ensures { result ≡ refusal_status self.now }
    {
        match self {
            Refusal::Words | Refusal::Value(_) => Status::Words,
            Refusal::Image(_) => Status::Image,
            Refusal::Schedule(_) => Status::Schedule,
            Refusal::Store(_) => Status::StoreFault,
            Refusal::Output => Status::SinkFault,
            Refusal::Memory => Status::Memory,
        }
    }
}

impl ImageFault {
    /// The fault of the file of that number.
    pub fn of_elf(image: u32, fault: ElfFault) -> ImageFault
        ensures { result ≡ elf_named image fault }
    {
        ImageFault {
            image,
            by: Reader::Elf,
            number: fault.number(),
            place: fault.place(),
        }
    }

    /// The fault of the image that a fault of laying names; None for want of memory.
    pub fn of_load(fault: LoadFault) -> Option<ImageFault>
        ensures { result ≡ load_named fault }
    {
        let image = fault.image()?;
        Some(ImageFault {
            image,
            by: Reader::Load,
            number: fault.number(),
            place: fault.place() as u64,
        })
    }
}

/// A part of a line.
#[derive(Clone, Copy)]
enum Piece<'a> {
    Text(&'a str),
    Number(u64),
}

fn write_piece<S: Sink>(sink: &mut S, piece: &Piece) -> Result<(), SinkFailed>
    ensures written { OnOk result (IsWhole (piece_text piece.now) (record { before = S.page sink.old; after = S.page sink.new })) }
    ensures cut { OnErr result (IsCut (piece_text piece.now) (record { before = S.page sink.old; after = S.page sink.new })) }
    ensures faults_stay { (S.page sink.old).faults ≤ (S.page sink.new).faults }
{
    match piece {
        Piece::Text(text) => write_all(sink, text.as_bytes()),
        Piece::Number(n) => write_all(sink, Buffer::new().format(*n).as_bytes()),
    }
}

/// Writes the pieces one after the other, as far as the sink takes them. Takes no memory.
fn write_pieces<S: Sink>(sink: &mut S, pieces: &[Piece])
    ensures { IsTold (flat_map piece_text pieces.now) (record { before = S.page sink.old; after = S.page sink.new }) }
{
    for piece in pieces {
        match write_piece(sink, piece) {
            Ok(()) => {}
            Err(SinkFailed) => return,
        }
    }
}

fn reader_word(reader: Reader) -> &'static str
    ensures { result.now ≡ reader_word reader }
{
    match reader {
        Reader::Elf => "elf",
        Reader::Load => "load",
    }
}

/// The line of an image's fault.
#[tactic(auto, unfolding(crate::specs::Refusals::line_of))]
fn write_fault<S: Sink>(sink: &mut S, fault: &ImageFault)
    ensures { IsTold (line_of (Image fault.now)) (record { before = S.page sink.old; after = S.page sink.new }) }
{
    let pieces = [
        Piece::Text("tcc: image "),
        Piece::Number(fault.image as u64),
        Piece::Text(" "),
        Piece::Text(reader_word(fault.by)),
        Piece::Text(" "),
        Piece::Number(fault.number as u64),
        Piece::Text(" "),
        Piece::Number(fault.place),
        Piece::Text("\n"),
    ];
    write_pieces(sink, &pieces);
}

#[tactic(auto, unfolding(crate::specs::Refusals::line_of))]
fn write_line<S: Sink>(sink: &mut S, refusal: &Refusal)
    ensures { IsTold (line_of refusal.now) (record { before = S.page sink.old; after = S.page sink.new }) }
{
    match refusal {
        Refusal::Words => write_pieces(sink, &[Piece::Text("tcc: words\n")]),
        Refusal::Value(field) => write_pieces(
            sink,
            &[
                Piece::Text("tcc: value "),
                Piece::Text(field.word()),
                Piece::Text("\n"),
            ],
        ),
        Refusal::Image(fault) => write_fault(sink, fault),
        Refusal::Schedule(line) => write_pieces(
            sink,
            &[
                Piece::Text("tcc: schedule line "),
                Piece::Number(*line),
                Piece::Text("\n"),
            ],
        ),
        Refusal::Store(name) => write_pieces(
            sink,
            &[
                Piece::Text("tcc: store "),
                Piece::Text(name),
                Piece::Text("\n"),
            ],
        ),
        Refusal::Output => write_pieces(sink, &[Piece::Text("tcc: output\n")]),
        Refusal::Memory => write_pieces(sink, &[Piece::Text("tcc: memory\n")]),
    }
}

/// Writes the line of a refusal to `err`, and answers its status:
///
/// | Refusal | Line |
/// |---|---|
/// | `Words`, `Value` | `tcc: words`, `tcc: value FIELD` |
/// | `Image` | `tcc: image I elf K P` or `tcc: image I load K P`: the image's number, the fault's number and its place |
/// | `Schedule` | `tcc: schedule line L` |
/// | `Store` | `tcc: store NAME` |
/// | `Output` | `tcc: output` |
/// | `Memory` | `tcc: memory` |
///
/// Where `err` fails, a first part of the line was written, and the status is the same. Takes no memory.
pub fn refuse<E: Sink>(err: &mut E, refusal: &Refusal) -> Status
    ensures status { result ≡ refusal_status refusal.now }
    ensures told { IsTold (line_of refusal.now) (record { before = E.page err.old; after = E.page err.new }) }
{
    write_line(err, refusal);
    refusal.status()
}
