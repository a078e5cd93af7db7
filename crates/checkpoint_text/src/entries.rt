// Rows that cores and commits have alike: loads, stores and bytes, and rows that end in many numbers. After want of memory a text may
// have more behind its old bytes.
ghost use Rattle.std.specs.Prelude.{◌≡◌, ◌∷◌, ◌++◌, [], ℕ, OnOk, map, codes};
ghost use Rattle.std.specs.List.{flat_map};
ghost use Rattle.row_text.specs.Rows.{number_text, row_text};
ghost use Rattle.checkpoint_text.specs.Numbers.{byte_numbers, flag, load_numbers, size_number, stored_numbers};
ghost use Rattle.checkpoint_text.specs.Written.{table_text};

use row_text::{begin_row, push_number, push_row};
use tcc_base::{List, Load, NoMemory, Size, Stored};

/// Begins a row that ends in many numbers: appends its word and its first numbers.
pub(crate) fn begin_long(text: &mut List<u8>, word: &[u8], numbers: &[u64]) -> Result<(), NoMemory>
    ensures { OnOk result (text.new ≡ text.old ++ (word.now ++ flat_map number_text numbers.now)) }
{
    begin_row(text, word)?;
    for number in numbers {
        push_number(text, *number)?;
    }
    Ok(())
}

/// Appends words to a row, each as a number.
pub(crate) fn push_words(text: &mut List<u8>, words: &[u32]) -> Result<(), NoMemory>
    ensures { OnOk result (text.new ≡ text.old ++ flat_map number_text words.now) }
{
    for word in words {
        push_number(text, *word as u64)?;
    }
    Ok(())
}

/// 1 for true, 0 for false.
pub(crate) fn flag(holds: bool) -> u64
    ensures { result ≡ flag holds }
{
    if holds { 1 } else { 0 }
}

/// The number of bytes.
fn size_number(size: Size) -> u64
    ensures { result ≡ size_number size }
{
    match size {
        Size::Byte => 1,
        Size::Half => 2,
        Size::Word => 4,
    }
}

/// Appends the row of a load, behind the number of whose it is.
fn push_load(text: &mut List<u8>, word: &[u8], k: u64, load: &Load) -> Result<(), NoMemory>
    ensures { OnOk result (text.new ≡ text.old ++ row_text (record { word = word.now; numbers = k ∷ load_numbers load.now })) }
{
    let size = size_number(load.size);
    push_row(text, word, &[k, load.addr as u64, size, load.value as u64])
}

/// The same of a store.
fn push_store(text: &mut List<u8>, word: &[u8], k: u64, store: &Stored) -> Result<(), NoMemory>
    ensures { OnOk result (text.new ≡ text.old ++ row_text (record { word = word.now; numbers = k ∷ stored_numbers store.now })) }
{
    let size = size_number(store.size);
    push_row(
        text,
        word,
        &[k, store.addr as u64, size, store.value as u64],
    )
}

/// Appends a row for each load, behind the number of whose they are.
pub(crate) fn push_loads(
    text: &mut List<u8>,
    word: &[u8],
    k: u64,
    loads: &[Load],
) -> Result<(), NoMemory>
    ensures { OnOk result (text.new ≡ text.old ++ table_text word.now (map (λ y. k ∷ load_numbers y) loads.now)) }
{
    for load in loads {
        push_load(text, word, k, load)?;
    }
    Ok(())
}

/// The same of stores.
pub(crate) fn push_stores(
    text: &mut List<u8>,
    word: &[u8],
    k: u64,
    stores: &[Stored],
) -> Result<(), NoMemory>
    ensures { OnOk result (text.new ≡ text.old ++ table_text word.now (map (λ y. k ∷ stored_numbers y) stores.now)) }
{
    for store in stores {
        push_store(text, word, k, store)?;
    }
    Ok(())
}

/// The same of console bytes.
pub(crate) fn push_bytes(
    text: &mut List<u8>,
    word: &[u8],
    k: u64,
    bytes: &[u8],
) -> Result<(), NoMemory>
    ensures { OnOk result (text.new ≡ text.old ++ table_text word.now (map (λ y. k ∷ byte_numbers y) bytes.now)) }
{
    for byte in bytes {
        push_row(text, word, &[k, *byte as u64])?;
    }
    Ok(())
}
