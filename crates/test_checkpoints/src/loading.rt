// What several tests load: the files of some words.
use std::alloc::Global;
use std::test::Fail;
use tcc_base::List;

// The file of these words.
pub(crate) fn file(alloc: Global, words: &[u32]) -> Result<List<u8>, Fail> {
    let mut items = Vec::new(alloc);
    for word in words {
        items.extend_from_slice(&word.to_le_bytes())?;
    }
    Ok(List { items })
}
