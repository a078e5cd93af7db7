// The fifteen kinds of message by which cores, directories and the vendor work together.
use tcc_base::{LineAddr, Mask, Tid};

/// A message between two nodes. Words outside its mask are zero. The mechanisms are those of Scalable TCC (Chafi et al., "A
/// Scalable, Non-blocking Approach to Transactional Memory", HPCA 2007); which message carries what is this project's choice.
/// A message takes 48 bytes; the fields stand in the order that needs no more.
#[derive(Clone, Copy, Debug, PartialEq, Eq)]
pub enum Msg {
    /// Core to vendor: a transaction asks for its TID.
    TidReq,
    /// Vendor to core: the TID.
    TidGrant {
        tid: Tid,
    },
    /// Core to directory: the core misses a word of the line. `after` is the TID of the core's last commit that sent a `Commit`
    /// to this directory, or 0: the line as it was before that commit is of no use to it.
    LoadReq {
        line: LineAddr,
        after: Tid,
    },
    /// Directory to core: the line's home words.
    Fill {
        line: LineAddr,
        words: [u32; 8],
    },
    /// Core to directory: the transaction has no line to commit here.
    Skip {
        tid: Tid,
    },
    /// Core to directory: the transaction asks to be told once its turn has come here.
    Probe {
        tid: Tid,
    },
    /// Directory to core: the answer to a probe, with the TID that is served.
    ProbeReply {
        tid: Tid,
        serving: Tid,
    },
    /// Core to directory: the transaction is going to commit these words of the line.
    Mark {
        line: LineAddr,
        mask: Mask,
        tid: Tid,
    },
    /// Core to directory: the transaction has committed, with this number of marked lines here.
    Commit {
        tid: Tid,
        count: u32,
    },
    /// Core to directory: the transaction gives up, and its marks with it.
    Abort {
        tid: Tid,
    },
    /// Core to directory: dirty words of a line that leaves the cache.
    WriteBack {
        mask: Mask,
        line: LineAddr,
        words: [u32; 8],
        tag: Tid,
    },
    /// Core to directory: dirty words of a line that stays in the cache.
    Flush {
        mask: Mask,
        line: LineAddr,
        words: [u32; 8],
        tag: Tid,
    },
    /// Directory to core: the owner is asked for the line's dirty words.
    DataReq {
        line: LineAddr,
    },
    /// Directory to core: these words of the line were committed by another core.
    Inv {
        line: LineAddr,
        mask: Mask,
        tid: Tid,
    },
    /// Core to directory: an `Inv` was done. `keeps` says whether a word of the line is still valid in the cache.
    InvAck {
        line: LineAddr,
        keeps: bool,
    },
}
