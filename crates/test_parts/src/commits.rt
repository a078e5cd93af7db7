// A commit of a core among others and of one that is alone, with three directories of which one was not written.
ghost use Rattle.std.specs.Prelude.{◌≡◌, ◌≤◌, IfOk};

use commit_engine::{
    DirSet, note_commit, send_commits, send_solo, solo_homes, solo_marks_into, solo_room,
    written_homes,
};
use overflow_buf::OverflowBuf;
use spec_cache::SpecCache;
use std::alloc::Global;
use std::test::Fail;
use tcc_base::{Config, DirId, LineAddr, Mask, NodeId, Tid, WordAddr};
use tcc_msg::{Msg, Outgoing};

/// Stores to a word, where its line has a frame or a way is free for it.
fn store(cache: &mut SpecCache, w: u32, value: u32)
    ensures { cache.new.config ≡ cache.old.config }
{
    let line = LineAddr(w / 8);
    if line.0 < cache.config().words() / 8 && !cache.has_frame(line) {
        let _ = cache.place(line);
    }
    if cache.has_frame(line) {
        let _ = cache.store(WordAddr(w), value, false);
    }
}

// A cache of two sets of two ways in which these values were stored to these words.
fn stored(alloc: Global, cfg: &Config, values: [(u32, u32); 3]) -> Result<SpecCache, Fail>
    ensures { IfOk result (λ c. c.config ≡ cfg.now) }
{
    let mut cache = SpecCache::new(alloc, cfg)?;
    let [(first, one), (second, two), (third, three)] = values;
    store(&mut cache, first, one);
    store(&mut cache, second, two);
    store(&mut cache, third, three);
    Ok(cache)
}

// What is sent of a commit of TID 7 to three directories at most.
fn sent(alloc: Global, cfg: &Config, cache: &SpecCache) -> Result<Outgoing, Fail>
    requires config { cache.now.config ≡ cfg.now }
    requires dirs { cfg.now.dirs ≤ 3 }
{
    let mut out = Outgoing::new(alloc);
    out.reserve(3)?;
    send_commits(cfg, cache, Tid(7), &mut out);
    Ok(out)
}

// The last commit at each of the first three directories, after a commit of TID 7 where it was TID 2 before.
fn noted(cfg: &Config, cache: &SpecCache) -> [Tid; 3]
    requires { cache.now.config ≡ cfg.now }
{
    let mut after = [Tid(2); 64];
    note_commit(written_homes(cfg, cache), 3, Tid(7), &mut after);
    [after[0], after[1], after[2]]
}

// What a core sends that stored to the words 0, 24 and 9 and commits TID 7, and the last commits that it then knows of.
fn committed(alloc: Global) -> Result<(Outgoing, [Tid; 3]), Fail> {
    let cfg = Config::new(1, 3, 2, 2, 0, 256)?;
    let cache = stored(alloc, &cfg, [(0, 5), (24, 6), (9, 7)])?;
    let after = noted(&cfg, &cache);
    Ok((sent(alloc, &cfg, &cache)?, after))
}

#[test]
fn commits_go_to_written_directories(rt: HostRuntime) -> Result<(), Fail> {
    let (out, after) = committed(rt.alloc())?;
    let first = Msg::Commit {
        tid: Tid(7),
        count: 2,
    };
    let second = Msg::Commit {
        tid: Tid(7),
        count: 1,
    };
    assert_eq!(rt; out.list.len(), 2);
    assert!(rt; out.list.contains(&(NodeId::Dir(DirId(0)), first)));
    assert!(rt; out.list.contains(&(NodeId::Dir(DirId(1)), second)));
    assert_eq!(rt; after, [Tid(7), Tid(7), Tid(2)]);
    Ok(())
}

// The words 26 and 33, spilled.
fn spilled(alloc: Global) -> Result<OverflowBuf, Fail> {
    let mut spilled = OverflowBuf::new(alloc);
    spilled.put(WordAddr(26), 8)?;
    spilled.put(WordAddr(33), 9)?;
    Ok(spilled)
}

// What a core that is alone sends of a commit of TID 7, and to which directories.
fn sent_alone(
    alloc: Global,
    cfg: &Config,
    cache: &SpecCache,
    spilled: &OverflowBuf,
) -> Result<(Outgoing, DirSet), Fail>
    requires { cache.now.config ≡ cfg.now }
{
    let mut marks = Vec::new(alloc);
    solo_marks_into(cfg, cache, spilled, &mut marks)?;
    let mut out = Outgoing::new(alloc);
    out.reserve(solo_room(cfg, cache, spilled, &marks))?;
    send_solo(cfg, cache, spilled, &marks, Tid(7), &mut out);
    let homes = solo_homes(cfg, cache, spilled, &marks);
    Ok((out, homes))
}

// What a core sends that is alone, stored to the words 0, 24 and 25, and spilled 26 and 33; and where these words are at home.
fn committed_alone(alloc: Global) -> Result<(Outgoing, DirSet), Fail> {
    let cfg = Config::new(1, 3, 2, 2, 0, 256)?;
    let cache = stored(alloc, &cfg, [(0, 5), (24, 6), (25, 7)])?;
    let spilled = spilled(alloc)?;
    sent_alone(alloc, &cfg, &cache, &spilled)
}

const TID: Tid = Tid(7);

const SENT_ALONE: [(NodeId, Msg); 8] = [
    (
        NodeId::Dir(DirId(0)),
        Msg::Mark {
            line: LineAddr(0),
            mask: Mask(1),
            tid: TID,
        },
    ),
    (
        NodeId::Dir(DirId(0)),
        Msg::Mark {
            line: LineAddr(3),
            mask: Mask(7),
            tid: TID,
        },
    ),
    (
        NodeId::Dir(DirId(1)),
        Msg::Mark {
            line: LineAddr(4),
            mask: Mask(2),
            tid: TID,
        },
    ),
    (NodeId::Dir(DirId(0)), Msg::Commit { tid: TID, count: 2 }),
    (NodeId::Dir(DirId(1)), Msg::Commit { tid: TID, count: 1 }),
    (NodeId::Dir(DirId(2)), Msg::Skip { tid: TID }),
    (
        NodeId::Dir(DirId(0)),
        Msg::WriteBack {
            mask: Mask(4),
            line: LineAddr(3),
            words: [0, 0, 8, 0, 0, 0, 0, 0],
            tag: TID,
        },
    ),
    (
        NodeId::Dir(DirId(1)),
        Msg::WriteBack {
            mask: Mask(2),
            line: LineAddr(4),
            words: [0, 9, 0, 0, 0, 0, 0, 0],
            tag: TID,
        },
    ),
];

#[test]
fn a_core_alone_sends_all_that_it_wrote(rt: HostRuntime) -> Result<(), Fail> {
    let (out, homes) = committed_alone(rt.alloc())?;
    assert!(rt; homes.contains(DirId(0)) && homes.contains(DirId(1)) && !homes.contains(DirId(2)));
    assert_eq!(rt; out.list.as_slice(), SENT_ALONE.as_slice());
    Ok(())
}
