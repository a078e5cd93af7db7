// Transactions of a program of six instructions, alone and one after another.
ghost use Rattle.std.specs.Prelude.{◌≡◌, ◌<◌, All, IfOk};

use crate::programs::loaded;
use rv_plain::{Done, Order, Plain, PlainFault, SerialFault};
use std::alloc::Global;
use std::test::Fail;
use tcc_base::{Commit, CoreEnd, CoreId, Reg, Size, Stored, Tid, WordAddr};

const IMAGE: [u8; 24] = [
    0x93, 0x02, 0x70, 0x00, // addi x5, x0, 7
    0x37, 0x03, 0x00, 0x80, // lui x6, 0x80000
    0x23, 0x20, 0x53, 0x04, // sw x5, 64(x6)
    0x73, 0x00, 0x00, 0x00, // ecall: ends the transaction
    0x93, 0x08, 0xd0, 0x05, // addi x17, x0, 93
    0x73, 0x00, 0x00, 0x00, // ecall: halts with the core's number
];

fn machine(alloc: Global) -> Result<Plain, Fail>
    ensures cores { IfOk result (λ p. p.loaded.settings.cores ≡ 2) }
    ensures ram { IfOk result (λ p. p.loaded.settings.ram ≡ 65536) }
{
    let loaded = loaded(alloc, &IMAGE)?;
    Ok(Plain::start(alloc, loaded.config(), &loaded)?)
}

fn order(tid: u64, core: u8, n: u32) -> Order
    ensures { result.core.0 ≡ core }
{
    Order {
        tid: Tid(tid),
        core: CoreId(core),
        n,
    }
}

// The core's pc, how it stands, x5, x6 and x17, and the word that the program stores.
type Seen = (u32, CoreEnd, [u32; 3], u32);

fn seen(plain: &Plain, core: u8) -> Seen
    requires exists { core < plain.now.loaded.settings.cores }
    requires ram { 64 < plain.now.loaded.settings.ram }
{
    let regs = plain.regs(CoreId(core));
    let register = |n| match Reg::new(n) {
        Some(r) => regs.get(r),
        None => 0,
    };
    (
        plain.pc(CoreId(core)),
        plain.ended(CoreId(core)),
        [register(5), register(6), register(17)],
        plain.word(WordAddr(16)),
    )
}

// The number of loads, the number of stores, and the first store.
type Accesses = (usize, usize, Option<Stored>);

fn accesses(done: &Done) -> Accesses {
    let stores = done.stores.items.as_slice();
    (
        done.loads.items.len(),
        stores.len(),
        stores.first().copied(),
    )
}

// A transaction of so many instructions of the first core, and what is seen of it then.
fn transact(plain: &mut Plain, n: u32) -> (Result<Accesses, PlainFault>, Seen)
    requires exists { 0 < plain.old.loaded.settings.cores }
    requires ram { 64 < plain.old.loaded.settings.ram }
    ensures { plain.new.loaded ≡ plain.old.loaded }
{
    let told = match plain.transaction(CoreId(0), n) {
        Ok(done) => Ok(accesses(&done)),
        Err(fault) => Err(fault),
    };
    (told, seen(plain, 0))
}

// Transactions of 0, 2, 5, 4, 2 and 2 instructions.
fn all_transacted(alloc: Global) -> Result<[(Result<Accesses, PlainFault>, Seen); 6], Fail> {
    let mut plain = machine(alloc)?;
    Ok([
        transact(&mut plain, 0),
        transact(&mut plain, 2),
        transact(&mut plain, 5),
        transact(&mut plain, 4),
        transact(&mut plain, 2),
        transact(&mut plain, 2),
    ])
}

const FIRST: Seen = (0x8000_0000, CoreEnd::Run, [0, 0, 0], 0);

const STORED: Seen = (0x8000_0010, CoreEnd::Run, [7, 0x8000_0000, 0], 7);

fn halted(core: u32) -> Seen {
    (0x8000_0014, CoreEnd::Halt(core), [7, 0x8000_0000, 93], 7)
}

#[test]
fn transactions_end_at_their_last_instruction(rt: HostRuntime) -> Result<(), Fail> {
    let told = all_transacted(rt.alloc())?;
    let store = Stored {
        addr: 0x8000_0040,
        size: Size::Word,
        value: 7,
    };
    let wanted = [
        (Err(PlainFault::NotEnding(0)), FIRST),
        (Err(PlainFault::NotEnding(2)), FIRST),
        (Err(PlainFault::NotEnding(4)), FIRST),
        (Ok((0, 1, Some(store))), STORED),
        (Ok((0, 0, None)), halted(0)),
        (Err(PlainFault::NotEnding(0)), halted(0)),
    ];
    assert_eq!(rt; told, wanted);
    Ok(())
}

// The order that a commit is of, by its number.
fn order_of(commits: &[Commit], k: usize) -> Option<Order> {
    let commit = commits.get(k)?;
    Some(Order {
        tid: commit.tid,
        core: commit.core,
        n: commit.n,
    })
}

// The number of commits, and the orders of the first three.
type Commits = (usize, [Option<Order>; 3]);

// A serial execution by these orders.
fn serial(plain: &mut Plain, orders: &[Order]) -> Result<Commits, SerialFault>
    requires { All (λ o. o.core.0 < plain.old.loaded.settings.cores) orders.now }
    ensures { plain.new.loaded ≡ plain.old.loaded }
{
    let list = plain.serial(orders)?;
    let commits = list.items.as_slice();
    let first = [
        order_of(commits, 0),
        order_of(commits, 1),
        order_of(commits, 2),
    ];
    Ok((commits.len(), first))
}

// Serial executions that fail, and what is seen of the first core then; and one that doesn't, and what is seen of both cores then.
#[derive(Clone, Copy)]
struct Told {
    refused: [Result<Commits, SerialFault>; 3],
    before: Seen,
    done: Result<Commits, SerialFault>,
    after: [Seen; 2],
}

fn execute(plain: &mut Plain) -> Told
    requires exist { 1 < plain.old.loaded.settings.cores }
    requires ram { 64 < plain.old.loaded.settings.ram }
{
    let refused = [
        serial(plain, &[order(0, 0, 4)]),
        serial(plain, &[order(1, 0, 4), order(1, 1, 4)]),
        serial(plain, &[order(1, 0, 4), order(2, 0, 1)]),
    ];
    let before = seen(plain, 0);
    let done = serial(plain, &[order(1, 0, 4), order(7, 1, 4), order(8, 1, 2)]);
    Told {
        refused,
        before,
        done,
        after: [seen(plain, 0), seen(plain, 1)],
    }
}

// The same of the machine that begins so.
fn executed(alloc: Global) -> Result<Told, Fail> {
    let mut plain = machine(alloc)?;
    Ok(execute(&mut plain))
}

#[test]
fn orders_are_all_executed_or_none(rt: HostRuntime) -> Result<(), Fail> {
    let told = executed(rt.alloc())?;
    let faults = [
        Err(SerialFault::NotRising(0)),
        Err(SerialFault::NotRising(1)),
        Err(SerialFault::NotEnding(1)),
    ];
    let orders = [
        Some(order(1, 0, 4)),
        Some(order(7, 1, 4)),
        Some(order(8, 1, 2)),
    ];
    assert_eq!(rt; told.refused, faults);
    assert_eq!(rt; told.before, FIRST);
    assert_eq!(rt; told.done, Ok((3, orders)));
    assert_eq!(rt; told.after, [STORED, halted(1)]);
    Ok(())
}
