// Serial execution: transactions of the plain machine one after another, each under a TID above the one before it.
ghost use Rattle.std.specs.Prelude.{◌≡◌, ℕ, ◌<◌, ◌^◌, IfOk, IfErr, OnErr, All, length};

use crate::plain::{Order, Plain, PlainFault, SerialFault};
use tcc_base::{Commit, List, Tid};

impl Plain {
    ghost use Rattle.rv_plain.specs.PlainState.{PlainState, plain_of};
    ghost use Rattle.rv_plain.specs.Serials.{Executed, IsSerialFault};

    /// Executes the orders from first to last, each a transaction under a TID above the one before it, and gives a commit
    /// for each.
    ///
    /// An error names the first order, from 0, at fault: `NotRising(i)` where order i's TID isn't above the one before it,
    /// or is 0; else `NotEnding(i)` where order i isn't a transaction of the machine as the orders before it leave it. After
    /// an error the machine is as before. A call copies the machine once: it takes time and memory in RAM's words.
    pub fn serial(&mut self, orders: &[Order]) -> Result<List<Commit>, SerialFault>
        requires { All (λ o. o.core.0 < self.old.loaded.settings.cores) orders.now }
        ensures executed { IfOk result (Executed self.old 0 orders.now self.new) }
        ensures fault { IfErr result (IsSerialFault self.old 0 orders.now) }
        ensures loaded { self.new.loaded ≡ self.old.loaded }
        ensures unchanged { OnErr result (self.new ≡ self.old) }
    {
        self.serial_from(Tid(0), orders)
    }

    /// As `serial`, where the last transaction before the orders had this TID: the first order's TID is above it.
    pub fn serial_from(&mut self, last: Tid, orders: &[Order]) -> Result<List<Commit>, SerialFault>
        requires { All (λ o. o.core.0 < self.old.loaded.settings.cores) orders.now }
        ensures executed { IfOk result (Executed self.old last.0 orders.now self.new) }
        ensures fault { IfErr result (IsSerialFault self.old last.0 orders.now) }
        ensures loaded { self.new.loaded ≡ self.old.loaded }
        ensures unchanged { OnErr result (self.new ≡ self.old) }
    {
        let mut trial = match self.copy() {
            Ok(trial) => trial,
            Err(_) => return Err(SerialFault::Memory),
        };
        match trial.execute_orders(last, orders) {
            Err(fault) => Err(fault),
            Ok(commits) => {
                *self = trial;
                Ok(commits)
            }
        }
    }

    // as `serial_from`, but after an error the machine is wherever the orders before it left it
    fn execute_orders(&mut self, before: Tid, orders: &[Order]) -> Result<List<Commit>, SerialFault>
        requires { All (λ o. o.core.0 < self.old.loaded.settings.cores) orders.now }
        ensures executed { IfOk result (Executed self.old before.0 orders.now self.new) }
        ensures fault { IfErr result (IsSerialFault self.old before.0 orders.now) }
        ensures loaded { self.new.loaded ≡ self.old.loaded }
    {
        let mut commits = List::new(self.alloc());
        let mut last = before.0;
        for (i, order) in orders.iter().enumerate() {
            if order.tid.0 <= last {
                return Err(SerialFault::NotRising(i as u64));
            }
            let done = match self.transaction(order.core, order.n) {
                Ok(done) => done,
                Err(PlainFault::NotEnding(_)) => return Err(SerialFault::NotEnding(i as u64)),
                Err(PlainFault::Memory) => return Err(SerialFault::Memory),
            };
            match commits.push(Commit {
                tid: order.tid,
                core: order.core,
                n: order.n,
                loads: done.loads,
                stores: done.stores,
                console: done.console,
            }) {
                Ok(()) => last = order.tid.0,
                Err(_) => return Err(SerialFault::Memory),
            }
        }
        Ok(commits)
    }
}
