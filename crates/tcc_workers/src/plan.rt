// What is to be done, and how it ended.
ghost use Rattle.std.specs.Prelude.{◌≡◌, ◌/◌, ◌<◌};

use crate::shift::Shift;

/// How many turns in a row find nothing to do before a worker ends.
const PATIENCE: u32 = 1024;

/// What workers are to do: with how many threads, how many events at most, the seed of their choices, and how many acts a turn has at most,
/// from 1 to 1024.
#[derive(Clone, Copy, Debug, PartialEq, Eq)]
pub struct WorkPlan {
    pub threads: u8,
    pub steps: u64,
    pub seed: u64,
    pub batch: u16,
}

/// How the work ended.
#[derive(Clone, Copy, Debug, PartialEq, Eq)]
pub enum Ended {
    /// As many events as were asked for were done.
    Full,
    /// The last round over all nodes found nothing to do.
    Quiet,
}

impl WorkPlan {
    /// The shift of a worker, by its number from 1 on: the worker's part of all events, and at most 1024 turns in a row that move nothing.
    pub fn share(&self, worker: u32) -> Shift
        requires { 0 < self.now.threads }
        ensures worker { result.worker ≡ worker }
        ensures seed { result.seed ≡ self.now.seed }
        ensures until { result.until ≡ self.now.steps / self.now.threads }
        ensures patience { result.patience ≡ 1024 }
        ensures batch { result.batch ≡ self.now.batch }
    {
        Shift {
            worker,
            seed: self.seed,
            until: self.steps / u64::from(self.threads),
            patience: PATIENCE,
            batch: self.batch,
        }
    }

    /// The shift of the calling thread after the workers: rounds over all nodes, until one finds nothing to do or all events are done.
    pub fn rounds(&self, nodes: u32) -> Shift
        ensures worker { result.worker ≡ 0 }
        ensures seed { result.seed ≡ self.now.seed }
        ensures until { result.until ≡ self.now.steps }
        ensures patience { result.patience ≡ nodes }
        ensures batch { result.batch ≡ self.now.batch }
    {
        Shift {
            worker: 0,
            seed: self.seed,
            until: self.steps,
            patience: nodes,
            batch: self.batch,
        }
    }
}
