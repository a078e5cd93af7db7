// A place to write bytes to, which may take a part of them or fail.
ghost use Rattle.std.specs.Prelude.{◌≡◌, ℕ, ◌<◌, ◌≤◌, List, Option, length, take, IfOk, OnOk, OnErr};
ghost use Rattle.std.specs.Io.KnownBytes.{Appends, Keeps};
ghost use Rattle.tcc_world.specs.Faults.{Rose};
ghost use Rattle.tcc_world.specs.Page.{Page};

/// The sink failed. It took nothing in that call.
#[derive(Clone, Copy, Debug, PartialEq, Eq)]
pub struct SinkFailed;

/// A place to write to, which may fail. The count of its faults never falls; one that stands at 2^64 - 1 is
/// taken as risen.
pub trait Sink {
    /// The bytes that were taken, and how often the sink has failed.
    ghost page: { Self → Page };

    /// Takes a prefix of the piece, of at least one byte where the piece isn't empty, and answers its length: the bytes that were
    /// told before are told still, with this prefix behind them, once. It fails only where the count of faults rose in this call,
    /// and then has taken nothing. An empty piece changes nothing.
    fn write(&mut self, piece: &[u8]) -> Result<usize, SinkFailed>
        ensures prefix { IfOk result (λ n. n ≤ length piece.now) }
        ensures taken { IfOk result (λ n. Appends (page self.old).bytes (page self.new).bytes (take n piece.now)) }
        ensures progress { IfOk result (λ n. 0 < length piece.now → 0 < n) }
        ensures failed { OnErr result (Keeps (page self.old).bytes (page self.new).bytes) }
        ensures cause { OnErr result (Rose (page self.old).faults (page self.new).faults) }
        ensures faults_stay { (page self.old).faults ≤ (page self.new).faults }
        ensures empty { length piece.now ≡ 0 → (result ≡ Ok 0) × ((page self.new).bytes ≡ (page self.old).bytes)
            × ((page self.new).faults ≡ (page self.old).faults) };
}

/// Writes all of the bytes, piece by piece. It fails only where the sink's count of faults rose in it, and then has
/// written a prefix of the bytes, and not all of them. It takes no memory of its own.
#[tactic(auto, using(crate::proofs::Told::parts))]
pub fn write_all<S: Sink>(sink: &mut S, bytes: &[u8]) -> Result<(), SinkFailed>
    ensures written { OnOk result (Appends (S.page sink.old).bytes (S.page sink.new).bytes bytes.now) }
    ensures prefix { OnErr result
        ((n : ℕ) × (n < length bytes.now) × Appends (S.page sink.old).bytes (S.page sink.new).bytes (take n bytes.now)) }
    ensures cause { OnErr result (Rose (S.page sink.old).faults (S.page sink.new).faults) }
    ensures faults_stay { (S.page sink.old).faults ≤ (S.page sink.new).faults }
{
    let mut done = 0;
    while done < bytes.len() {
        done += sink.write(&bytes[done..])?;
    }
    Ok(())
}
