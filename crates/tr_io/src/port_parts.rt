//! What a port's proofs see of the values that it gives out and takes back.
ghost use Rattle.std.specs.Prelude.{ℕ, List, Option};
ghost use Rattle.cell_codec.specs.declared.cell.Cell.{Cell};
ghost use Rattle.kdf_tor.specs.declared.LayerKeys.{LayerKeys};
ghost use Rattle.tr_io.specs.declared.names.ClaimNote.{ClaimNote};

/// A job, which a claim gives to a worker.
pub trait PortJob {
    /// Which claim gave it.
    ghost note: { Self → ClaimNote };
}

/// A job that a worker is done with.
pub trait PortDone<J> {
    /// Which claim it says that it is of.
    ghost note: { Self → ClaimNote };

    /// It is that job, worked: the note, the start state and the input are the job's.
    ghost is_of: { Self → J → Type 0 };
}

/// An opening: what a circuit is opened with.
pub trait PortOpening {
    /// The cell that answers.
    ghost reply: { Self → Cell };

    /// The circuit's keys, where the handshake was good.
    ghost keys: { Self → Option LayerKeys };

    /// The key of the padding, if there is one.
    ghost pad: { Self → Option (List ℕ) };
}
