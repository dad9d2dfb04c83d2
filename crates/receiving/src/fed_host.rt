//! A host as one sees it who feeds it.

ghost use Rattle.std.specs.Prelude.{◌≡◌, ◌≤◌, ℕ, List, length, IsErrOf, OnOk};
ghost use Rattle.bt_base.specs.Counts.{HasRisen};
ghost use Rattle.h4_framing.specs.Framing.{Framing};
ghost use Rattle.bt_host.specs.obex_session.specs.Counting.{counts_of};
ghost use Rattle.bt_host.specs.host_model.specs.Circumstances.{Circumstance};
ghost use Rattle.bt_host.specs.host_model.specs.Profiles.{Profile};
ghost use Rattle.bt_host.specs.Stacks.{Standing};
ghost use Rattle.receiving.specs.Turns.{emptied, HasRest};
ghost use Rattle.receiving.specs.Feeding.{IsFed};

use bt_host::FeedRefusal;

/// A host that is fed octets of its controller. `P` is the port that it works on.
///
/// A clause sees its line and the pure host above it, for all that its port may answer from now on, and how far it has come in
/// what it was fed.
pub trait FedHost<P>: Drop {
    /// What its profile is at a moment.
    ghost State: { Type 0 };

    /// Its profile.
    ghost profile: { Self → Profile State };

    /// Where it is.
    ghost stands: { Self → P → List Circumstance → Standing State };

    /// How far it has come in what it was fed.
    ghost framing: { Self → Framing };

    /// What holds of it and its port as long as it refused nothing.
    ghost is_sound: { Self → P → Type 0 };

    /// How often its port failed, and how often it found no memory.
    ghost faults: { P → ℕ };

    ghost shortages: { P → ℕ };

    /// The octets for its controller.
    fn out(&self) -> &[u8]
        ensures { (port : P) (rest : List Circumstance) → (stands self.now port rest).line.out ≡ result.now };

    /// Its controller took all `n` octets of `out`.
    fn taken(&mut self, n: usize, port: &P)
        requires all { (rest : List Circumstance) → n ≡ length ((stands self.old port.now rest).line.out) }
        ensures stands { stands self.new port.now ≡ (λ rest. emptied (stands self.old port.now rest)) }
        ensures framing { framing self.new ≡ framing self.old }
        ensures profile { profile self.new ≡ profile self.old }
        ensures sound { is_sound self.old port.now → is_sound self.new port.now };

    /// Takes octets of its controller: what was held back before goes out, and then it hears each packet that is whole with them.
    /// Behind a refusal it is fed no more.
    fn feed(&mut self, piece: &[u8], port: &mut P) -> Result<(), FeedRefusal>
        requires sound { is_sound self.old port.old }
        ensures fed { IsFed (profile self.old) piece.now (framing self.old) (framing self.new) (stands self.old port.old) (stands self.new port.new) (counts_of faults shortages port.old) (counts_of faults shortages port.new) result }
        ensures rests { OnOk result (HasRest (profile self.old) (stands self.new port.new)) }
        ensures profile { OnOk result (profile self.new ≡ profile self.old) }
        ensures sound { OnOk result (is_sound self.new port.new) }
        ensures lacked { IsErrOf result FeedRefusal.NoMemory → HasRisen (shortages port.old) (shortages port.new) }
        ensures stays { shortages port.old ≤ shortages port.new };
}
