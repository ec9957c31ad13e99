//! Where text goes.

ghost use Rattle.std.specs.Prelude.{◌≡◌, ℕ, ◌<◌, ◌≤◌, Bool, false, List, Option, length, take, IfSome, MatchOption, is_none};
ghost use Rattle.std.specs.Io.KnownBytes.{Appends, Keeps};

/// What takes bytes. Its meaning is the bytes that went out so far, where they are known, whether it has failed, whether it
/// was told why something failed, and what no write changes of it.
pub trait Sink {
    ghost sent: { Self → Option (List ℕ) };

    ghost failed: { Self → Bool };

    ghost told: { Self → Bool } = { λ _. false };

    ghost Kept: { Type 0 } = { Unit {0} };

    ghost kept: { Self → Self.Kept };

    /// Sends the first bytes of `bytes`, at least one, and answers how many, or has failed and sends none.
    fn write(&mut self, bytes: &[u8]) -> Option<usize>
        requires works { failed self.old ≡ false }
        requires some { 0 < length bytes.now }
        ensures count { IfSome result (λ n. (0 < n) × (n ≤ length bytes.now)) }
        ensures sent { MatchOption result (Keeps (sent self.old) (sent self.new))
            (λ n. Appends (sent self.old) (sent self.new) (take n bytes.now)) }
        ensures failed { failed self.new ≡ is_none result }
        ensures kept { kept self.new ≡ kept self.old };
}
