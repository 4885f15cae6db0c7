//! What takes bytes part by part, into room that was reserved before.

ghost use Rattle.std.specs.Prelude.{◌≡◌, ℕ, ◌+◌, ◌≤◌, ◌++◌, List, length};

/// A taker of bytes whose room was reserved before the first of them. No call takes memory, and none
/// is refused.
///
/// Contracts see the bytes that it has taken, those that it stands behind, which no call changes,
/// and its spare, which is how many more bytes it takes.
pub trait Put {
    /// The bytes of all parts so far, in order.
    ghost taken: { Self → List ℕ };

    /// What was there before the first part, and stays.
    ghost base: { Self → List ℕ };

    /// How many more bytes fit.
    ghost spare: { Self → ℕ };

    /// Appends the part, which has to fit.
    fn put(&mut self, part: &[u8])
        requires { length part.now ≤ spare self.old }
        ensures appended { taken self.new ≡ taken self.old ++ part.now }
        ensures lowered { spare self.new + length part.now ≡ spare self.old }
        ensures same_base { base self.new ≡ base self.old };
}
