ghost use Rattle.std.specs.Prelude.{◌≡◌, ℕ, List};

/// An attribute: a value that the 64 bytes of a packet's payload spell.
pub trait Attribute: Sized {
    /// The number of the attribute.
    const ID: u16;

    ghost ID: { ℕ };

    /// Each part of the value fits in its field. Code can have no other value. In contracts, where numbers are
    /// unbounded, this is a premise.
    ghost is_value: { Self → Type 0 };

    /// The value that 64 bytes spell.
    ghost value_in: { List ℕ → Self };

    /// The 64 bytes that spell a value.
    ghost bytes_of: { Self → List ℕ };

    /// Decodes 64 bytes. Any 64 bytes spell a value.
    fn decode(bytes: &[u8; 64]) -> Self
        ensures value { result ≡ value_in bytes.now }
        ensures fits { is_value result };

    /// Encodes the value.
    fn encode(&self) -> [u8; 64]
        ensures bytes { result ≡ bytes_of self.now }
        ensures fits { is_value self.now };

    /// If each part of a value fits in its field (`is_value`), decoding the bytes that spell the value gives the value.
    ghost reads_back: { (value : Self) → is_value value → value_in (bytes_of value) ≡ value };
}
