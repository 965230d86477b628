ghost use Rattle.std.specs.Prelude.{◌≡◌, ℕ};

/// A request with a number of its own.
pub trait Numbered {
    ghost number: { Self → ℕ };

    /// Returns the number of the request.
    fn number(&self) -> u32
        ensures { result ≡ number self.now };
}
