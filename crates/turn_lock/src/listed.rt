ghost use Rattle.std.specs.Prelude.{◌≡◌, ℕ, List, length};

/// A value that represents a list. Each element of the list carries a number.
pub trait Listed {
    /// The type of the list's elements. Values of this type need not exist at run time.
    type Element;

    ghost list: { Self → List Self.Element };

    ghost bears: { Self.Element → ℕ };

    /// Returns the length of the list.
    fn length(&self) -> u64
        ensures { result ≡ length (list self.now) };
}
