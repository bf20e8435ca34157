// Label kinds: an order on labels, its test, and labels read from bytes.
ghost use Rattle.std.specs.Prelude.{◌≡◌, ℕ, Bool, List};
ghost use Rattle.systems.specs.Label.{Preorder};

pub trait Label: Copy {
    // the byte that names the kind in a file
    const CODE: u8;

    ghost CODE: { ℕ };

    // how many bytes a label takes in a file
    const WIDTH: usize;

    ghost WIDTH: { ℕ };

    ghost below: { Self → Self → Bool };

    // the label of a state that is given none
    ghost plain: { Self };

    // the label that bytes stand for, lowest byte first
    ghost read: { List ℕ → Self };

    // no `PartialOrd`, which would ask that two labels below one another are equal
    fn is_below(&self, other: &Self) -> bool
        ensures { result ≡ below self.now other.now };

    fn unlabelled() -> Self
        ensures { result ≡ plain };

    fn from_bytes(source: &[u8]) -> Self
        ensures { result ≡ read source.now };

    ghost order: { Preorder below };
}
