// The counts and the start of a tabled system, which its sheets do not hold. They are within bounds; a header of `filing` is what bytes
// say, and is within bounds only once it is accepted.
ghost use Rattle.std.specs.Prelude.{◌<◌, ◌≤◌};

#[derive(Clone, Copy)]
pub struct Shape {
    pub(crate) states: u8,
    pub(crate) actions: u8,
    pub(crate) start: u8,
    ghost within: { (1 ≤ states) × (states ≤ 64) × (1 ≤ actions) × (actions ≤ 32) × (start < states) },
}
