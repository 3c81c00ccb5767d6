// What is done beside taking an item out of a list.
ghost use Rattle.std.specs.Prelude.{◌≡◌, true, false};

// A change that is made whole or not at all.
pub trait Step {
    ghost made: { Self → Self → Type 0 };

    fn make(&mut self) -> bool
        ensures made { result ≡ true → made self.old self.new }
        ensures unmade { result ≡ false → self.new ≡ self.old };
}

// No change.
#[derive(Drop)]
pub struct NoStep;

impl Step for NoStep {
    ghost made = { λ old new. new ≡ old };

    fn make(&mut self) -> bool {
        true
    }
}
