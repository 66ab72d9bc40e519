// What is said of the files.
ghost use Rattle.std.specs.Prelude.{◌≢◌};

/// A status, and the whole text that goes with it.
#[derive(Drop)]
pub struct Said {
    pub status: u8,
    pub text: Vec<u8>,
    ghost known: { status ≢ 4 },
}
