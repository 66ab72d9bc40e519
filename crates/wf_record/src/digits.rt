//! The digits of a digest.
ghost use Rattle.std.specs.Prelude.{◌≡◌};
ghost use Rattle.hex.specs.Hex.{encode_lower};

/// The hexadecimal digits of a digest, kept for the next line of a record: the runs of a definition have one digest.
#[derive(Drop)]
pub struct Digits {
    digest: [u8; 32],
    digits: [u8; 64],
    ghost encoded: { digits ≡ encode_lower digest },
}

impl Digits {
    /// Those of no record yet.
    pub fn new() -> Digits {
        Digits::made(&[0; 32])
    }

    // Those of a digest.
    fn made(digest: &[u8; 32]) -> Digits
        ensures { result.digest ≡ digest.now }
    {
        let mut digits = [0; 64];
        match hex::encode_to_slice(*digest, &mut digits) {
            Ok(()) => {}
            Err(_) => unreachable!(),
        }
        Digits {
            digest: *digest,
            digits,
        }
    }

    /// Those of a digest: the ones that are kept, if they are, and else made and kept.
    pub(crate) fn of(&mut self, digest: &[u8; 32]) -> &[u8; 64]
        ensures { result.now ≡ encode_lower digest.now }
    {
        if self.digest != *digest {
            *self = Digits::made(digest);
        }
        &self.digits
    }
}
