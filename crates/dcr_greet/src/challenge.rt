ghost use Rattle.std.specs.Prelude.{◌≡◌};
ghost use Rattle.dcr_greet.specs.Greeting.{challenge_text, IsChallengeReading};

use crate::places::{part, put};

/// What who orders sends a site first.
#[derive(Clone, Copy)]
pub struct Challenge {
    /// The number of the run, which is drawn when it begins.
    pub run: u64,
    /// What is drawn for each link.
    pub nonce: [u8; 32],
}

impl Challenge {
    /// Its bytes: `dcrO`, the number of the run with its higher bytes first, and the nonce.
    pub fn text(&self) -> [u8; 44]
        ensures { result ≡ challenge_text self.now }
    {
        let mut text = [0; 44];
        put(&mut text, 0, b"dcrO");
        put(&mut text, 4, &self.run.to_be_bytes());
        put(&mut text, 12, &self.nonce);
        text
    }

    /// The challenge whose bytes these are. None exactly where they are no challenge's. Takes no memory.
    pub fn read(bytes: &[u8]) -> Option<Challenge>
        ensures { IsChallengeReading bytes.now result }
    {
        if bytes.len() != 44 || !bytes.starts_with(b"dcrO") {
            return None;
        }
        Some(Challenge {
            run: u64::from_be_bytes(part(bytes, 4)),
            nonce: part(bytes, 12),
        })
    }
}
