ghost use Rattle.std.specs.Prelude.{◌≡◌};
ghost use Rattle.dcr_greet.specs.Greeting.{covered, hello_text, hello_to, mac_by, IsHelloReading};
ghost use Rattle.dcr_greet.specs.Hmac.{hmac as hmac_of};

use crate::places::{part, put};
use crate::{Challenge, Key, hmac};
use dcr_set::SiteId;

/// What a site answers a challenge.
#[derive(Clone, Copy)]
pub struct Hello {
    /// The number of the run, that of the challenge.
    pub run: u64,
    /// The number of the site in the case.
    pub site: SiteId,
    /// The digest that names the case.
    pub digest: [u8; 32],
    /// What shows that the site has its key: the HMAC-SHA-256 by it over `dcr site`, the number of the run, the nonce of the
    /// challenge, the site and the digest. Zeros where it has none.
    pub mac: [u8; 32],
}

impl Hello {
    /// What this site of the case with this digest answers the challenge.
    pub fn new(challenge: &Challenge, site: SiteId, digest: &[u8; 32], key: &Option<Key>) -> Hello
        ensures { result ≡ hello_to challenge.now site digest.now key.now }
    {
        let mac = match key {
            Some(key) => mac(challenge, site, digest, key),
            None => [0; 32],
        };
        Hello {
            run: challenge.run,
            site,
            digest: *digest,
            mac,
        }
    }

    /// Its bytes: `dcrS`, the number of the run, that of the site, the digest and the MAC. Numbers have their higher bytes first.
    pub fn text(&self) -> [u8; 78]
        ensures { result ≡ hello_text self.now }
    {
        let mut text = [0; 78];
        put(&mut text, 0, b"dcrS");
        put(&mut text, 4, &self.run.to_be_bytes());
        put(&mut text, 12, &self.site.0.to_be_bytes());
        put(&mut text, 14, &self.digest);
        put(&mut text, 46, &self.mac);
        text
    }

    /// The hello whose bytes these are. None exactly where they are no hello's. Takes no memory.
    pub fn read(bytes: &[u8]) -> Option<Hello>
        ensures { IsHelloReading bytes.now result }
    {
        if bytes.len() != 78 || !bytes.starts_with(b"dcrS") {
            return None;
        }
        Some(Hello {
            run: u64::from_be_bytes(part(bytes, 4)),
            site: SiteId(u16::from_be_bytes(part(bytes, 12))),
            digest: part(bytes, 14),
            mac: part(bytes, 46),
        })
    }
}

/// What shows that who sends this has the key.
pub(crate) fn mac(challenge: &Challenge, site: SiteId, digest: &[u8; 32], key: &Key) -> [u8; 32]
    ensures { result ≡ hmac_of key.now (covered challenge.now site digest.now) }
{
    let mut message = [0; 82];
    put(&mut message, 0, b"dcr site");
    put(&mut message, 8, &challenge.run.to_be_bytes());
    put(&mut message, 16, &challenge.nonce);
    put(&mut message, 48, &site.0.to_be_bytes());
    put(&mut message, 50, digest);
    hmac(key.bytes(), &message)
}
