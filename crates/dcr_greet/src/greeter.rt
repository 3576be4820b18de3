use crate::hello::mac;
use crate::mac::are_same;
use crate::{Challenge, Hello, Keys};
use dcr_base::{Link, write_all};
use dcr_porter::fill;
use dcr_set::SiteId;

/// Whom who orders lets in: the sites of one case, in one run.
#[derive(Drop)]
pub struct Greeter {
    /// The number of the run, which is drawn when it begins.
    pub run: u64,
    /// The digest that names the case.
    pub digest: [u8; 32],
    /// How many sites the case has.
    pub sites: u16,
    /// The keys of the sites, in order, where they have keys. Without them any MAC is taken.
    pub keys: Option<Keys>,
}

impl Greeter {
    ghost use Rattle.std.specs.Prelude.{◌≡◌, ◌↔◌, ℕ, Some, IsTrue};
    ghost use Rattle.dcr_greet.specs.Greeting.{Greets, IsGreeting, IsHearing, IsKeyed};

    /// Sends a challenge with this nonce over the link, and reads the hello to it. The answer is the site whose hello it is, one
    /// of the case, and with the MAC by its key where the sites have keys; None exactly where no such hello came, because it is
    /// another, or the link ended or failed before. Nothing is read behind the hello. Takes no memory, and compares all 32 bytes
    /// of a MAC, wherever they differ. A link that isn't let in is of no more use.
    pub fn greet<L: Link>(&self, nonce: &[u8; 32], link: &mut L) -> Option<SiteId>
        ensures { IsGreeting self.now nonce.now (L.has_ended link.new) (L.gives link.old) (L.gives link.new) (L.takes link.old) (L.takes link.new) result }
    {
        let challenge = Challenge {
            run: self.run,
            nonce: *nonce,
        };
        match write_all(link, &challenge.text()) {
            Ok(()) => self.hear(&challenge, link),
            Err(_) => None,
        }
    }

    /// The site whose hello to this challenge these bytes are. None exactly where they are no such hello.
    pub fn known(&self, challenge: &Challenge, bytes: &[u8]) -> Option<SiteId>
        ensures { (site : ℕ) → (result ≡ Some site) ↔ Greets self.now challenge.now bytes.now site }
    {
        let Challenge { run, nonce: _ } = *challenge;
        let digest = self.digest;
        let sites = self.sites;
        let hello = Hello::read(bytes)?;
        if hello.run != run || hello.site.0 >= sites {
            return None;
        }
        if !are_same(&hello.digest, &digest) {
            return None;
        }
        if !self.is_keyed(challenge, &hello) {
            return None;
        }
        Some(hello.site)
    }

    // Reads a hello to this challenge, and answers whose it is.
    fn hear<L: Link>(&self, challenge: &Challenge, link: &mut L) -> Option<SiteId>
        ensures heard { IsHearing self.now challenge.now (L.has_ended link.new) (L.gives link.old) (L.gives link.new) result }
        ensures apart { L.sink_side link.new ≡ L.sink_side link.old }
    {
        let mut bytes = [0; 78];
        match fill(link, &mut bytes) {
            Ok(()) => self.known(challenge, &bytes),
            Err(_) => None,
        }
    }

    // Whether the MAC is by the key of the site, where the sites have keys.
    fn is_keyed(&self, challenge: &Challenge, hello: &Hello) -> bool
        ensures { IsTrue result ↔ IsKeyed self.now.keys challenge.now hello.now.site hello.now.digest hello.now.mac }
    {
        match &self.keys {
            None => true,
            Some(keys) => match keys.of(hello.site) {
                None => false,
                Some(key) => {
                    are_same(&hello.mac, &mac(challenge, hello.site, &hello.digest, key))
                }
            },
        }
    }
}
