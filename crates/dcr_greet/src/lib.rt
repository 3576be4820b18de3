//! How a site and who orders its calls greet one another over a link: the challenge, the hello, and the keys by which a hello
//! is known.
#![tactic(auto)]

mod challenge;
mod greeter;
mod hello;
mod key;
mod keys;
mod laws;
mod mac;
mod places;
mod stop;

pub use challenge::Challenge;
pub use greeter::Greeter;
pub use hello::Hello;
pub use key::Key;
pub use keys::Keys;
pub use laws::{hellos_name_one_site, sites_are_let_in, wrong_lines_are_wrong};
pub use mac::hmac;
pub use stop::KeysStop;
