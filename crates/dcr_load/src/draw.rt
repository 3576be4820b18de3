ghost use Rattle.std.specs.Prelude.{◌≡◌, ◌<◌};
ghost use Rattle.dcr_load.specs.Words.{word, picked};

use rand_core::utils::NextWord;
use rand_pcg::Lcg64Xsh32;

// A word of a number by its place. It is reached by a jump, so that each draw stands alone.
#[tactic(auto, unfolding(crate::specs::Words::word))]
fn word_at(number: u32, place: u32) -> u32
    ensures { result ≡ word number place }
{
    let mut words = Lcg64Xsh32::new(u64::from(number), 54);
    words.advance(u64::from(place));
    words.next_word()
}

// What the word picks among so many choices, numbered from 0.
#[tactic(auto, unfolding(crate::specs::Words::picked))]
pub(crate) fn pick(number: u32, place: u32, choices: u16) -> u16
    requires { 0 < choices }
    ensures picked { result ≡ picked number place choices }
    ensures below { result < choices }
{
    (word_at(number, place) % u32::from(choices)) as u16
}
