ghost use Rattle.std.specs.Prelude.{◌<◌};

use rand_core::utils::NextWord;
use rand_pcg::Lcg64Xsh32;

// The stream of the generator.
const STREAM: u64 = 55;

/// What is drawn in a run, one after the other: the words of 32 bits of the generator PCG32 at the run's number.
#[derive(Drop)]
pub(crate) struct Draws {
    words: Lcg64Xsh32,
}

impl Draws {
    /// What is drawn in the run of a number.
    pub(crate) fn of(number: u32) -> Draws {
        Draws {
            words: Lcg64Xsh32::new(u64::from(number), STREAM),
        }
    }

    /// The next word modulo so many choices; 0, and no word is used, where there is none.
    pub(crate) fn pick(&mut self, choices: u64) -> u64
        ensures { 0 < choices → result < choices }
    {
        if choices == 0 {
            return 0;
        }
        u64::from(self.words.next_word()) % choices
    }
}
