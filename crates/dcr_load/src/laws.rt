ghost use Rattle.std.specs.Prelude.{◌≡◌, ℕ, length, sum_by};
ghost use Rattle.dcr_load.specs.Load.{load};
ghost use Rattle.dcr_load.specs.Words.{generator, word};
ghost use Rattle.dcr_load.specs.Each.{each_below};
ghost use Rattle.rand_core.specs.Steps.{first_words};
ghost use Rattle.rand_pcg.specs.Pcg.{pcg32};

/// Every load has 8 sessions and 20,000 calls in all.
pub fn loads_are_large()
    ensures sessions { (number : ℕ) → length (load number).sessions ≡ 8 }
    ensures calls { (number : ℕ) → sum_by length (load number).sessions ≡ 20000 }
{}

/// The words of a number, by their places, are those that its generator gives one after the other.
pub fn words_are_the_generators()
    ensures { (number count : ℕ) → each_below count (word number) ≡ first_words pcg32 count (generator number) }
{}
