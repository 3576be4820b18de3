ghost use Rattle.dcr_format.specs.Order.{FactsAreTold};
ghost use Rattle.dcr_format.specs.SizeLaws.{NoValueIsLarger, PartsAreSmaller};

/// What the words for facts say, in plain words: facts in their order are refused exactly as the first that fails, with
/// all before it holding, and pass exactly where all hold; a fact of many fails as the first of them that fails, by the
/// least index.
pub fn facts_are_told()
    ensures { FactsAreTold }
{}

/// A JSON value that was read is no larger than its text, where each value in it counts one and each byte of a
/// string or a key counts one more. So bytes of a known number bound every count and every length in the value.
pub fn no_value_is_larger_than_its_text()
    ensures { NoValueIsLarger }
{}

/// A member, an element and a string's bytes are each smaller than the value that holds them, and an array has
/// fewer elements than its size: so what bounds a value bounds all that is in it, at any depth.
pub fn parts_are_smaller()
    ensures { PartsAreSmaller }
{}
