ghost use Rattle.zim_nesting.specs.Law.{DeepIsPastTheLimit, NestsAsItsTokens};

/// Nothing to run: the contract is the law that tokens that are a statement nest as deep as its tree.
pub fn nesting_is_that_of_the_tokens()
    ensures { NestsAsItsTokens }
{}

/// Nothing to run: the contract is the law that the nesting passes the limit exactly where a token
/// stands behind which it does.
pub fn deep_is_past_the_limit()
    ensures { DeepIsPastTheLimit }
{}
