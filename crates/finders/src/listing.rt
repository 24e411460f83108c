// What holds of whole listings, for every finder.
ghost use Rattle.finders.specs.Listings.{ListingsAreWhole};

// From the start to the end a finder's calls tell every answer set exactly once and nothing else, in its order; any two finders tell the same.
pub fn listing_meets_every_answer_set_once()
    ensures { ListingsAreWhole }
{}
