// The book that is kept on a game: what each of its calls answers and leaves, and what holds after every list of calls.
#![tactic(auto)]

ghost use Rattle.runs.specs.Runs.{EachCallHasOneOutcome, NoOrderOfCallsSpoilsABook};

// Whatever the book, a call gives one answer and leaves one book, and no other; and each call leaves a book in order if it finds one so.
pub fn each_call_has_one_outcome()
    ensures { EachCallHasOneOutcome }
{}

// Whatever calls were put to a new book, and in whatever order, an ask is right by the history of those calls, which is the only one.
pub fn no_order_of_calls_spoils_a_book()
    ensures { NoOrderOfCallsSpoilsABook }
{}
