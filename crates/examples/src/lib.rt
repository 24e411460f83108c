// Worked examples: each holds by the definitions of reading, loading, answer sets, the game and the book.
#![tactic(auto)]

ghost use Rattle.std.specs.Prelude.{[], ◌∷◌, codes};
ghost use Rattle.runs.specs.Book.{coherent, incoherent};
ghost use Rattle.examples.specs.Examples.{answer_sets, loads, refused, game, on_side, site_alone, by_counting, by_branching, shows, shows_none, strikes, Hold};

// A text alone with all its answer sets, each as the names in it; a site text that is refused, with the question, text and byte; one that loads.
// A game: a side and three texts that are loaded into a new book, the asks and strikes after that with what they answer, and the sheet then.
pub fn examples_hold()
    ensures { Hold (
        answer_sets (codes "a :- b. b :- a.") ([] ∷ [])
        ∷ answer_sets (codes "a :- not b. b :- c, not d. c :- a. d :- not b.") ((codes "a" ∷ codes "c" ∷ codes "d" ∷ []) ∷ [])
        ∷ answer_sets (codes "a :- not a.") []
        ∷ answer_sets (codes ":- .") []
        ∷ answer_sets (codes "a :- .") ((codes "a" ∷ []) ∷ [])
        ∷ refused (site_alone (codes "p :- not q. q :- p.")) 10 3 0
        ∷ loads (site_alone (codes "p :- p."))
        ∷ game (on_side 1 [] [] []) (shows by_counting [] coherent 0 0 ∷ []) []
        ∷ game (on_side 2 [] [] []) (shows_none by_branching coherent 1 0 ∷ []) (([], []) ∷ [])
        ∷ game (on_side 1 (codes "a :- not a.") [] []) (shows_none by_branching incoherent 0 0 ∷ []) []
        ∷ game (on_side 2 (codes "a :- not a.") [] []) (shows_none by_counting coherent 0 0 ∷ []) []
        ∷ game (on_side 1 [] (codes "b :- not b.") []) (shows by_branching [] coherent 0 0 ∷ []) []
        ∷ game (on_side 2 [] (codes "b :- not b.") []) (shows by_counting [] incoherent 0 0 ∷ []) []
        ∷ game (on_side 1 (codes ":- .") [] []) (shows_none by_counting incoherent 0 0 ∷ []) []
        ∷ game (on_side 1 (codes "radio :- not wire. wire :- not radio.") (codes "cut :- not quiet. quiet :- not cut.") (codes "dead :- wire, cut. :- dead."))
        (shows by_branching (codes "radio" ∷ []) coherent 1 0 ∷ strikes ∷ shows_none by_branching coherent 1 1 ∷ [])
        ((codes "wire" ∷ [], codes "cut" ∷ []) ∷ [])
        ∷ game (on_side 1 (codes "radio :- not wire. wire :- not radio.") (codes "cut :- not quiet. quiet :- not cut.") (codes "dead :- wire, cut. :- dead."))
        (shows by_counting (codes "radio" ∷ []) coherent 0 0 ∷ [])
        []
        ∷ game (on_side 2 (codes "radio :- not wire. wire :- not radio.") (codes "cut :- not quiet. quiet :- not cut.") (codes "dead :- wire, cut. :- dead."))
        (shows_none by_counting coherent 2 0 ∷ [])
        ((codes "radio" ∷ [], codes "cut" ∷ []) ∷ (codes "wire" ∷ [], codes "quiet" ∷ []) ∷ [])
        ∷ []
        ) }
{}
