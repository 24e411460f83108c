// The meaning of the game, as definitions in specs/, and what is proved of them.
#![tactic(auto)]

ghost use Rattle.game.specs.Published.{CoherenceIsAsPublished};

// For texts over atoms below 96, no head of which stands in an earlier text, coherence is as published, where an answer set is handed on by fixing it.
pub fn coherence_is_as_published()
    ensures { CoherenceIsAsPublished }
{}
