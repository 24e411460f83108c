// A game: a side and three texts that passed every question of a load.
ghost use Rattle.loading.specs.Loaded.{AllowedExactly, GameGives};

use crate::side::Side;
use crate::sources::Sources;
use crate::texts::Texts;
use crate::texts::methods::read_texts;
use refusals::fault::Fault;
use std::alloc::Global;

#[derive(Drop)]
pub struct Game<'a> {
    pub side: Side,
    pub texts: Texts<'a>,
}

// Question 1, then 2 to 8 of each text, then 9 and 10.
pub fn read_game<'a>(heap: Global, side: u8, sources: Sources<'a>) -> Result<Game<'a>, Fault>
    ensures gives { GameGives side sources.entry.plan.now sources.entry.faults.now sources.entry.site.now result }
    ensures allowed { AllowedExactly side sources.entry.plan.now sources.entry.faults.now sources.entry.site.now result }
{
    let side = Side::try_from(side)?;
    let texts = read_texts(heap, sources)?;
    texts.heads_apart()?;
    texts.strata_kept()?;
    Ok(Game { side, texts })
}
