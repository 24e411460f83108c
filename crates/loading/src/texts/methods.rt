// How the three texts are read, and what they tell.
ghost use Rattle.std.specs.Prelude.{◌≡◌, Some, None, MatchResult};
ghost use Rattle.game.specs.Strata.{Stratified};
ghost use Rattle.programs.specs.Programs.{rules_of};
ghost use Rattle.loading.specs.Read.{three_of, ThreeGives, Unlayered};
ghost use Rattle.reading.specs.Loads.{shared_head};
ghost use Rattle.reading.specs.Sections.{part_of};
ghost use Rattle.reading.specs.Tables.{standings_of};

use super::Texts;
use crate::heads::first_taken;
use crate::sources::{Sources, Three};
use programs::program::Program;
use reading::section::Section;
use reading::table::Atoms;
use reading::text::read_text;
use refusals::fault::{Fault, Text};
use solving::strata::unstratified_rule;
use std::alloc::Global;

// Questions 2 to 8 of the plan text, the fault text and the site text in turn.
pub fn read_texts<'a>(heap: Global, sources: Sources<'a>) -> Result<Texts<'a>, Fault>
    ensures { ThreeGives sources.entry.plan.now sources.entry.faults.now sources.entry.site.now result }
{
    let atoms = Atoms::new(heap);
    let (plan, atoms) = read_text(heap, Text::Plan, sources.plan, atoms)?;
    let (faults, atoms) = read_text(heap, Text::Faults, sources.faults, atoms)?;
    let (site, atoms) = read_text(heap, Text::Site, sources.site, atoms)?;
    Ok(Texts {
        plan,
        faults,
        site,
        atoms,
    })
}

impl<'a> Texts<'a> {
    // Question 9: no head of the fault text stands in the plan text, and no head of the site text in either.
    pub fn heads_apart(&self) -> Result<(), Fault>
        ensures { MatchResult result (λ _. shared_head (three_of self.now) ≡ None) (λ f. shared_head (three_of self.now) ≡ Some f) }
    {
        let plan = self.plan.program();
        if let Some(at) = first_taken(&self.faults, plan, None) {
            return Err(Fault::TakenHead {
                text: Text::Faults,
                at,
            });
        }
        if let Some(at) = first_taken(&self.site, plan, Some(self.faults.program())) {
            return Err(Fault::TakenHead {
                text: Text::Site,
                at,
            });
        }
        Ok(())
    }

    // Question 10: is the site text stratified?
    pub fn strata_kept(&self) -> Result<(), Fault>
        ensures { MatchResult result (λ _. Stratified (three_of self.now).site.rules) (Unlayered (three_of self.now).site) }
    {
        let places = self.site.places();
        match unstratified_rule(self.site.program()) {
            None => Ok(()),
            Some(i) => Err(Fault::Unstratified { at: places[i] }),
        }
    }

    // The programs alone, without places and names.
    pub fn into_programs(self) -> Three<Program<96>>
        ensures { (rules_of result.plan ≡ (three_of self.entry).plan.rules) × (rules_of result.faults ≡ (three_of self.entry).faults.rules) × (rules_of result.site ≡ (three_of self.entry).site.rules) }
    {
        Three {
            plan: self.plan.into_program(),
            faults: self.faults.into_program(),
            site: self.site.into_program(),
        }
    }

    pub fn plan(&self) -> &Section
        ensures { part_of result.now ≡ (three_of self.now).plan }
    {
        &self.plan
    }

    pub fn faults(&self) -> &Section
        ensures { part_of result.now ≡ (three_of self.now).faults }
    {
        &self.faults
    }

    pub fn site(&self) -> &Section
        ensures { part_of result.now ≡ (three_of self.now).site }
    {
        &self.site
    }

    pub fn atoms(&self) -> &Atoms<'a>
        ensures { standings_of result.now ≡ (three_of self.now).atoms }
    {
        &self.atoms
    }
}
