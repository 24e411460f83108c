// Question 9: no head of a text stands in the texts before it.
ghost use Rattle.std.specs.Prelude.{◌≡◌};
ghost use Rattle.loading.specs.Earlier.{earlier};
ghost use Rattle.programs.specs.Model.{head_model};
ghost use Rattle.reading.specs.Loads.{head_in, taken_head};
ghost use Rattle.reading.specs.Sections.{part_of};

use programs::program::Program;
use reading::section::Section;

// Does the head stand in the plan text, or in the fault text where one comes before?
fn stands(head: Option<u16>, plan: &Program<96>, faults: Option<&Program<96>>) -> bool
    ensures { result ≡ head_in (head_model head) (earlier plan.now faults.entry) }
{
    match head {
        None => false,
        Some(atom) => plan.mentions(atom) || faults.is_some_and(|faults| faults.mentions(atom)),
    }
}

// Where the first head of the section stands that stands in the texts before it.
pub(crate) fn first_taken(
    section: &Section,
    plan: &Program<96>,
    faults: Option<&Program<96>>,
) -> Option<usize>
    ensures { result ≡ taken_head (part_of section.now).rules (part_of section.now).places (earlier plan.now faults.entry) }
{
    let rules = section.program().rules();
    rules
        .iter()
        .zip(section.places())
        .find(|(rule, _)| stands(rule.head, plan, faults))
        .map(|(_, place)| *place)
}
