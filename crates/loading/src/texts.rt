// What three texts give: the rules of each, and the table of all their atoms.
ghost use Rattle.std.specs.Prelude.{◌≡◌, true, length};
ghost use Rattle.programs.specs.Limits.{all_fit};
ghost use Rattle.reading.specs.Sections.{part_of};
ghost use Rattle.reading.specs.Tables.{standings_of};

use reading::section::Section;
use reading::table::Atoms;

pub mod methods;

// Every atom of every rule is below the number of atoms.
#[derive(Drop)]
pub struct Texts<'a> {
    plan: Section,
    faults: Section,
    site: Section,
    atoms: Atoms<'a>,
    ghost plan_below: { all_fit (length (standings_of atoms)) (part_of plan).rules ≡ true },
    ghost faults_below: { all_fit (length (standings_of atoms)) (part_of faults).rules ≡ true },
    ghost site_below: { all_fit (length (standings_of atoms)) (part_of site).rules ≡ true },
}
