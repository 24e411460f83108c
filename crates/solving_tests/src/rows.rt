// Programs from texts. Atoms are numbered by first appearance in the text.
use programs::program::Program;
use programs::rule::Rule;
use reading::table::Atoms;
use reading::text::read_text;
use refusals::fault::{Fault, Text};
use std::alloc::Global;

// The text's rules as a program of its own; none where they break a limit, which no text does.
pub(crate) fn program_of(heap: Global, text: &str) -> Result<Option<Program<96>>, Fault> {
    let (section, _atoms) = read_text(heap, Text::Site, text.as_bytes(), Atoms::new(heap))?;
    let mut rules = Vec::new(heap);
    for rule in section.program().rules() {
        rules.push(Rule {
            head: rule.head,
            plain: rule.plain.clone()?,
            negated: rule.negated.clone()?,
        })?;
    }
    Ok(Program::new(rules))
}
