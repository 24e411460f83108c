// The name call: from a number to the part of the text where that atom first stands.
ghost use Rattle.naming.specs.Named.{Named};

use loading::sources::Sources;
use loading::texts::methods::read_texts;
use refusals::fault::Fault;
use std::alloc::Global;

// Questions 2 to 8 of the three texts, as in a load, then 16: is the number an atom of these texts?
pub fn name<'a>(heap: Global, sources: Sources<'a>, number: usize) -> Result<&'a [u8], Fault>
    ensures { Named sources.entry.plan.now sources.entry.faults.now sources.entry.site.now number result }
{
    let texts = read_texts(heap, sources)?;
    let entries = texts.atoms().entries();
    if number >= entries.len() {
        return Err(Fault::NoAtom);
    }
    Ok(entries[number].name)
}
