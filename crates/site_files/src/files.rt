// The three files of a site.
ghost use Rattle.std.specs.Prelude.{◌≡◌};
ghost use Rattle.site_files.specs.Files.{Gathered, OrEmpty};

use loading::sources::{Sources, Three};
use std::alloc::Global;
use std::io;
use std::io::ErrorKind;

// What was read of the three files; a missing one is empty.
pub fn gathered(
    heap: Global,
    plan: io::Result<Vec<u8>>,
    faults: io::Result<Vec<u8>>,
    site: io::Result<Vec<u8>>,
) -> io::Result<Three<Vec<u8>>>
    ensures { Gathered plan faults site result }
{
    Ok(Three {
        plan: or_empty(heap, plan)?,
        faults: or_empty(heap, faults)?,
        site: or_empty(heap, site)?,
    })
}

// The bytes of the files, lent.
pub fn lent(files: &Three<Vec<u8>>) -> Sources<'_>
    ensures { (result.plan.now ≡ files.now.plan.items) × (result.faults.now ≡ files.now.faults.items) × (result.site.now ≡ files.now.site.items) }
{
    Three {
        plan: files.plan.as_slice(),
        faults: files.faults.as_slice(),
        site: files.site.as_slice(),
    }
}

// What was read of a file; a missing file is empty.
pub fn or_empty(heap: Global, read: io::Result<Vec<u8>>) -> io::Result<Vec<u8>>
    ensures { OrEmpty read result }
{
    match read {
        Err(e) if e.kind() == ErrorKind::NotFound => Ok(Vec::new(heap)),
        read => read,
    }
}
