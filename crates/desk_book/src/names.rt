// What the loaded texts give.
ghost use Rattle.std.specs.Prelude.{◌≡◌, IfOk};
ghost use Rattle.loading.specs.Read.{three_of};
ghost use Rattle.reading.specs.Loads.{Three as Reading};
ghost use Rattle.desk_book.specs.Loaded.{bytes_of, Gives};
ghost use Rattle.desk_book.specs.Told.{rule_count};

use loading::sources::Three;
use loading::texts::Texts;
use loading::texts::methods::read_texts;
use refusals::fault::Fault;
use site_files::files::lent;
use std::alloc::{AllocError, Global};

// What texts give that can be read, read once more.
pub(crate) fn named(heap: Global, texts: &Three<Vec<u8>>) -> Result<Texts<'_>, AllocError>
    requires { ∥ ((t : Reading) × Gives (bytes_of texts.now) t) ∥₁ }
    ensures { IfOk result (λ t. Gives (bytes_of texts.now) (three_of t)) }
{
    match read_texts(heap, lent(texts)) {
        Ok(texts) => Ok(texts),
        Err(fault) => match fault {
            Fault::NoMemory => Err(AllocError),
            _ => unreachable!(),
        },
    }
}

// How many rules the three texts have together.
pub(crate) fn rule_count(texts: &Texts<'_>) -> usize
    ensures { result ≡ rule_count (three_of texts.now) }
{
    texts.plan().count() + texts.faults().count() + texts.site().count()
}
