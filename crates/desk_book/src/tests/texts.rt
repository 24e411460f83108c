// The texts of a small site, and of one with many plans.
use loading::sources::Three;
use std::alloc::{AllocError, Global};

// Two plans, of which a cut wire beats one on side 1.
pub(crate) fn alarm_site(heap: Global) -> Result<Three<Vec<u8>>, AllocError> {
    three(
        heap,
        b"radio :- not wire. wire :- not radio.",
        b"cut :- not quiet. quiet :- not cut.",
        b"dead :- wire, cut. :- dead.",
    )
}

// A choice for each of these letters.
fn choices(heap: Global, last: u8) -> Result<Vec<u8>, AllocError> {
    let mut text = Vec::new(heap);
    for letter in b'a'..=last {
        let byte = [letter];
        text.extend_from_slice(&byte)?;
        text.extend_from_slice(b" :- not no_")?;
        text.extend_from_slice(&byte)?;
        text.extend_from_slice(b". no_")?;
        text.extend_from_slice(&byte)?;
        text.extend_from_slice(b" :- not ")?;
        text.extend_from_slice(&byte)?;
        text.extend_from_slice(b".\n")?;
    }
    Ok(text)
}

// 128 plans; nothing beats any of them.
pub(crate) fn many_plans(heap: Global) -> Result<Three<Vec<u8>>, AllocError> {
    let mut texts = three(heap, b"", b"", b"")?;
    texts.plan = choices(heap, b'g')?;
    Ok(texts)
}

// 512 plans, each with one reply of its own, which beats it on side 1.
pub(crate) fn beaten_plans(heap: Global) -> Result<Three<Vec<u8>>, AllocError> {
    let mut texts = three(heap, b"", b"", b"bad. :- bad.")?;
    texts.plan = choices(heap, b'i')?;
    for letter in b'a'..=b'i' {
        let byte = [letter];
        texts.faults.extend_from_slice(b"cut_")?;
        texts.faults.extend_from_slice(&byte)?;
        texts.faults.extend_from_slice(b" :- ")?;
        texts.faults.extend_from_slice(&byte)?;
        texts.faults.extend_from_slice(b".\n")?;
    }
    Ok(texts)
}

pub(crate) fn three(
    heap: Global,
    plan: &[u8],
    faults: &[u8],
    site: &[u8],
) -> Result<Three<Vec<u8>>, AllocError> {
    Ok(Three {
        plan: Vec::from_slice(heap, plan)?,
        faults: Vec::from_slice(heap, faults)?,
        site: Vec::from_slice(heap, site)?,
    })
}
