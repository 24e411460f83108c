// What a load says of a side and three texts.
use loading::games::read_game;
use loading::sources::Sources;
use std::alloc::Global;
use std::process::Abort;

// The cause, text and byte of the refusal, or three times 0 where the texts are read.
pub(crate) fn told<'a>(
    heap: Global,
    side: u8,
    plan: &'a [u8],
    faults: &'a [u8],
    site: &'a [u8],
) -> (u8, u8, usize) {
    let sources = Sources { plan, faults, site };
    match read_game(heap, side, sources) {
        Ok(_) => (0, 0, 0),
        Err(fault) => (fault.cause(), fault.text(), fault.byte()),
    }
}

// A side and three texts, and what is told of them.
pub(crate) type Texts<'a> = (u8, &'a str, &'a str, &'a str, (u8, u8, usize));

pub(crate) fn check_texts(rt: &impl Abort, heap: Global, cases: &[Texts<'_>]) {
    for (side, plan, faults, site, want) in cases {
        let got = told(
            heap,
            *side,
            plan.as_bytes(),
            faults.as_bytes(),
            site.as_bytes(),
        );
        assert_eq!(rt; got, *want, "{}; {}", faults, site);
    }
}
