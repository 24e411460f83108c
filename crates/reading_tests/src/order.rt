// The order of the questions over the side and the texts.
use crate::told::check_texts;
use std::test::Fail;

// The side, then the plan text, the fault text and the site text, then the heads.
#[test]
fn questions(rt: HostRuntime) -> Result<(), Fail> {
    let heap = rt.alloc();
    let long = " ".repeat(heap, 16_385)?;
    let long = long.as_str();
    check_texts(
        &rt,
        heap,
        &[
            (0, "a.", "b.", "c.", (1, 0, 0)),
            (1, "a.", "b.", "c.", (0, 0, 0)),
            (2, "a.", "b.", "c.", (0, 0, 0)),
            (3, "a.", "b.", "c.", (1, 0, 0)),
            (255, "a.", "b.", "c.", (1, 0, 0)),
            (3, "A", "a", "b", (1, 0, 0)),
            (3, long, long, long, (1, 0, 0)),
            (2, long, "A", "a", (2, 1, 0)),
            (2, "a", long, "A", (5, 1, 1)),
            (2, "a.", long, "A", (2, 2, 0)),
            (2, "a.", "b. A", long, (3, 2, 3)),
            (2, "a.", "b :- ,", "c :-", (5, 2, 5)),
            (2, "a.", "a.", long, (2, 3, 0)),
            (2, "a.", "a.", "b A", (3, 3, 2)),
            (2, "a.", "a.", "b", (5, 3, 1)),
            (2, "a.", "a.", "a.", (9, 2, 0)),
            (2, "", "", "", (0, 0, 0)),
        ],
    );
    Ok(())
}
