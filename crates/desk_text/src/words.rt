// The words of a text, between blanks.
ghost use Rattle.std.specs.Prelude.{◌≡◌};
ghost use Rattle.std.specs.List.{prefix_len, suffix_len, position_or_len};
ghost use Rattle.desk_text.specs.Words.{is_blank, unindented, unended, trimmed, first_word, after_word, number_said, side_said};

// Is it a space or a tab?
fn is_blank(byte: u8) -> bool
    ensures { result ≡ is_blank byte }
{
    byte == b' ' || byte == b'\t'
}

// How many blanks stand at the start.
fn blanks_before(bytes: &[u8]) -> usize
    ensures { result ≡ prefix_len is_blank bytes.now }
{
    bytes.iter().take_while(|byte| is_blank(**byte)).count()
}

// How many blanks stand at the end.
fn blanks_behind(bytes: &[u8]) -> usize
    ensures { result ≡ suffix_len is_blank bytes.now }
{
    bytes
        .iter()
        .rev()
        .take_while(|byte| is_blank(**byte))
        .count()
}

// How many bytes stand before the first blank.
fn word_length(bytes: &[u8]) -> usize
    ensures { result ≡ position_or_len is_blank bytes.now }
{
    bytes.iter().take_while(|byte| !is_blank(**byte)).count()
}

// The text without the blanks at its start.
fn unindented(text: &str) -> &str
    ensures { result.now ≡ unindented text.now }
{
    &text[blanks_before(text.as_bytes())..]
}

// The text without the blanks at its end.
fn unended(text: &str) -> &str
    ensures { result.now ≡ unended text.now }
{
    &text[..text.len() - blanks_behind(text.as_bytes())]
}

// The text without the blanks at its two ends.
pub(crate) fn trimmed(text: &str) -> &str
    ensures { result.now ≡ trimmed text.now }
{
    unended(unindented(text))
}

// The first word, and what stands behind it.
pub(crate) fn split_word(text: &str) -> (&str, &str)
    ensures word { result.0.now ≡ first_word text.now }
    ensures rest { result.1.now ≡ after_word text.now }
{
    let text = unindented(text);
    text.split_at(word_length(text.as_bytes()))
}

// The number that a word of digits says, if it is not too large.
pub(crate) fn number(word: &str) -> Option<usize>
    ensures { result ≡ number_said word.now }
{
    if word.starts_with('+') {
        return None;
    }
    word.parse().ok()
}

// The side that a word says; any word but the two is side 0.
pub(crate) fn side(word: &str) -> u8
    ensures { result ≡ side_said word.now }
{
    if word == "1" {
        1
    } else if word == "2" {
        2
    } else {
        0
    }
}
