// The kinds of character that tokens are made of.
ghost use Rattle.std.specs.Prelude.{◌≡◌};
ghost use Rattle.reading.specs.Classes.{blank, small, name_part};

pub(crate) fn is_blank(c: char) -> bool
    ensures { result ≡ blank c }
{
    matches!(c, ' ' | '\t' | '\r' | '\n')
}

pub(crate) fn is_small(c: char) -> bool
    ensures { result ≡ small c }
{
    matches!(c, 'a'..='z')
}

// May the character stand in a name, after its first?
pub(crate) fn is_name_part(c: char) -> bool
    ensures { result ≡ name_part c }
{
    matches!(c, 'a'..='z' | 'A'..='Z' | '0'..='9' | '_')
}
