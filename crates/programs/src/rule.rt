// A ground rule: its head, and its body's plain and negated atoms in the order of the text.
ghost use Rattle.std.specs.Prelude.{◌≡◌};
ghost use Rattle.programs.specs.Limits.{all_below, rule_fits};
ghost use Rattle.programs.specs.Model.{head_model, model};
ghost use Rattle.game.specs.Rules.{heads, among as standing, in_rule};

// A rule without a head is a constraint.
#[derive(Drop, Debug)]
pub struct Rule {
    pub head: Option<u16>,
    pub plain: Vec<u16>,
    pub negated: Vec<u16>,
}

// Is every atom below the limit?
fn below(atoms: &[u16], limit: usize) -> bool
    ensures { result ≡ all_below limit atoms.now }
{
    atoms.iter().all(|atom| usize::from(*atom) < limit)
}

// Does the atom stand on the list?
fn among(atom: u16, atoms: &[u16]) -> bool
    ensures { result ≡ standing atom atoms.now }
{
    atoms.contains(&atom)
}

impl Rule {
    // Are there at most 16 literals, and is every atom below the limit?
    pub fn fits(&self, limit: usize) -> bool
        ensures { result ≡ rule_fits limit (model self.now) }
    {
        let plain = self.plain.as_slice();
        let negated = self.negated.as_slice();
        if plain.len() > 16 || negated.len() > 16 - plain.len() {
            return false;
        }
        self.head.is_none_or(|atom| usize::from(atom) < limit)
            && below(plain, limit)
            && below(negated, limit)
    }

    // Is this atom the head?
    pub fn has_head(&self, atom: u16) -> bool
        ensures { result ≡ heads atom (head_model self.now.head) }
    {
        self.head == Some(atom)
    }

    // Does the atom stand in the rule, as its head, plain or negated?
    pub fn mentions(&self, atom: u16) -> bool
        ensures { result ≡ in_rule atom (model self.now) }
    {
        self.has_head(atom)
            || among(atom, self.plain.as_slice())
            || among(atom, self.negated.as_slice())
    }
}
