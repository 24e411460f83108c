// What is read of a text so far: the rules that ended, the rule that goes on, and the table of atoms.
ghost use Rattle.std.specs.Prelude.{◌≡◌, ◌&&◌, length, Ok, nat_le};
ghost use Rattle.programs.specs.Model.{model, models};
ghost use Rattle.reading.specs.Sections.{Finishes};
ghost use Rattle.reading.specs.States.{state_of, Took, with_put, with_begin, with_close};
ghost use Rattle.reading.specs.Steps.{fresh, no_rule, step, literals, named, entered, taken, ended, opens_rule, before_literal, of_literal};
ghost use Rattle.reading.specs.Tables.{standings_of};
ghost use Rattle.reading.specs.Tokens.{word_of};
ghost use Rattle.reading.specs.Within.{Within};

use crate::phase::Phase;
use crate::section::Section;
use crate::table::{Atom, Atoms};
use crate::token::{Spot, Token};
use programs::program::Program;
use programs::rule::Rule;
use refusals::fault::{Fault, Text};
use std::alloc::Global;
use std::mem;

const MOST_RULES: usize = 256;

const MOST_LITERALS: usize = 16;

#[derive(Drop)]
pub(crate) struct Draft<'a> {
    heap: Global,
    phase: Phase,
    // Where the rule that goes on starts.
    begun: usize,
    rule: Rule,
    rules: Vec<Rule>,
    places: Vec<usize>,
    atoms: Atoms<'a>,
}

fn no_rule(heap: Global) -> Rule
    ensures { model result ≡ no_rule }
{
    Rule {
        head: None,
        plain: Vec::new(heap),
        negated: Vec::new(heap),
    }
}

impl<'a> Draft<'a> {
    pub(crate) fn new(heap: Global, atoms: Atoms<'a>) -> Draft<'a>
        ensures { state_of result ≡ fresh (standings_of atoms.entry) }
    {
        Draft {
            heap,
            phase: Phase::Start,
            begun: 0,
            rule: no_rule(heap),
            rules: Vec::new(heap),
            places: Vec::new(heap),
            atoms,
        }
    }

    // Has the body all the literals that it may have?
    fn full(&self) -> bool
        ensures { result ≡ nat_le 16 (literals (model self.now.rule)) }
    {
        self.rule
            .plain
            .len()
            .saturating_add(self.rule.negated.len())
            >= MOST_LITERALS
    }

    // An atom joins the rule that goes on.
    fn put(&mut self, atom: u16) -> Result<(), Fault>
        ensures { Took (Ok (with_put atom (state_of self.old))) (state_of self.new) result }
    {
        match self.phase {
            Phase::Start => self.rule.head = Some(atom),
            Phase::AfterArrow | Phase::AfterComma => self.rule.plain.push(atom)?,
            Phase::AfterNot => self.rule.negated.push(atom)?,
            Phase::AfterHead | Phase::AfterLiteral => {}
        }
        Ok(())
    }

    // A token that may open a rule has come at this place.
    fn begin(&mut self, at: usize)
        ensures { state_of self.new ≡ with_begin at (state_of self.old) }
    {
        if self.phase.opens_rule() {
            self.begun = at;
        }
    }

    // A name is taken: question 8, then it joins the rule.
    fn name(&mut self, atom: Atom<'a>, next: Phase) -> Result<(), Fault>
        ensures { Took (named atom.entry.at atom.entry.name.now next (state_of self.old) (entered atom.entry.text atom.entry.at atom.entry.name.now (standings_of self.old.atoms))) (state_of self.new) result }
    {
        let number = self.atoms.enter(atom)?;
        self.put(number)?;
        self.begin(atom.at);
        self.phase = next;
        Ok(())
    }

    // The rule that goes on ends.
    fn close(&mut self, next: Phase) -> Result<(), Fault>
        ensures { Took (Ok (with_close next (state_of self.old))) (state_of self.new) result }
    {
        let begun = self.begun;
        let fresh = no_rule(self.heap);
        let rule = mem::replace(&mut self.rule, fresh);
        self.rules.push(rule)?;
        self.places.push(begun)?;
        self.phase = next;
        Ok(())
    }

    // A token that the grammar allows is taken, and leads to the next phase.
    fn accept(&mut self, text: Text, spot: Spot<'a>, next: Phase) -> Result<(), Fault>
        ensures { Took (taken text spot.entry.at next (state_of self.old) (word_of spot.entry.token)) (state_of self.new) result }
    {
        match spot.token {
            Token::Name(name) => self.name(
                Atom {
                    text,
                    at: spot.at,
                    name,
                },
                next,
            ),
            Token::Dot => self.close(next),
            Token::Arrow => {
                self.begin(spot.at);
                self.phase = next;
                Ok(())
            }
            Token::Not | Token::Comma => {
                self.phase = next;
                Ok(())
            }
        }
    }

    // Does the token open a literal where the body is full?
    fn overfills(&self, token: Token<'a>) -> bool
        ensures { result ≡ ((before_literal self.now.phase && of_literal (word_of token.entry)) && nat_le 16 (literals (model self.now.rule))) }
    {
        match token {
            Token::Name(_) | Token::Not => self.phase.before_literal() && self.full(),
            Token::Arrow | Token::Comma | Token::Dot => false,
        }
    }

    // Does a rule open here where the text has all its rules?
    fn crowds(&self) -> bool
        ensures { result ≡ (opens_rule self.now.phase && nat_le 256 (length (models self.now.rules.items))) }
    {
        self.phase.opens_rule() && self.rules.len() >= MOST_RULES
    }

    // Takes one token more: question 5, then 7, 6 and 8.
    pub(crate) fn take(&mut self, text: Text, spot: Spot<'a>) -> Result<(), Fault>
        ensures { Took (step text spot.entry.at (state_of self.old) (word_of spot.entry.token)) (state_of self.new) result }
    {
        let at = spot.at;
        let Some(next) = self.phase.after(spot.token) else {
            return Err(Fault::Misplaced { text, at });
        };
        if self.crowds() {
            return Err(Fault::ManyRules { text, at });
        }
        if self.overfills(spot.token) {
            return Err(Fault::LongBody { text, at });
        }
        self.accept(text, spot, next)
    }

    // The end of the text, which has this many bytes: question 5 once more.
    pub(crate) fn finish(self, text: Text, end: usize) -> Result<(Section, Atoms<'a>), Fault>
        requires { Within (state_of self) }
        ensures { Finishes (ended text end (state_of self.entry)) result }
    {
        let Draft {
            heap: _,
            phase,
            begun: _,
            rule: _,
            rules,
            places,
            atoms,
        } = self;
        if !phase.opens_rule() {
            return Err(Fault::Misplaced { text, at: end });
        }
        let Some(program) = Program::new(rules) else {
            unreachable()
        };
        Ok((Section { program, places }, atoms))
    }
}
