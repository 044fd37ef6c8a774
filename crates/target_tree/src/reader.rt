//! The reading of one text, word by word: what stands before its last operand, in each parenthesis that is open.
ghost use Rattle.std.specs.Prelude.{◌≡◌, ◌-◌, ◌<◌, Ok, IfOk};
ghost use Rattle.target_tree.specs.Limits.{most_words};
ghost use Rattle.target_tree.specs.Machine.{GivesTree, fresh, with_operand, joined_and, joined_or, negations, machine_begun, machine_operand, machine_operator, machine_closing, machine_word, machine_end, machine_resumed, no_group};

use crate::limits::{MOST_OPEN, MOST_PATTERNS, MOST_WORDS};
use crate::stack::Stack;
use crate::token::Token;
use crate::{Target, TargetFault};
use sqlite_items::Boxed;
use std::alloc::{AllocError, Global};
use std::mem;

/// How many words `not` and `(` stood open where a parenthesis or a text began, and how many do now.
#[derive(Clone, Copy)]
pub struct Nest {
    pub around: u32,
    pub deep: u32,
}

/// A parenthesis or a text: what stands before an `or` and an `and`.
#[derive(Drop)]
pub struct Part {
    pub left_or: Option<Boxed<Target>>,
    pub left_and: Option<Boxed<Target>>,
    pub nest: Nest,
}

/// The reading of one text.
#[derive(Drop)]
pub struct Reader {
    /// The operand that ended, with those that `and` joined to it.
    pub last: Option<Boxed<Target>>,
    pub part: Part,
    pub parts: Stack<Part>,
    pub at: u32,
    pub patterns: u32,
}

/// A text that was read.
#[derive(Drop)]
pub struct Ended {
    pub tree: Boxed<Target>,
    pub at: u32,
    pub patterns: u32,
}

/// The tree under one `not` more.
fn under_not(alloc: Global, tree: Boxed<Target>) -> Result<Boxed<Target>, AllocError>
    ensures { IfOk result (λ t. t ≡ Target.Not tree) }
{
    Boxed::new(alloc, Target::Not(tree))
}

/// The tree under each `not` that stands open.
fn negated(alloc: Global, tree: Boxed<Target>, nest: Nest) -> Result<Boxed<Target>, AllocError>
    ensures { IfOk result (λ t. t ≡ negations (nest.deep - nest.around) tree) }
{
    let mut tree = tree;
    for _ in nest.around..nest.deep {
        tree = under_not(alloc, tree)?;
    }
    Ok(tree)
}

fn both(
    alloc: Global,
    left: Option<Boxed<Target>>,
    right: Boxed<Target>,
) -> Result<Boxed<Target>, AllocError>
    ensures { IfOk result (λ t. t ≡ joined_and left right) }
{
    match left {
        None => Ok(right),
        Some(left) => Boxed::new(alloc, Target::And(left, right)),
    }
}

fn either(
    alloc: Global,
    left: Option<Boxed<Target>>,
    right: Boxed<Target>,
) -> Result<Boxed<Target>, AllocError>
    ensures { IfOk result (λ t. t ≡ joined_or left right) }
{
    match left {
        None => Ok(right),
        Some(left) => Boxed::new(alloc, Target::Or(left, right)),
    }
}

fn fresh_nest(around: u32) -> Nest
    ensures { result ≡ fresh around }
{
    Nest {
        around,
        deep: around,
    }
}

impl Reader {
    /// At the start of a text.
    pub fn begin(alloc: Global, around: u32, at: u32, patterns: u32) -> Reader
        ensures { result ≡ machine_begun around at patterns }
    {
        Reader {
            last: None,
            part: Part {
                left_or: None,
                left_and: None,
                nest: fresh_nest(around),
            },
            parts: Stack::new(alloc),
            at,
            patterns,
        }
    }

    /// After an operand.
    fn mend(self, alloc: Global, tree: Boxed<Target>) -> Result<Reader, AllocError>
        ensures { IfOk result (λ r. r ≡ with_operand tree self) }
    {
        let mut reader = self;
        let nest = reader.part.nest;
        let tree = negated(alloc, tree, nest)?;
        let tree = both(alloc, reader.part.left_and.take(), tree)?;
        reader.last = Some(tree);
        reader.part.nest = fresh_nest(nest.around);
        Ok(reader)
    }
}

impl Reader {
    /// After a word where an operand is due, and which is no nodegroup's.
    fn operand(self, alloc: Global, word: Token) -> Result<Reader, TargetFault>
        requires { self.at < most_words }
        ensures { GivesTree result (machine_operand no_group word self) }
    {
        let at = self.at;
        match word {
            Token::NotWord => self.deepen(),
            Token::OpenWord => self.nest(),
            Token::Leaf(tree) => self.leaf(alloc, tree),
            Token::Pattern(tree) => self.pattern(alloc, tree),
            Token::NoLetter => Err(TargetFault::BadLetter { at }),
            _ => Err(TargetFault::Word { at }),
        }
    }

    fn deepen(self) -> Result<Reader, TargetFault>
        requires { self.at < most_words }
        ensures { GivesTree result (machine_operand no_group Token.NotWord self) }
    {
        let mut reader = self;
        if reader.part.nest.deep >= MOST_OPEN {
            return Err(TargetFault::TooDeep);
        }
        reader.part.nest.deep += 1;
        reader.at += 1;
        Ok(reader)
    }

    fn nest(self) -> Result<Reader, TargetFault>
        requires { self.at < most_words }
        ensures { GivesTree result (machine_operand no_group Token.OpenWord self) }
    {
        let mut reader = self;
        let deep = reader.part.nest.deep;
        if deep >= MOST_OPEN {
            return Err(TargetFault::TooDeep);
        }
        let inner = Part {
            left_or: None,
            left_and: None,
            nest: fresh_nest(deep + 1),
        };
        let outer = mem::replace(&mut reader.part, inner);
        reader.parts.push(outer)?;
        reader.at += 1;
        Ok(reader)
    }

    fn leaf(self, alloc: Global, tree: Boxed<Target>) -> Result<Reader, TargetFault>
        requires { self.at < most_words }
        ensures { GivesTree result (machine_operand no_group (Token.Leaf tree) self) }
    {
        let mut reader = self;
        reader.at += 1;
        Ok(reader.mend(alloc, tree)?)
    }

    fn pattern(self, alloc: Global, tree: Boxed<Target>) -> Result<Reader, TargetFault>
        requires { self.at < most_words }
        ensures { GivesTree result (machine_operand no_group (Token.Pattern tree) self) }
    {
        let mut reader = self;
        if reader.patterns >= MOST_PATTERNS {
            return Err(TargetFault::TooManyPatterns);
        }
        reader.patterns += 1;
        reader.at += 1;
        Ok(reader.mend(alloc, tree)?)
    }

    /// After a word where none is due.
    fn operator(
        self,
        alloc: Global,
        last: Boxed<Target>,
        word: Token,
    ) -> Result<Reader, TargetFault>
        requires { self.at < most_words }
        ensures { GivesTree result (machine_operator last word self) }
    {
        let at = self.at;
        match word {
            Token::AndWord => self.after_and(last),
            Token::OrWord => self.after_or(alloc, last),
            Token::CloseWord => self.close(alloc, last),
            _ => Err(TargetFault::Word { at }),
        }
    }

    fn after_and(self, last: Boxed<Target>) -> Result<Reader, TargetFault>
        requires { self.at < most_words }
        ensures { GivesTree result (machine_operator last Token.AndWord self) }
    {
        let mut reader = self;
        reader.last = None;
        reader.part.left_and = Some(last);
        reader.at += 1;
        Ok(reader)
    }

    fn after_or(self, alloc: Global, last: Boxed<Target>) -> Result<Reader, TargetFault>
        requires { self.at < most_words }
        ensures { GivesTree result (machine_operator last Token.OrWord self) }
    {
        let mut reader = self;
        let tree = either(alloc, reader.part.left_or.take(), last)?;
        reader.last = None;
        reader.part.left_or = Some(tree);
        reader.part.left_and = None;
        reader.at += 1;
        Ok(reader)
    }

    fn close(self, alloc: Global, last: Boxed<Target>) -> Result<Reader, TargetFault>
        requires { self.at < most_words }
        ensures { GivesTree result (machine_closing last self.parts self) }
    {
        let mut reader = self;
        let at = reader.at;
        match reader.parts.pop() {
            None => Err(TargetFault::Word { at }),
            Some(outer) => {
                let tree = either(alloc, reader.part.left_or.take(), last)?;
                reader.part = outer;
                reader.leaf(alloc, tree)
            }
        }
    }

    /// After a word that is no nodegroup's, or comes where no operand is due.
    pub fn word(self, alloc: Global, word: Token) -> Result<Reader, TargetFault>
        ensures { GivesTree result (machine_word no_group word self) }
    {
        let mut reader = self;
        if reader.at >= MOST_WORDS {
            return Err(TargetFault::TooManyWords);
        }
        match reader.last.take() {
            None => reader.operand(alloc, word),
            Some(last) => reader.operator(alloc, last, word),
        }
    }

    /// At the end of a text.
    pub fn end(self, alloc: Global) -> Result<Ended, TargetFault>
        ensures { GivesTree result (machine_end self) }
    {
        let mut reader = self;
        let Some(last) = reader.last.take() else {
            return Err(TargetFault::Word { at: reader.at });
        };
        if !reader.parts.is_empty() {
            return Err(TargetFault::Unclosed);
        }
        let tree = either(alloc, reader.part.left_or.take(), last)?;
        Ok(Ended {
            tree,
            at: reader.at,
            patterns: reader.patterns,
        })
    }

    /// After a nodegroup's text.
    pub fn resume(self, alloc: Global, ended: Ended) -> Result<Reader, TargetFault>
        ensures { GivesTree result (machine_resumed self ended) }
    {
        let Ended { tree, at, patterns } = ended;
        let mut reader = self;
        reader.at = at;
        reader.patterns = patterns;
        Ok(reader.mend(alloc, tree)?)
    }
}
