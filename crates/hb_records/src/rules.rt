ghost use Rattle.std.specs.Prelude.{◌≡◌, ◌≤◌, length};

use hb_base::Listed;
use hb_text::{Duplicate, Memory, Text};
use std::alloc::Global;
use std::marker::Model;

/// The most rules of each sort that a project has.
pub const MOST_RULES: usize = 15;

/// Takes the texts that its pattern matches, or those that it doesn't match.
#[derive(Drop)]
pub struct Selector {
    /// Whether it takes what the pattern doesn't match.
    pub exclude: bool,
    /// The text of the pattern. One that is no pattern matches nothing.
    pub pattern: Text,
}

impl Duplicate for Selector {
    fn copy(&self, alloc: Global) -> Result<Selector, Memory> {
        Ok(Selector {
            exclude: self.exclude,
            pattern: self.pattern.copy(alloc)?,
        })
    }
}

/// The tags that both selectors take can't be moved or dropped.
#[derive(Drop)]
pub struct ImmuteRule {
    /// For the name behind the project.
    pub repo: Selector,
    pub tag: Selector,
}

impl Duplicate for ImmuteRule {
    fn copy(&self, alloc: Global) -> Result<ImmuteRule, Memory> {
        Ok(ImmuteRule {
            repo: self.repo.copy(alloc)?,
            tag: self.tag.copy(alloc)?,
        })
    }
}

/// Which of the tags that a rule takes in a repository retention keeps.
#[derive(Clone, Copy, Debug, PartialEq, Eq)]
pub enum Template {
    /// All of them.
    Always,
    /// So many, those that were pushed last.
    PushedLatest(u32),
    /// So many, those that were pulled last.
    PulledLatest(u32),
    /// Those that were pushed within so many days.
    PushedDays(u32),
    /// Those that were pulled within so many days.
    PulledDays(u32),
}

/// Which tags of which repositories retention looks at, and which of them it keeps.
#[derive(Drop)]
pub struct RetainRule {
    pub template: Template,
    /// For the name behind the project.
    pub repo: Selector,
    pub tag: Selector,
}

impl Duplicate for RetainRule {
    fn copy(&self, alloc: Global) -> Result<RetainRule, Memory> {
        Ok(RetainRule {
            template: self.template,
            repo: self.repo.copy(alloc)?,
            tag: self.tag.copy(alloc)?,
        })
    }
}

/// The rules of immutability of a project, at most [`MOST_RULES`]. Contracts see them as a list.
#[derive(Drop)]
pub struct ImmuteList {
    rules: Listed<ImmuteRule>,
}

impl Model for ImmuteList {
    ghost use Rattle.std.specs.Prelude.{List, length, ◌≤◌};
    ghost use Rattle.hb_records.specs.declared.rules.ImmuteRule.{ImmuteRule};

    ghost Value = { List ImmuteRule };

    ghost view = { λ list. list.rules };

    ghost invariant = { λ list. length list.rules ≤ 15 };
}

impl ImmuteList {
    /// The list of these rules. It takes no memory.
    pub fn of(rules: Listed<ImmuteRule>) -> ImmuteList
        requires { length rules ≤ 15 }
        ensures { result ≡ rules }
    {
        ImmuteList { rules }
    }

    /// The rules, in order.
    pub fn as_slice(&self) -> &[ImmuteRule]
        ensures value { result.now ≡ self.now }
        ensures few { length self.now ≤ 15 }
    {
        self.rules.as_slice()
    }
}

impl Duplicate for ImmuteList {
    fn copy(&self, alloc: Global) -> Result<ImmuteList, Memory> {
        Ok(ImmuteList {
            rules: self.rules.copy(alloc)?,
        })
    }
}

/// The rules of retention of a project, at most [`MOST_RULES`]. Contracts see them as a list.
#[derive(Drop)]
pub struct RetainList {
    rules: Listed<RetainRule>,
}

impl Model for RetainList {
    ghost use Rattle.std.specs.Prelude.{List, length, ◌≤◌};
    ghost use Rattle.hb_records.specs.declared.rules.RetainRule.{RetainRule};

    ghost Value = { List RetainRule };

    ghost view = { λ list. list.rules };

    ghost invariant = { λ list. length list.rules ≤ 15 };
}

impl RetainList {
    /// The list of these rules. It takes no memory.
    pub fn of(rules: Listed<RetainRule>) -> RetainList
        requires { length rules ≤ 15 }
        ensures { result ≡ rules }
    {
        RetainList { rules }
    }

    /// The rules, in order.
    pub fn as_slice(&self) -> &[RetainRule]
        ensures value { result.now ≡ self.now }
        ensures few { length self.now ≤ 15 }
    {
        self.rules.as_slice()
    }
}

impl Duplicate for RetainList {
    fn copy(&self, alloc: Global) -> Result<RetainList, Memory> {
        Ok(RetainList {
            rules: self.rules.copy(alloc)?,
        })
    }
}

/// The rules of a project.
#[derive(Drop)]
pub struct Rules {
    pub immutes: ImmuteList,
    pub retains: RetainList,
}

impl Duplicate for Rules {
    fn copy(&self, alloc: Global) -> Result<Rules, Memory> {
        Ok(Rules {
            immutes: self.immutes.copy(alloc)?,
            retains: self.retains.copy(alloc)?,
        })
    }
}
