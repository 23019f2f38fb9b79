//! Lists of parts, of item lines, of guards and of rules, which contracts see as lists.
ghost use Rattle.std.specs.Prelude.{◌≡◌, [], length};

use crate::rule::{Guard, Part, Pattern, Rule};
use std::alloc::Global;
use std::marker::Model;

/// The parts of a byte list.
#[derive(Debug, Drop)]
pub struct Parts {
    items: Vec<Part>,
}

impl Model for Parts {
    ghost use Rattle.std.specs.Prelude.{List};
    ghost use Rattle.mv_rules.specs.declared.rule.Part.{Part};

    ghost Value = { List Part };

    ghost view = { λ p. p.items.items };
}

impl Parts {
    /// The parts of the vector, in its place in memory.
    pub fn from_vec(items: Vec<Part>) -> Parts
        ensures { result ≡ items.items }
    {
        Parts { items }
    }

    /// The parts as a vector, in their place in memory.
    pub fn into_vec(self) -> Vec<Part>
        ensures { result.items ≡ self }
    {
        let Parts { items } = self;
        items
    }

    /// The parts, to be looked at.
    pub fn slice(&self) -> &[Part]
        ensures { result.now ≡ self.now }
    {
        self.items.as_slice()
    }
}

/// The item lines of one side of a rule.
#[derive(Debug, Drop)]
pub struct Patterns {
    items: Vec<Pattern>,
}

impl Model for Patterns {
    ghost use Rattle.std.specs.Prelude.{List};
    ghost use Rattle.mv_rules.specs.declared.rule.Pattern.{Pattern};

    ghost Value = { List Pattern };

    ghost view = { λ p. p.items.items };
}

impl Patterns {
    /// The item lines of the vector, in its place in memory.
    pub fn from_vec(items: Vec<Pattern>) -> Patterns
        ensures { result ≡ items.items }
    {
        Patterns { items }
    }

    /// The item lines as a vector, in their place in memory.
    pub fn into_vec(self) -> Vec<Pattern>
        ensures { result.items ≡ self }
    {
        let Patterns { items } = self;
        items
    }

    /// The item lines, to be looked at.
    pub fn slice(&self) -> &[Pattern]
        ensures { result.now ≡ self.now }
    {
        self.items.as_slice()
    }
}

/// The guards of a rule.
#[derive(Debug, Drop)]
pub struct Guards {
    items: Vec<Guard>,
}

impl Model for Guards {
    ghost use Rattle.std.specs.Prelude.{List};
    ghost use Rattle.mv_rules.specs.declared.rule.Guard.{Guard};

    ghost Value = { List Guard };

    ghost view = { λ g. g.items.items };
}

impl Guards {
    /// The guards of the vector, in its place in memory.
    pub fn from_vec(items: Vec<Guard>) -> Guards
        ensures { result ≡ items.items }
    {
        Guards { items }
    }

    /// The guards as a vector, in their place in memory.
    pub fn into_vec(self) -> Vec<Guard>
        ensures { result.items ≡ self }
    {
        let Guards { items } = self;
        items
    }

    /// The guards, to be looked at.
    pub fn slice(&self) -> &[Guard]
        ensures { result.now ≡ self.now }
    {
        self.items.as_slice()
    }
}

/// The rules of a file, in its order. Each has 1 to 8 items on the left, at most 16 on the right and at most 8 guards, and
/// makes no error number 0.
#[derive(Debug, Drop)]
pub struct Rules {
    rules: Vec<Rule>,
}

impl Model for Rules {
    ghost use Rattle.std.specs.Prelude.{List};
    ghost use Rattle.mv_rules.specs.declared.rule.Rule.{Rule};
    ghost use Rattle.mv_rules.specs.Shape.{AreShaped};

    ghost Value = { List Rule };

    ghost view = { λ r. r.rules.items };

    ghost invariant = { λ r. AreShaped r.rules.items };
}

impl Rules {
    ghost use Rattle.mv_rules.specs.Shape.{AreShaped};

    /// No rules. This takes no memory: the allocator is for a growth that never comes.
    pub fn none(alloc: Global) -> Rules
        ensures { result ≡ [] }
    {
        Rules {
            rules: Vec::new(alloc),
        }
    }

    /// The rules of the vector, in its place in memory.
    pub fn from_vec(rules: Vec<Rule>) -> Rules
        requires { AreShaped rules.items }
        ensures { result ≡ rules.items }
    {
        Rules { rules }
    }

    /// The rules as a vector, in their place in memory.
    pub fn into_vec(self) -> Vec<Rule>
        ensures rules { result.items ≡ self }
        ensures shaped { AreShaped result.items }
    {
        let Rules { rules } = self;
        rules
    }

    /// How many rules there are.
    pub fn count(&self) -> usize
        ensures { result ≡ length self.now }
    {
        self.rules.len()
    }

    /// The rules, to be looked at.
    pub fn slice(&self) -> &[Rule]
        ensures rules { result.now ≡ self.now }
        ensures shaped { AreShaped result.now }
    {
        self.rules.as_slice()
    }
}
