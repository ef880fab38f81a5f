//! The rules on sets of interfaces.

ghost use Rattle.std.specs.Prelude.{◌≡◌};
ghost use Rattle.extend_resolve.specs.Breaches.{set_rule_code, set_rule_number};

/// A rule on sets of interfaces (this project's own, by the limits of DTDL v2, "Interface"), in the order in which they
/// are named at one place.
#[derive(Clone, Copy, Debug, PartialEq, Eq)]
pub enum SetRule {
    /// An earlier interface has the same identifier.
    RepeatedId,
    /// The parent, or the interface of the component, is not in the set.
    AbsentReference,
    /// A chain of extension that begins with this step leads back to the interface.
    Cycle,
    /// No cycle is reached, and a chain of 11 steps of extension begins here.
    LongChain,
    /// Two ways bring declarations of one name by different interfaces.
    NameClash,
    /// The interface of the component, or an ancestor of it, declares a component.
    ComponentInComponent,
    /// The interface and its ancestors declare together more than 3,000 contents.
    TooManyResolved,
}

impl SetRule {
    /// The code of the rule, as it is printed.
    pub fn text(&self) -> &'static str
        ensures { result.now ≡ set_rule_code self.now }
    {
        match self {
            SetRule::RepeatedId => "RepeatedId",
            SetRule::AbsentReference => "AbsentReference",
            SetRule::Cycle => "Cycle",
            SetRule::LongChain => "LongChain",
            SetRule::NameClash => "NameClash",
            SetRule::ComponentInComponent => "ComponentInComponent",
            SetRule::TooManyResolved => "TooManyResolved",
        }
    }

    /// The rule's place in the order of the rules, from 1.
    pub fn number(&self) -> u8
        ensures { result ≡ set_rule_number self.now }
    {
        match self {
            SetRule::RepeatedId => 1,
            SetRule::AbsentReference => 2,
            SetRule::Cycle => 3,
            SetRule::LongChain => 4,
            SetRule::NameClash => 5,
            SetRule::ComponentInComponent => 6,
            SetRule::TooManyResolved => 7,
        }
    }
}
