//! By which interfaces names are declared. Interfaces and names are numbers here, and owners belong to a round, so that those
//! of an earlier round need not be taken away.

ghost use Rattle.std.specs.Prelude.{◌≡◌, ◌<◌, length, get_or};
ghost use Rattle.std.specs.List.{AllByRecursion, list_any};
ghost use Rattle.extend_resolve.specs.Machinery.Owners.{nobody, has_other_owner, with_owner, other_at, add_owner, add_names};

/// Which interfaces declare a name, of those that were added in a round.
#[derive(Clone, Copy)]
pub struct Owner {
    pub round: usize,
    /// The first of them.
    pub number: usize,
    /// Whether there are others.
    pub several: bool,
}

impl Owner {
    /// Whether another interface than this one declares the name.
    fn has_other(self, round: usize, number: usize) -> bool
        ensures { result ≡ has_other_owner self round number }
    {
        self.round == round && (self.several || self.number != number)
    }

    /// The same with an interface that declares the name.
    fn with(self, round: usize, number: usize) -> Owner
        ensures { result ≡ with_owner self round number }
    {
        if self.round != round {
            return Owner {
                round,
                number,
                several: false,
            };
        }
        Owner {
            round,
            number: self.number,
            several: self.several || self.number != number,
        }
    }
}

/// Whether another interface than this one declares one of the names.
pub fn any_other(owners: &[Owner], round: usize, names: &[usize], number: usize) -> bool
    requires { AllByRecursion (λ x. x < length owners.now) names.now }
    ensures { result ≡ list_any (λ x. other_at owners.now round x number) names.now }
{
    'names: for name in names {
        if owners[*name].has_other(round, number) {
            return true;
        }
    }
    false
}

/// Adds an interface that declares these names.
pub fn add(owners: &mut [Owner], round: usize, names: &[usize], number: usize)
    requires { AllByRecursion (λ x. x < length owners.old) names.now }
    ensures { owners.new ≡ add_names round number owners.old names.now }
{
    'names: for name in names {
        owners[*name] = owners[*name].with(round, number);
    }
}
