//! Numbers of agents.
ghost use Rattle.std.specs.Prelude.{◌≡◌, ◌+◌, ◌<◌, ◌≤◌, ◌^◌};
ghost use Rattle.fleet_view.specs.Counting.{none_counted, one_more};
ghost use Rattle.fleet_view.specs.Members.{number_in};

use agent_class::Class;

/// How many agents are of each class.
#[derive(Clone, Copy, Debug, PartialEq, Eq)]
pub struct Counts {
    pub compliant: usize,
    pub failed: usize,
    pub other: usize,
    pub silent: usize,
}

impl Counts {
    /// Of no agents.
    pub fn none() -> Counts
        ensures { result ≡ none_counted }
    {
        Counts {
            compliant: 0,
            failed: 0,
            other: 0,
            silent: 0,
        }
    }

    /// One agent of that class comes.
    pub fn more(&mut self, class: Class)
        requires { number_in class self.old + 1 < 2 ^ 64 }
        ensures { self.new ≡ one_more class self.old }
    {
        match class {
            Class::Silent => self.silent += 1,
            Class::Compliant => self.compliant += 1,
            Class::Failed => self.failed += 1,
            Class::Other => self.other += 1,
        }
    }

    /// One agent of that class goes.
    pub fn less(&mut self, class: Class)
        requires { 1 ≤ number_in class self.old }
        ensures { one_more class self.new ≡ self.old }
    {
        match class {
            Class::Silent => self.silent -= 1,
            Class::Compliant => self.compliant -= 1,
            Class::Failed => self.failed -= 1,
            Class::Other => self.other -= 1,
        }
    }
}
