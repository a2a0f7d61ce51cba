//! A door, through which connections come.
ghost use Rattle.std.specs.Prelude.{◌≡◌, ◌<◌, ◌≤◌, ◌+◌, ℕ, List, Option, IfOk, OnOk, OnErr};
ghost use Rattle.dsc_outside.specs.Causes.{HasCause};
ghost use Rattle.pull_outside.specs.Door.{GetsBack, HandedBack, Known, TakesFirst, known_of};

use dsc_outside::{Failed, Sink, Source};

/// How a connection that is handed back is to end. In either case what was written has been handed to the system.
#[derive(Clone, Copy, Debug)]
pub enum Parting {
    /// Without waiting, where the peer has sent all that it will. A peer that still sends may lose what it has not read yet,
    /// since the system may then reset the connection.
    AtOnce,

    /// After the peer has ended its side, or its time for that is over: where it may still send.
    AfterPeer,
}

/// Gives connections one after the other, and takes each back once it was served.
pub trait Door {
    type Conn: Source + Sink;

    /// The connections that are still to come, in order, where they are shown.
    ghost coming: { Self → Option (List Known) };

    /// The connections that were handed back, in order, each with its parting, where they are shown.
    ghost back: { Self → Option (List HandedBack) };

    /// How many connections were given and not yet handed back.
    ghost out: { Self → ℕ };

    /// How often a call has failed.
    ghost faults: { Self → ℕ };

    /// Gives the next connection. A call that fails gives none away.
    fn next(&mut self) -> Result<Self::Conn, Failed>
        ensures taken { IfOk result (λ conn. TakesFirst (coming self.old) (coming self.new)
            (known_of Self.Conn.Ends conn)) }
        ensures kept { OnErr result (coming self.new ≡ coming self.old) }
        ensures back { back self.new ≡ back self.old }
        ensures given { OnOk result (out self.new ≡ out self.old + 1) }
        ensures not_given { OnErr result (out self.new ≡ out self.old) }
        ensures cause { HasCause (faults self.old) (faults self.new) result };

    /// Takes a connection back that was given, and ends it as the parting says.
    fn close(&mut self, conn: Self::Conn, parting: Parting)
        requires { 0 < out self.old }
        ensures back { GetsBack (back self.old) (back self.new)
            (record { known = known_of Self.Conn.Ends conn; parting = parting }) }
        ensures coming { coming self.new ≡ coming self.old }
        ensures out { out self.old ≡ out self.new + 1 }
        ensures count { faults self.old ≤ faults self.new };
}
