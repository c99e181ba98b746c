// The text that a program ended with.
ghost use Rattle.std.specs.Prelude.{◌≡◌};
ghost use Rattle.p9_base.specs.SystemCalls.{exit_text};
ghost use Rattle.p9_vi.specs.Run.{IsExited};

use p9_vi::Machine;
use std::marker::Model;

/// The text that a program ended with. What ran the program keeps it, so it takes no memory of its
/// own, and want of memory can't hide an exit.
#[derive(Drop)]
pub struct Message {
    machine: Machine,
}

impl Model for Message {
    ghost use Rattle.std.specs.Prelude.{List, ℕ};
    ghost use Rattle.p9_base.specs.SystemCalls.{exit_text};
    ghost use Rattle.p9_vi.specs.Run.{IsExited};

    ghost Value = { List ℕ };

    ghost view = { λ t. exit_text t.machine };

    ghost invariant = { λ t. IsExited t.machine.ending };
}

impl Message {
    /// The text of a machine that has exited.
    pub(crate) fn of(machine: Machine) -> Message
        requires { IsExited machine.ending }
        ensures { result ≡ exit_text machine }
    {
        Message { machine }
    }

    /// The text's bytes.
    pub fn bytes(&self) -> &[u8]
        ensures { result.now ≡ self.now }
    {
        self.machine.exit_text()
    }
}
