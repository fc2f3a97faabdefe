// What `check` has gathered of a script.
ghost use Rattle.std.specs.Prelude.{◌≡◌, IfOk};
ghost use Rattle.std.specs.Str.{chars};
ghost use Rattle.fd_checking.specs.Checks.{first_gathered};

use fd_check::{Circuit, Command, Text};
use std::alloc::{AllocError, Global};
use std::marker::Model;

/// The circuit so far, the commands that made it, and the name of the certificate. Contracts see the circuits of the
/// commands' Solves in place of the commands.
#[derive(Drop)]
pub(crate) struct Gathered {
    pub circuit: Circuit,
    pub commands: Vec<Command>,
    pub certificate: Text,
}

impl Model for Gathered {
    ghost use Rattle.fd_checking.specs.Checks.{GatheredView, gathered};
    ghost use Rattle.fd_checking.specs.Gathered.{IsGathered, solved_by};

    ghost Value = { GatheredView };

    ghost view = { λ g. gathered g.circuit (solved_by g.commands.items) g.certificate };

    ghost invariant = { λ g. IsGathered g.circuit g.commands.items };
}

impl Gathered {
    /// No circuit and no command.
    pub(crate) fn new(alloc: Global, certificate: &str) -> Result<Gathered, AllocError>
        ensures { IfOk result (λ g. g ≡ first_gathered (chars certificate.now)) }
    {
        Ok(Gathered {
            circuit: Circuit::empty(alloc),
            commands: Vec::new(alloc),
            certificate: Text::new(String::from_str(alloc, certificate)?),
        })
    }
}
