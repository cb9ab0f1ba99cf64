//! What new settings of a bucket do to a state.

ghost use Rattle.std.specs.Prelude.{◌+◌, ◌<◌, ◌^◌, OnOk};
ghost use Rattle.s3r_record.specs.declared.command.Command.{Command};
ghost use Rattle.s3r_region.specs.Applies.{Applies};

use crate::State;
use crate::change::Change;
use s3r_history::Replication;
use s3r_names::{BucketName, Bytes};
use s3r_rules::Config;
use std::alloc::{AllocError, Global};

impl State {
    /// Versioning is Enabled from now on, or Suspended. After an error the state is given up.
    pub(crate) fn set_versioning(
        &mut self,
        alloc: Global,
        name: &BucketName,
        enabled: bool,
    ) -> Result<(), AllocError>
        requires { self.old.commands + 1 < 2 ^ 64 }
        ensures { OnOk result (Applies (Command.SetVersioning name.now enabled) self.old self.new) }
    {
        let n = self.clock();
        self.change(name, Change::Versioning(enabled), n, Vec::new(alloc))
    }

    /// The bucket is copied by these rules from now on.
    pub(crate) fn set_replication(
        &mut self,
        alloc: Global,
        name: &BucketName,
        config: Config,
        regions: Bytes,
    ) -> Result<(), AllocError>
        requires { self.old.commands + 1 < 2 ^ 64 }
        ensures { OnOk result (Applies (Command.SetReplication name.now config regions) self.old self.new) }
    {
        let n = self.clock();
        let change = Change::Replication(Some(Replication { config, regions }));
        self.change(name, change, n, Vec::new(alloc))
    }

    /// The bucket is copied no more.
    pub(crate) fn drop_replication(
        &mut self,
        alloc: Global,
        name: &BucketName,
    ) -> Result<(), AllocError>
        requires { self.old.commands + 1 < 2 ^ 64 }
        ensures { OnOk result (Applies (Command.DropReplication name.now) self.old self.new) }
    {
        let n = self.clock();
        self.change(name, Change::Replication(None), n, Vec::new(alloc))
    }
}
