//! What one command changes of its bucket.

ghost use Rattle.std.specs.Prelude.{◌≡◌, OnOk, OnErr};
ghost use Rattle.s3r_region.specs.Changes.{changed, received, IsFree};

use crate::Bucket;
use s3r_history::Replication;
use s3r_names::{Kept, Key, Stamp, TagSet, VersionId};
use s3r_versions::{Row, Rows};
use std::alloc::AllocError;

/// What one command changes of its bucket.
#[derive(Drop)]
pub(crate) enum Change {
    /// A version or a marker is added.
    Add(Row<Kept>),
    /// A version or a marker is received: it is added, or its tags and its hold are written where it is there.
    Receive(Row<Kept>),
    /// A version is removed.
    Remove {
        key: Key,
        id: VersionId,
    },
    /// A version's tags are written.
    Tags {
        key: Key,
        id: VersionId,
        tags: TagSet,
        stamp: Stamp,
    },
    /// A version's hold is written.
    Hold {
        key: Key,
        id: VersionId,
        hold: bool,
        stamp: Stamp,
    },
    /// Versioning is Enabled from now on, or Suspended.
    Versioning(bool),
    /// Its configuration is this one from now on, or none.
    Replication(Option<Replication>),
}

/// Adds a version that is received, or writes its tags and its hold where it is there.
fn receive(rows: &mut Rows<Kept>, row: Row<Kept>) -> Result<(), AllocError>
    ensures rows { OnOk result (rows.new.rows ≡ received row rows.old.rows) }
    ensures removed { OnOk result (rows.new.removed ≡ rows.old.removed) }
    ensures err { OnErr result (rows.new ≡ rows.old) }
{
    if rows.find(&row.key, row.id).is_none() {
        return rows.add(row);
    }
    if row.marker {
        return Ok(());
    }
    let (id, hold, hold_stamp, tags_stamp) = (row.id, row.hold, row.hold_stamp, row.tags_stamp);
    let Row { key, tags, .. } = row;
    rows.set_tags(&key, id, tags, tags_stamp);
    rows.set_hold(&key, id, hold, hold_stamp);
    Ok(())
}

impl Bucket {
    /// Makes the change. Without memory nothing changes.
    pub(crate) fn change(&mut self, change: Change) -> Result<(), AllocError>
        requires { IsFree change self.old }
        ensures ok { OnOk result (self.new ≡ changed change self.old) }
        ensures err { OnErr result (self.new ≡ self.old) }
    {
        match change {
            Change::Add(row) => self.rows.add(row)?,
            Change::Receive(row) => receive(&mut self.rows, row)?,
            Change::Remove { key, id } => {
                self.rows.remove(&key, id)?;
            }
            Change::Tags {
                key,
                id,
                tags,
                stamp,
            } => {
                self.rows.set_tags(&key, id, tags, stamp);
            }
            Change::Hold {
                key,
                id,
                hold,
                stamp,
            } => {
                self.rows.set_hold(&key, id, hold, stamp);
            }
            Change::Versioning(enabled) => self.enabled = enabled,
            Change::Replication(config) => self.config = config,
        }
        Ok(())
    }
}
