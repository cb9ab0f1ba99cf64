//! A job and its lines.

use s3r_jobs::{AnyJob, Job, JobSpec, ManifestSpec, Operation};
use s3r_lines::{Lines, MOST_LINES, ObjectRef};
use s3r_names::{BucketName, Key, NameFault, Text};
use std::alloc::Global;

fn manifest(alloc: Global) -> Result<ManifestSpec, NameFault> {
    let bucket = BucketName::read(alloc, b"abc")?;
    let key = Key::read(alloc, b"manifest")?;
    Ok(ManifestSpec {
        versions: false,
        bucket,
        key,
        version: None,
    })
}

/// A job that was created just now.
pub fn made(alloc: Global, confirm: bool) -> Result<AnyJob, NameFault> {
    let token = Text::from_str(alloc, "token")?;
    let manifest = manifest(alloc)?;
    let spec = JobSpec {
        token,
        priority: 10,
        confirm,
        operation: Operation::Hold(true),
        manifest,
        report: None,
    };
    Ok(AnyJob::New(Job::make(alloc, 1, spec)))
}

fn line(alloc: Global) -> Result<ObjectRef, NameFault> {
    let bucket = BucketName::read(alloc, b"abc")?;
    let key = Key::read(alloc, b"k")?;
    Ok(ObjectRef {
        bucket,
        key,
        version: None,
    })
}

fn objects(alloc: Global, count: u32) -> Result<Vec<ObjectRef>, NameFault> {
    let mut objects = Vec::new(alloc);
    for _ in 0..count {
        objects.push(line(alloc)?)?;
    }
    Ok(objects)
}

/// So many lines; none where there is no memory for them, or they are more than a job has.
pub fn lines(alloc: Global, count: u32) -> Lines {
    match objects(alloc, count) {
        Ok(objects) if objects.len() <= MOST_LINES => Lines::from_vec(objects),
        _ => Lines::none(alloc),
    }
}
